// A session: who the client is, and what is launched.
ghost use Rattle.std.specs.Prelude.{◌≡◌, ◌⊎◌, ◌||◌, [], ◌∷◌, None, Some, true, false, is_some, unwrap_or};
ghost use Rattle.std.specs.Option.{option_map};
ghost use Rattle.serde_json.specs.View.{view};
ghost use Rattle.dap_messages.specs.Notes.{IsDone, IsRefusal};
ghost use Rattle.dap_messages.specs.declared.kind.Kind.{Kind as Asks};
ghost use Rattle.dap_messages.specs.declared.told.Told.{Told as Tells};
ghost use Rattle.dap_requests.specs.Said.{Tells as TellsAll};
ghost use Rattle.dap_requests.specs.Sets.{AnswersFilters, filters_refused};
ghost use Rattle.dap.specs.Anew.{excepting};
ghost use Rattle.dap.specs.Early.{AnswersEarly, AnswersKnown, EarlyBy, Launches};
ghost use Rattle.dap.specs.Goes.{Comes, Early, Goes, IsFresh, IsSeen, IsSound, LaunchedGoes, Restarts};
ghost use Rattle.dap.specs.Kinds.{ends, opens};
ghost use Rattle.dap.specs.Meeting.{ClientBy, Meets, MeetsBy, base, counting_of, is_path, names_paths};
ghost use Rattle.dap.specs.Meeting.{excepts_behind, excepts_by, excepts_early};
ghost use Rattle.dap.specs.Stops.{EndsWith, RefusedAs};

use crate::dispatch::perform;
use crate::launch::{Launched, start};
use crate::restart::restart;
use crate::sources::Sources;
use dap_messages::{Answer, Kind, Listed, Members, Outcome, Request, Told};
use dap_requests::{asks_for_refusals, set_before, set_data_before};
use dap_views::Counting;
use std::alloc::Global;
use std::mem;

/// A session with a client.
#[derive(Drop)]
pub struct Face {
    pub alloc: Global,
    /// how the client counts, once it has said so
    pub client: Option<Counting>,
    pub launched: Option<Launched>,
    /// whether refusals stop as exceptions, as set before the launch
    pub excepts: bool,
    /// whether the client has ended the session
    pub over: bool,
}

impl Face {
    /// A session of which nothing is known yet.
    pub fn new(alloc: Global) -> Face
        ensures { IsFresh result }
    {
        Face {
            alloc,
            client: None,
            launched: None,
            excepts: true,
            over: false,
        }
    }

    /// Answers a request. Files are read where it names some.
    pub fn respond<F: Sources>(&mut self, files: &F, request: &Request) -> Answer
        ensures { Comes (F.reads files.now) self.old request.now result self.new }
    {
        let over = self.is_over_behind(request.kind);
        let mut answer = Answer::new(self.alloc);
        self.hear(files, request, &mut answer);
        self.over = over;
        self.is_sound();
        answer
    }

    /// Whether the client has ended the session behind a request of this kind.
    fn is_over_behind(&self, kind: Kind) -> bool
        ensures { result ≡ (self.now.over || ends kind) }
    {
        let ended = ends_session(kind);
        self.over || ended
    }

    /// What holds of what is launched at every moment: nothing is done, the contract says it.
    #[tactic(auto, using(crate::proofs::Going::sound_of, crate::proofs::Going::sound_none))]
    pub fn is_sound(&self)
        ensures { IsSound self.now.launched }
    {
        match &self.launched {
            Some(launched) => launched.desk.is_sound(),
            None => {}
        }
    }

    /// Answers a request in this answer.
    fn hear<F: Sources>(&mut self, files: &F, request: &Request, answer: &mut Answer)
        ensures goes { Goes (F.reads files.now) self.old.launched request.now answer.old answer.new self.new.launched }
        ensures early { self.old.launched ≡ None → opens request.now.kind ≡ false
            → IsRefusal answer.new.outcome × (answer.new.notes ≡ answer.old.notes) × (self.new ≡ self.old) }
        ensures again { request.now.kind ≡ Asks.Initialize → is_some self.old.client ≡ true
            → IsRefusal answer.new.outcome × (answer.new.notes ≡ answer.old.notes) × (self.new ≡ self.old) }
        ensures first { Early (F.reads files.now) self.old request.now answer.old answer.new self.new.launched }
        ensures answers { self.old.launched ≡ None → (request.now.kind ≡ Asks.Initialize → ⊥)
            → AnswersEarly self.old.client request.now.kind (view request.now.arguments) answer.old answer.new }
        ensures client { IsDone answer.old.outcome
            → ClientBy request.now.kind self.old.client (view request.now.arguments) answer.new self.new.client }
        ensures excepts { self.new.excepts ≡ excepts_behind self.old.launched self.old.client request.now.kind
            (view request.now.arguments) self.old.excepts }
    {
        match request.kind {
            Kind::Initialize => self.initialize(request, answer),
            _ => self.serve(files, request, answer),
        }
    }

    /// Answers `initialize`.
    fn initialize(&mut self, request: &Request, answer: &mut Answer)
        ensures client { IsDone answer.old.outcome
            → Meets self.old.client (view request.now.arguments) answer.new self.new.client }
        ensures again { is_some self.old.client ≡ true → IsRefusal answer.new.outcome × (self.new ≡ self.old) }
        ensures quiet { answer.new.notes ≡ answer.old.notes }
        ensures launched { self.new.launched ≡ self.old.launched }
        ensures excepts { self.new.excepts ≡ self.old.excepts }
    {
        match self.client {
            Some(_) => answer.refuse(107, "`initialize` was answered already"),
            None => self.meet(request, answer),
        }
    }

    /// Answers the first `initialize`.
    fn meet(&mut self, request: &Request, answer: &mut Answer)
        requires { self.old.client ≡ None }
        ensures client { IsDone answer.old.outcome → MeetsBy (names_paths (view request.now.arguments))
            (view request.now.arguments) answer.new self.new.client }
        ensures quiet { answer.new.notes ≡ answer.old.notes }
        ensures launched { self.new.launched ≡ self.old.launched }
        ensures excepts { self.new.excepts ≡ self.old.excepts }
    {
        if names_paths(request) {
            self.client = Some(counting_of(request));
            answer.did();
            answer.body(capabilities(self.alloc));
        } else {
            answer.refuse(106, "only paths are understood, no URIs");
        }
    }

    /// Answers another request.
    #[tactic(auto, using(crate::proofs::Going::goes_anew))]
    fn serve<F: Sources>(&mut self, files: &F, request: &Request, answer: &mut Answer)
        ensures goes { Goes (F.reads files.now) self.old.launched request.now answer.old answer.new self.new.launched }
        ensures early { self.old.launched ≡ None → opens request.now.kind ≡ false
            → IsRefusal answer.new.outcome × (answer.new.notes ≡ answer.old.notes) × (self.new ≡ self.old) }
        ensures first { Early (F.reads files.now) self.old request.now answer.old answer.new self.new.launched }
        ensures answers { self.old.launched ≡ None
            → AnswersEarly self.old.client request.now.kind (view request.now.arguments) answer.old answer.new }
        ensures client { self.new.client ≡ self.old.client }
        ensures excepts { self.new.excepts ≡ excepts_behind self.old.launched self.old.client request.now.kind
            (view request.now.arguments) self.old.excepts }
    {
        let alloc = self.alloc;
        match &mut self.launched {
            Some(launched) => ask_of(alloc, files, launched, request, answer),
            None => self.serve_early(files, request, answer),
        }
    }

    /// Answers another request where nothing is launched.
    fn serve_early<F: Sources>(&mut self, files: &F, request: &Request, answer: &mut Answer)
        requires { self.old.launched ≡ None }
        ensures early { opens request.now.kind ≡ false
            → IsRefusal answer.new.outcome × (answer.new.notes ≡ answer.old.notes) × (self.new ≡ self.old) }
        ensures first { EarlyBy request.now.kind (F.reads files.now) self.old.client self.old.excepts
            (view request.now.arguments) answer.old answer.new self.new.launched }
        ensures answers { AnswersEarly self.old.client request.now.kind (view request.now.arguments) answer.old
            answer.new }
        ensures client { self.new.client ≡ self.old.client }
        ensures excepts { self.new.excepts
            ≡ excepts_early self.old.client request.now.kind (view request.now.arguments) self.old.excepts }
    {
        match self.client {
            Some(counting) => self.serve_known(files, counting, request, answer),
            None => refuse_unknown(request.kind, answer),
        }
    }

    /// Answers another request of a client that has said how it counts, where nothing is launched.
    fn serve_known<F: Sources>(
        &mut self,
        files: &F,
        counting: Counting,
        request: &Request,
        answer: &mut Answer,
    )
        requires { self.old.launched ≡ None }
        ensures early { opens request.now.kind ≡ false
            → IsRefusal answer.new.outcome × (answer.new.notes ≡ answer.old.notes) × (self.new ≡ self.old) }
        ensures first { EarlyBy request.now.kind (F.reads files.now) (Some counting) self.old.excepts
            (view request.now.arguments) answer.old answer.new self.new.launched }
        ensures answers { AnswersKnown request.now.kind (view request.now.arguments) answer.old answer.new }
        ensures client { self.new.client ≡ self.old.client }
        ensures excepts { self.new.excepts
            ≡ excepts_by request.now.kind (view request.now.arguments) self.old.excepts }
    {
        let alloc = self.alloc;
        let excepts = self.excepts;
        match request.kind {
            Kind::Launch => {
                self.launched = launch(alloc, files, counting, excepts, request, answer);
            }
            Kind::SetExceptionBreakpoints => {
                set_filters(alloc, &mut self.excepts, request, answer);
            }
            _ => tell_early(alloc, request, answer),
        }
    }
}

/// Refuses a request of a client that is not known, but that to end.
fn refuse_unknown(kind: Kind, answer: &mut Answer)
    ensures refused { (kind ≡ Asks.Disconnect → ⊥) → IsRefusal answer.new.outcome }
    ensures quiet { answer.new.notes ≡ answer.old.notes }
{
    match kind {
        Kind::Disconnect => answer.did(),
        _ => answer.refuse(102, "`initialize` comes first"),
    }
}

/// Whether a client names files by paths.
fn names_paths(request: &Request) -> bool
    ensures { result ≡ names_paths (view request.now.arguments) }
{
    is_path(request.text("pathFormat"))
}

/// Whether files are named by paths, as they are where it is not said how.
fn is_path(format: Option<&str>) -> bool
    ensures { result ≡ is_path (option_map (λ s. s.now) format.entry) }
{
    match format {
        Some(word) => word.as_bytes() == b"path".as_slice(),
        None => true,
    }
}

/// How a client counts.
fn counting_of(request: &Request) -> Counting
    ensures { result ≡ counting_of (view request.now.arguments) }
{
    Counting {
        lines: base(request.flag("linesStartAt1", true)),
        columns: base(request.flag("columnsStartAt1", true)),
    }
}

/// Answers `launch` where nothing is launched: what it launches, if something.
fn launch<F: Sources>(
    alloc: Global,
    files: &F,
    counting: Counting,
    excepts: bool,
    request: &Request,
    answer: &mut Answer,
) -> Option<Launched>
    ensures { Launches (F.reads files.now) counting excepts (view request.now.arguments) answer.old answer.new result }
{
    match start(alloc, files, counting, request.arguments(), answer) {
        Some(found) => Some(keep(found, excepts, answer)),
        None => None,
    }
}

/// Tells what was launched. Breakpoints can be judged only now, so `initialized` is told.
fn keep(mut found: Launched, excepts: bool, answer: &mut Answer) -> Launched
    ensures found { result ≡ excepting excepts found }
    ensures done { IsDone answer.new.outcome }
    ensures tells { EndsWith answer.new Tells.Initialized }
    ensures behind { TellsAll answer.old (Tells.Initialized ∷ []) answer.new }
{
    found.program.excepts = excepts;
    answer.outcome = Outcome::Done(None);
    answer.tell(Told::Initialized);
    found
}

/// Answers `setExceptionBreakpoints` before something is launched, and tells no event.
fn set_filters(alloc: Global, excepts: &mut bool, request: &Request, answer: &mut Answer)
    ensures excepts { excepts.new ≡ unwrap_or (filters_refused (view request.now.arguments)) excepts.old }
    ensures quiet { answer.new.notes ≡ answer.old.notes }
    ensures answers { AnswersFilters (filters_refused (view request.now.arguments)) answer.old answer.new }
{
    let notes = mem::replace(&mut answer.notes, Vec::new(alloc));
    let asked = asks_for_refusals(request, answer);
    *excepts = asked.unwrap_or(*excepts);
    answer.notes = notes;
}

/// Answers what is asked of a program that is launched.
fn ask_of<F: Sources>(
    alloc: Global,
    files: &F,
    launched: &mut Launched,
    request: &Request,
    answer: &mut Answer,
)
    ensures { ((request.now.kind ≡ Asks.Restart)
        × Restarts (F.reads files.now) launched.old request.now answer.old answer.new launched.new)
        ⊎ ((request.now.kind ≡ Asks.Restart → ⊥)
        × LaunchedGoes launched.old request.now answer.old answer.new launched.new
        × (IsSeen launched.old → IsSeen launched.new)) }
{
    match request.kind {
        Kind::Restart => restart(alloc, files, launched, request, answer),
        _ => perform(alloc, launched, request, answer),
    }
}

/// Answers before something is launched what needs nothing of a session, and tells no event.
fn tell_early(alloc: Global, request: &Request, answer: &mut Answer)
    ensures refused { opens request.now.kind ≡ false → IsRefusal answer.new.outcome }
    ensures quiet { answer.new.notes ≡ answer.old.notes }
    ensures answers { (request.now.kind ≡ Asks.SetExceptionBreakpoints → ⊥)
        → AnswersKnown request.now.kind (view request.now.arguments) answer.old answer.new }
{
    let notes = mem::replace(&mut answer.notes, Vec::new(alloc));
    tell_none(alloc, request, answer);
    answer.notes = notes;
}

/// Answers where nothing is launched what needs nothing of a session.
fn tell_none(alloc: Global, request: &Request, answer: &mut Answer)
    ensures refused { opens request.now.kind ≡ false → IsRefusal answer.new.outcome }
    ensures answers { (request.now.kind ≡ Asks.SetExceptionBreakpoints → ⊥)
        → AnswersKnown request.now.kind (view request.now.arguments) answer.old answer.new }
{
    match request.kind {
        Kind::Disconnect => answer.did(),
        Kind::Threads => {
            let mut body = Members::new(alloc);
            body.list("threads", Listed::new(alloc));
            answer.body(body);
        }
        Kind::SetBreakpoints => set_before(alloc, request, answer),
        Kind::SetDataBreakpoints => set_data_before(alloc, request, answer),
        Kind::Attach => attach(answer),
        Kind::Other => unknown(answer),
        _ => answer.refuse(103, "nothing is launched yet"),
    }
}

/// Refuses `attach`.
pub(crate) fn attach(answer: &mut Answer)
    ensures refused { IsRefusal answer.new.outcome }
    ensures number { RefusedAs 113 answer.new.outcome }
{
    answer.refuse(
        113,
        "there is nothing to attach to: `launch` starts the debugger on a source",
    );
}

/// Refuses a request that is not known.
pub(crate) fn unknown(answer: &mut Answer)
    ensures refused { IsRefusal answer.new.outcome }
    ensures number { RefusedAs 101 answer.new.outcome }
{
    answer.refuse(101, "balsadbg does not know this request");
}

/// Whether a request of this kind ends the session.
fn ends_session(kind: Kind) -> bool
    ensures { result ≡ ends kind }
{
    matches!(kind, Kind::Disconnect)
}

/// What is to be added to numbers of the client so that they count from 1.
fn base(starts_at_one: bool) -> u64
    ensures { result ≡ base starts_at_one }
{
    if starts_at_one { 0 } else { 1 }
}

/// What there is, in the words of the protocol.
fn capabilities(alloc: Global) -> Members {
    let mut body = Members::new(alloc);
    for name in &SUPPORTED {
        body.flag(name, true);
    }
    let mut filter = Members::new(alloc);
    filter.text("filter", "refused");
    filter.text("label", "Steps that are refused");
    filter.flag("default", true);
    let mut filters = Listed::new(alloc);
    filters.push(filter);
    body.list("exceptionBreakpointFilters", filters);
    body
}

/// The capabilities that are there.
static SUPPORTED: [&str; 12] = [
    "supportsConfigurationDoneRequest",
    "supportsStepBack",
    "supportsDataBreakpoints",
    "supportsBreakpointLocationsRequest",
    "supportsEvaluateForHovers",
    "supportsRestartRequest",
    "supportsTerminateRequest",
    "supportsExceptionInfoRequest",
    "supportsStepInTargetsRequest",
    "supportsCompletionsRequest",
    "supportsDelayedStackTraceLoading",
    "supportsSingleThreadExecutionRequests",
];
