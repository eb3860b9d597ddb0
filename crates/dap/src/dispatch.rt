// What is asked of a program that is launched.
ghost use Rattle.std.specs.Prelude.{◌≡◌, ◌&&◌, ◌||◌, true, false, not, None};
ghost use Rattle.serde_json.specs.View.{view};
ghost use Rattle.dap_messages.specs.Notes.{Adds, IsRefusal};
ghost use Rattle.dap_messages.specs.declared.told.Told.{Told as Tells};
ghost use Rattle.dap_requests.specs.Locations.{Locates};
ghost use Rattle.dap_requests.specs.Sets.{AnswersFilters, SetsExcepts, SetsWatched, filters_refused};
ghost use Rattle.dap_server.specs.Kinds.{moves};
ghost use Rattle.dap_views.specs.Kept.{unseen};
ghost use Rattle.dap_views.specs.Seen.{Sees};
ghost use Rattle.dap.specs.Goes.{AnswersBy, IsSeen, LaunchedGoes, ShowsBy, TellsBy};
ghost use Rattle.dap.specs.Kinds.{asks, begins, is_active, may_move, types};
ghost use Rattle.dap.specs.Sets.{Sets};

use crate::begin::begin_once;
use crate::face::{attach, unknown};
use crate::launch::Launched;
use crate::moves::make_move;
use dap_messages::{Answer, Effect, Kind, Members, Request, Stop, Told};
use dap_moves::Machine;
use dap_requests::{
    completions, data_info, evaluate, is_typed, locations, set_data, set_exceptions, set_lines,
    targets,
};
use dap_server::is_move;
use dap_threads::{scopes, stack_trace, threads, variables};
use dap_views::{Memo, Program, Sight, sight_of};
use std::alloc::Global;
use std::mem;

/// Answers a request, but for those that name files.
pub(crate) fn perform(
    alloc: Global,
    launched: &mut Launched,
    request: &Request,
    answer: &mut Answer,
)
    ensures goes { LaunchedGoes launched.old request.now answer.old answer.new launched.new }
    ensures sees { IsSeen launched.old → IsSeen launched.new }
{
    keep_sight(launched.desk.machine(), &mut launched.program.sight);
    act(alloc, launched, request, answer);
    let moved = may_move(request);
    renew_sight(launched.desk.machine(), &mut launched.program.sight, moved);
    forget_refusal(&mut launched.memo, answer.effect);
}

/// Whether the request may move something.
fn may_move(request: &Request) -> bool
    ensures { result ≡ may_move request.now }
{
    let active = is_active(request);
    let first = is_first(request.kind);
    active || first
}

/// Looks at what the state offers anew where something may have moved.
fn renew_sight(machine: &Machine, sight: &mut Option<Sight>, moved: bool)
    ensures { (moved ≡ false → Sees machine.now sight.old) → Sees machine.now sight.new }
{
    if moved {
        look_anew(machine, sight);
    } else {
        keep_sight(machine, sight);
    }
}

/// Looks at what the state offers, where that is not known.
fn keep_sight(machine: &Machine, sight: &mut Option<Sight>)
    ensures { Sees machine.now sight.old → Sees machine.now sight.new }
{
    if sight.is_none() {
        look_anew(machine, sight);
    }
}

/// Looks at what the state offers. Without memory it is not known.
fn look_anew(machine: &Machine, sight: &mut Option<Sight>)
    ensures { Sees machine.now sight.new }
{
    *sight = match sight_of(machine) {
        Ok(found) => Some(found),
        Err(_) => None,
    };
}

/// Forgets the refusal of before where the client was told of another stop.
fn forget_refusal(memo: &mut Memo, effect: Effect)
    ensures { memo.new.seen ≡ memo.old.seen }
{
    if is_other_stop(effect) {
        memo.refused = None;
    }
}

/// Whether a stop is told, and no refusal.
fn is_other_stop(effect: Effect) -> bool {
    match effect {
        Effect::Due(Told::Stopped(Stop::Refused(_, _))) => false,
        Effect::Due(Told::Stopped(_)) => true,
        _ => false,
    }
}

/// Whether another request of this kind may change the desk.
fn is_asked(kind: Kind) -> bool
    ensures { result ≡ asks kind }
{
    matches!(kind, Kind::ConfigurationDone | Kind::Evaluate)
}

/// Answers a request, where it is known what the state offers. Nothing moves where the client was told that it is over.
fn act(alloc: Global, launched: &mut Launched, request: &Request, answer: &mut Answer)
    ensures { LaunchedGoes launched.old request.now answer.old answer.new launched.new }
{
    if is_held(launched.program.ended, request) {
        refuse(answer, "it is over: `restart` begins again");
    } else {
        act_on(alloc, launched, request, answer);
    }
}

/// The same where it is not over. Nor does anything move before the run has begun.
fn act_on(alloc: Global, launched: &mut Launched, request: &Request, answer: &mut Answer)
    requires { launched.old.program.ended ≡ true
        → (is_active request.now ≡ false) × (begins request.now.kind ≡ false) }
    ensures { LaunchedGoes launched.old request.now answer.old answer.new launched.new }
{
    if is_early(launched.program.begun, request) {
        refuse(answer, "`configurationDone` comes first");
    } else {
        change(alloc, launched, request, answer);
    }
}

/// Whether a request is held back where it may be over: one that would move something.
fn is_held(over: bool, request: &Request) -> bool
    ensures { result ≡ (over && (is_active request.now || begins request.now.kind)) }
{
    let active = is_active(request);
    let first = is_first(request.kind);
    over && (active || first)
}

/// Whether a request is held back since the run may not have begun.
fn is_early(begun: bool, request: &Request) -> bool
    ensures { result ≡ (not begun && is_active request.now) }
{
    let active = is_active(request);
    !begun && active
}

/// Whether a request asks a thread to move, or is a line that is typed.
fn is_active(request: &Request) -> bool
    ensures { result ≡ is_active request.now }
{
    let moving = is_move(request.kind);
    let line = is_line(request.kind, is_typed(request));
    moving || line
}

/// Whether a request of this kind is a line, where one is typed.
fn is_line(kind: Kind, typed: bool) -> bool
    ensures { result ≡ types kind typed }
{
    match kind {
        Kind::Evaluate => typed,
        _ => false,
    }
}

/// Whether a request of this kind begins the run.
fn is_first(kind: Kind) -> bool
    ensures { result ≡ begins kind }
{
    matches!(kind, Kind::ConfigurationDone)
}

/// Refuses what comes at the wrong time, in these words.
fn refuse(answer: &mut Answer, words: &str)
    ensures { IsRefusal answer.new.outcome × (answer.new.notes ≡ answer.old.notes) }
{
    answer.refuse(103, words);
}

/// Answers a request, where it is known what the state offers and nothing holds it back.
fn change(alloc: Global, launched: &mut Launched, request: &Request, answer: &mut Answer)
    requires over { launched.old.program.ended ≡ true
        → (is_active request.now ≡ false) × (begins request.now.kind ≡ false) }
    requires waits { launched.old.program.begun ≡ false → is_active request.now ≡ false }
    ensures { LaunchedGoes launched.old request.now answer.old answer.new launched.new }
{
    if is_move(request.kind) {
        make_move(
            alloc,
            &mut launched.desk,
            &launched.program,
            &mut launched.memo,
            request,
            answer,
        );
    } else if is_asked(request.kind) {
        ask(alloc, launched, request, answer);
    } else {
        look(
            alloc,
            launched.desk.machine(),
            &mut launched.program,
            &launched.memo,
            request,
            answer,
        );
    }
}

/// Answers the first request to run, or a line that is typed.
fn ask(alloc: Global, launched: &mut Launched, request: &Request, answer: &mut Answer)
    requires over { launched.old.program.ended ≡ true
        → (is_active request.now ≡ false) × (begins request.now.kind ≡ false) }
    requires waits { launched.old.program.begun ≡ false → is_active request.now ≡ false }
    requires asks { asks request.now.kind ≡ true }
    ensures { LaunchedGoes launched.old request.now answer.old answer.new launched.new }
{
    match request.kind {
        Kind::ConfigurationDone => begin_once(alloc, launched, answer),
        _ => evaluate(
            alloc,
            &mut launched.desk,
            &launched.program,
            &mut launched.memo,
            request,
            answer,
        ),
    }
}

/// Answers a request that only reads the desk.
fn look(
    alloc: Global,
    machine: &Machine,
    program: &mut Program,
    memo: &Memo,
    request: &Request,
    answer: &mut Answer,
)
    requires { asks request.now.kind ≡ false }
    ensures sets { Sets request.now machine.now.checked.main program.old answer.new program.new }
    ensures tells { TellsBy request.now.kind (view request.now.arguments) program.old answer.old program.new
        answer.new }
    ensures shows { ShowsBy request.now.kind machine.now program.old.index program.old.sight
        (view request.now.arguments) answer.new }
    ensures answers { AnswersBy request.now.kind answer.old.outcome answer.new.outcome }
{
    match request.kind {
        Kind::SetBreakpoints => set_lines(alloc, machine, program, request, answer),
        Kind::SetDataBreakpoints => watch(alloc, program, request, answer),
        Kind::SetExceptionBreakpoints => filter(alloc, program, request, answer),
        Kind::Terminate => terminate(program, answer),
        Kind::BreakpointLocations => locate(alloc, machine, program, request, answer),
        _ => show(alloc, machine, program, memo, request, answer),
    }
}

/// Answers `setDataBreakpoints`, and tells no event.
fn watch(alloc: Global, program: &mut Program, request: &Request, answer: &mut Answer)
    ensures sets { SetsWatched (view request.now.arguments) program.old answer.new program.new }
    ensures quiet { answer.new.notes ≡ answer.old.notes }
{
    let notes = mem::replace(&mut answer.notes, Vec::new(alloc));
    set_data(alloc, program, request, answer);
    answer.notes = notes;
}

/// Answers `setExceptionBreakpoints`, and tells no event.
fn filter(alloc: Global, program: &mut Program, request: &Request, answer: &mut Answer)
    ensures sets { SetsExcepts (view request.now.arguments) program.old program.new }
    ensures quiet { answer.new.notes ≡ answer.old.notes }
    ensures answers { AnswersFilters (filters_refused (view request.now.arguments)) answer.old answer.new }
{
    let notes = mem::replace(&mut answer.notes, Vec::new(alloc));
    set_exceptions(program, request, answer);
    answer.notes = notes;
}

/// Answers `breakpointLocations`, and tells no event.
fn locate(
    alloc: Global,
    machine: &Machine,
    program: &Program,
    request: &Request,
    answer: &mut Answer,
)
    ensures located { Locates machine.now.checked.main (view request.now.arguments) program.now answer.new }
    ensures quiet { answer.new.notes ≡ answer.old.notes }
{
    let notes = mem::replace(&mut answer.notes, Vec::new(alloc));
    locations(alloc, machine, program, request, answer);
    answer.notes = notes;
}

/// Answers a request that shows how the desk stands, and tells no event.
fn show(
    alloc: Global,
    machine: &Machine,
    program: &Program,
    memo: &Memo,
    request: &Request,
    answer: &mut Answer,
)
    ensures quiet { answer.new.notes ≡ answer.old.notes }
    ensures answers { AnswersBy request.now.kind answer.old.outcome answer.new.outcome }
    ensures shows { ShowsBy request.now.kind machine.now program.now.index program.now.sight
        (view request.now.arguments) answer.new }
{
    let notes = mem::replace(&mut answer.notes, Vec::new(alloc));
    tell(alloc, machine, program, memo, request, answer);
    answer.notes = notes;
}

/// Tells how the desk stands.
fn tell(
    alloc: Global,
    machine: &Machine,
    program: &Program,
    memo: &Memo,
    request: &Request,
    answer: &mut Answer,
)
    ensures answers { AnswersBy request.now.kind answer.old.outcome answer.new.outcome }
    ensures shows { ShowsBy request.now.kind machine.now program.now.index program.now.sight
        (view request.now.arguments) answer.new }
{
    match request.kind {
        Kind::Threads => threads(alloc, machine, program, answer),
        Kind::StackTrace => stack_trace(alloc, machine, program, request, answer),
        Kind::Scopes => scopes(alloc, machine, program, request, answer),
        Kind::Variables => variables(alloc, machine, program, request, answer),
        Kind::StepInTargets => targets(alloc, machine, program, request, answer),
        Kind::DataBreakpointInfo => data_info(alloc, machine, program, request, answer),
        _ => tell_other(alloc, program, memo, request, answer),
    }
}

/// Answers `terminate`: nothing moves any more, unless a `restart` begins again.
fn terminate(program: &mut Program, answer: &mut Answer)
    ensures over { program.new ≡ record program.old { ended = true } }
    ensures tells { Adds answer.old Tells.Terminated None answer.new }
{
    program.ended = true;
    answer.tell(Told::Terminated);
}

/// Answers a request that has nothing to do with the machine.
fn tell_other(alloc: Global, program: &Program, memo: &Memo, request: &Request, answer: &mut Answer)
    ensures { AnswersBy request.now.kind answer.old.outcome answer.new.outcome }
{
    match request.kind {
        Kind::ExceptionInfo => exception_info(alloc, memo, answer),
        Kind::Completions => completions(alloc, program, request, answer),
        Kind::Attach => attach(answer),
        Kind::Launch => answer.refuse(107, "a program is launched already"),
        Kind::Disconnect => answer.did(),
        _ => unknown(answer),
    }
}

/// Answers `exceptionInfo`: the refusal at which it stands.
fn exception_info(alloc: Global, memo: &Memo, answer: &mut Answer) {
    match &memo.refused {
        Some(refused) => {
            let mut body = Members::new(alloc);
            body.text("exceptionId", refused.line.as_str());
            body.text("description", refused.words.as_str());
            body.text("breakMode", "always");
            answer.body(body);
        }
        None => answer.refuse(111, "nothing was refused"),
    }
}
