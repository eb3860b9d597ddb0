// What processes offer, seen by a look at the place where each is at work. Nothing is listed.
ghost use Rattle.std.specs.Prelude.{◌≡◌, ℕ, List, Option, map, true, None};
ghost use Rattle.process_tree.specs.Code as model_code;
ghost use Rattle.process_tree.specs.Proc as model;
ghost use Rattle.process_tree.specs.Proc.{started, all_started};
ghost use Rattle.process_tree.specs.Remaining.{Received};
ghost use Rattle.process_tree.specs.Translation.{row_of};
ghost use Rattle.process_tree.specs.View.{await_view, begun_of, code_view, decide_view, once_view, opened_of, phase_view, proc_view, repeat_view, row_view, sender_view, turn_of};
ghost use Rattle.process_tree.specs.internal.Parts.{gate_view, tested_view, turns_view};
ghost use Rattle.system.specs.Expression as model_expression;
ghost use Rattle.value.specs.Word.{Word};
ghost use Rattle.local_actions.specs.internal.Listed.{listed_sequence};
ghost use Rattle.idle_branches.specs.Idle.{given_on};
ghost use Rattle.idle_branches.specs.internal.Sights.{AreSeen, IsSeen, Sees};
ghost use Rattle.local_actions.specs.declared.action.ActionKind as any;

use local_actions::{first_at_work, is_over, starts_over};
use process_tree::{Await, Code, Gate, Once, Phase, Proc, Row, Sender, Tested, Turns};

/// What something offers, as far as a look at it tells.
#[derive(Clone, Copy)]
pub(crate) enum Sight {
    /// nothing
    Nothing,
    /// a send on this channel, or a wait for the close on it, and nothing else
    Gives(u32),
    /// on this channel a receive, the open of an arm or its close, and nothing else
    Takes(u32),
    /// what may act, and is at the other side of no channel
    Acts,
    /// a handshake without data on this channel, which may act and is at its other side too
    Syncs(u32),
    /// perhaps something else
    Unknown,
}

impl Sight {
    /// Whether none of what is seen is at the other side of the channel.
    pub(crate) fn gives_none_on(self, channel: u32) -> bool
        ensures { result ≡ true → (a : any.ActionKind) → IsSeen self a → given_on a ≡ Some channel → ⊥ }
    {
        match self {
            Sight::Nothing | Sight::Takes(_) | Sight::Acts => true,
            Sight::Gives(given) => given != channel,
            Sight::Syncs(given) => given != channel,
            Sight::Unknown => false,
        }
    }
}

/// What the process offers.
#[cycle(sight_of)]
pub(crate) fn sight_of(process: &Proc) -> Sight
    ensures { Sees result (proc_view process.now) }
{
    match process {
        Proc::Idle | Proc::Stopped => Sight::Nothing,
        Proc::Once(once, made) => sight_of_once(once.get(), *made),
        Proc::Sender(sender, phase) => sight_of_sender(sender.get(), *phase),
        Proc::Loop(_, turns) => sight_of_loop(turns),
        Proc::Test(_, tested) => sight_of_test(tested),
        Proc::Arms(waiting, gate) => sight_of_arms(gate, waiting.get()),
        Proc::Sequence(row, begun) => sight_of_sequence(begun.as_slice(), row.get()),
        Proc::Parallel(_) => Sight::Unknown,
        Proc::Drained(channel, _) => Sight::Takes(*channel),
    }
}

/// What is offered by a command that makes one move, and has or has not.
fn sight_of_once(once: &Once, made: bool) -> Sight
    ensures { Sees result (model.once (once_view once.now) made) }
{
    if made {
        return Sight::Nothing;
    }
    match once {
        Once::Assign(_, _, _) => Sight::Acts,
        Once::Receive(channel, _) => Sight::Takes(*channel),
    }
}

/// What is offered by a send or sync that is so far.
fn sight_of_sender(sender: &Sender, phase: Phase) -> Sight
    ensures { Sees result (model.sender (sender_view sender.now) (phase_view phase)) }
{
    match phase {
        Phase::Waiting => sight_of_waiting(sender),
        Phase::Holding => Sight::Gives(channel_of(sender)),
        Phase::Past => Sight::Nothing,
    }
}

/// What is offered by a send or sync that waits for its partner.
fn sight_of_waiting(sender: &Sender) -> Sight
    ensures { Sees result (model.sender (sender_view sender.now) model.waiting) }
{
    match sender {
        Sender::Send(channel, _, _) => Sight::Gives(*channel),
        Sender::Sync(channel) => Sight::Syncs(*channel),
    }
}

/// The channel of a send or sync.
fn channel_of(sender: &Sender) -> u32
    ensures { Sees (Sight.Gives result) (model.sender (sender_view sender.now) model.holding) }
{
    match sender {
        Sender::Send(channel, _, _) | Sender::Sync(channel) => *channel,
    }
}

/// What a loop offers.
#[cycle(sight_of)]
fn sight_of_loop(turns: &Turns) -> Sight
    ensures { (g : Option model_expression.Expression) (c : model_code.Code) → Sees result (turns_view turns.now g c) }
{
    match turns {
        Turns::Fresh => Sight::Acts,
        Turns::EndedAtOnce => Sight::Nothing,
        Turns::Turn(_, over, body) => sight_of_turn(body, *over),
    }
}

/// What a loop offers in a turn, whether it ended there.
#[cycle(sight_of)]
fn sight_of_turn(body: &Proc, over: bool) -> Sight
    ensures { (g : Option model_expression.Expression) (c : model_code.Code) (n : ℕ) →
        Sees result (turn_of over g c n (proc_view body.now)) }
{
    if over {
        return Sight::Nothing;
    }
    if is_over(body) {
        return Sight::Acts;
    }
    sight_of(body)
}

/// What an `if` or `case` offers.
#[cycle(sight_of)]
fn sight_of_test(tested: &Tested) -> Sight
    ensures { (d : model_expression.Decision) (cs : model_code.Codes) → Sees result (tested_view tested.now d cs) }
{
    match tested {
        Tested::Untested => Sight::Acts,
        Tested::Skipped => Sight::Nothing,
        Tested::Took(_, body) => sight_of(body),
    }
}

/// What arms offer that wait on their channels.
#[cycle(sight_of)]
fn sight_of_arms(gate: &Gate, waiting: &Await) -> Sight
    ensures { Sees result (gate_view gate.now (await_view waiting.now).0 (await_view waiting.now).1) }
{
    match gate {
        Gate::Unopened => sight_of_channels(waiting.channels.as_slice()),
        Gate::Opened(channel, _, over, body) => sight_of_opened(body, *channel, *over),
    }
}

/// What arms offer on these channels of which none has opened.
fn sight_of_channels(channels: &[u32]) -> Sight
    ensures { (cs : model_code.Codes) → Sees result (model.unopened channels.now cs) }
{
    if let [channel] = channels {
        return Sight::Takes(*channel);
    }
    Sight::Acts
}

/// What an arm offers that opened on this channel, whether it was closed.
#[cycle(sight_of)]
fn sight_of_opened(body: &Proc, channel: u32, over: bool) -> Sight
    ensures { (ds : List ℕ) (cs : model_code.Codes) (v : Option Word) →
        Sees result (opened_of over ds cs channel v (proc_view body.now)) }
{
    if over {
        return Sight::Nothing;
    }
    if is_over(body) {
        return Sight::Takes(channel);
    }
    sight_of(body)
}

/// What a sequence offers: what its first child does that is not finished, from the last on that has made a move.
#[cycle(sight_of)]
fn sight_of_sequence(begun: &[Proc], row: &Row) -> Sight
    ensures { Sees result (model.sequence (begun_of (map proc_view begun.now) (row_view row.now))) }
{
    let end = begun.len().min(row.codes.len());
    let mut number = first_at_work(begun, row);
    'children: while number < end {
        let child = &begun[number];
        if !is_over(child) {
            return sight_of(child);
        }
        number += 1;
    }
    sight_of_row(row.codes.as_slice(), number)
}

/// What commands offer one after another that have made no move, from the one of this number on.
fn sight_of_row(codes: &[Code], from: usize) -> Sight
    ensures { (s : model_expression.Store) (env : Received) →
        AreSeen result (listed_sequence s env from 0 (all_started (row_of (map code_view codes.now)))).actions }
{
    let mut number = from;
    'children: while number < codes.len() {
        let code = &codes[number];
        if !starts_over(code) {
            return sight_of_code(code);
        }
        number += 1;
    }
    Sight::Nothing
}

/// What a command offers that has made no move.
fn sight_of_code(code: &Code) -> Sight
    ensures { Sees result (started (code_view code.now)) }
{
    match code {
        Code::Continue | Code::Halt => Sight::Nothing,
        Code::Once(once) => sight_of_once(once.get(), false),
        Code::Sender(sender) => sight_of_waiting(sender.get()),
        Code::Await(waiting) => sight_of_channels(waiting.get().channels.as_slice()),
        Code::Drain(channel) => Sight::Takes(*channel),
        Code::Repeat(_) | Code::Decide(_) => Sight::Acts,
        _ => Sight::Unknown,
    }
}
