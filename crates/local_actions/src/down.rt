// The walk down along a place, to what offers actions there.
ghost use Rattle.std.specs.Prelude.{◌≡◌, ◌<◌, ◌+◌, ◌*◌, ℕ, [], ◌∷◌, List, length, map};
ghost use Rattle.address.specs.declared.Entry.TheVariants.{Ordered as IsOrdered};
ghost use Rattle.system.specs.Expression as model_expression;
ghost use Rattle.process_tree.specs.Code as model_code;
ghost use Rattle.process_tree.specs.Proc as model;
ghost use Rattle.process_tree.specs.Proc.{started, all_started};
ghost use Rattle.process_tree.specs.Remaining.{Received};
ghost use Rattle.process_tree.specs.Translation.{row_of};
ghost use Rattle.process_tree.specs.View.{code_view, sender_view, phase_view, proc_view, procs_of, begun_of, row_view, repeat_view, decide_view, await_view, turn_of, opened_of};
ghost use Rattle.process_tree.specs.internal.Parts.{turns_view, tested_view, gate_view};
ghost use Rattle.local_actions.specs.Walk.{action_at, below};
ghost use Rattle.local_actions.specs.internal.At.{Leads, LeadsOn, at_site, only_kind, under};
ghost use Rattle.local_actions.specs.internal.Listed.{open_actions};
ghost use Rattle.local_actions.specs.declared.site.Only.TheVariants.{Again};

use crate::around::OnWay;
use crate::over::{first_start_over, is_over, is_reached};
use crate::place::{below_body, below_child, branch_step, is_act, is_act_behind, ordered_step};
use crate::site::{Only, Site};
use address::Entry;
use process_tree::{Await, Code, Decide, Gate, Phase, Proc, Repeat, Row, Sender, Tested, Turns};
use value::Value;

/// Goes down along the place from the process, and into no branch beside it but to see whether what comes first is
/// finished. What was received on the way may be lost.
#[cycle(down)]
pub(crate) fn down<'t>(proc: &'t Proc, place: &[Entry], way: &mut OnWay) -> Site<'t>
    ensures { LeadsOn (proc_view proc.now) place.now way.old way.new result }
{
    if place.is_empty() {
        return Site::Begun(proc);
    }
    match proc {
        Proc::Idle => Site::Nothing,
        Proc::Stopped => Site::Nothing,
        Proc::Once(_, _) => Site::Nothing,
        Proc::Sender(sender, phase) => phase_down(sender.get(), *phase, place),
        Proc::Loop(repeat, turns) => loop_down(turns, repeat.get(), place, way),
        Proc::Test(decide, tested) => test_down(tested, decide.get(), place, way),
        Proc::Arms(waiting, gate) => arms_down(gate, waiting.get(), place, way),
        Proc::Sequence(row, begun) => sequence_down(begun.as_slice(), row.get(), place, way),
        Proc::Parallel(procs) => parallel_down(procs.as_slice(), place, way),
        Proc::Drained(channel, count) => act_down(place, *count, Only::Drain(*channel)),
    }
}

/// To what offers an action alone at this act, if that is the place.
fn act_down<'t>(place: &[Entry], act: u64, only: Only<'t>) -> Site<'t>
    requires { 0 < length place.now }
    ensures { (s : model_expression.Store) (env : Received) →
        under place.now (action_at (IsOrdered act ∷ []) (only_kind s env only.entry) ∷ [])
        ≡ below place.now (at_site s env result) }
{
    if is_act(place, act) {
        return Site::Only(only);
    }
    Site::Nothing
}

/// To a send or sync, unless it is past.
fn phase_down<'t>(sender: &'t Sender, phase: Phase, place: &[Entry]) -> Site<'t>
    requires { 0 < length place.now }
    ensures { (env : Received) →
        Leads (model.sender (sender_view sender.now) (phase_view phase)) place.now env env result }
{
    match phase {
        Phase::Waiting => act_down(place, 0, Only::Waiting(sender)),
        Phase::Holding => act_down(place, 1, Only::Holding(sender)),
        Phase::Past => Site::Nothing,
    }
}

/// Goes down in a loop.
#[cycle(down)]
fn loop_down<'t>(turns: &'t Turns, repeat: &'t Repeat, place: &[Entry], way: &mut OnWay) -> Site<'t>
    requires { 0 < length place.now }
    ensures { LeadsOn (turns_view turns.now (repeat_view repeat.now).0 (repeat_view repeat.now).1)
        place.now way.old way.new result }
{
    match turns {
        Turns::Fresh => act_down(place, 0, Only::Again(repeat)),
        Turns::EndedAtOnce => Site::Nothing,
        Turns::Turn(turn, over, body) => turn_down(body, *turn, *over, repeat, place, way),
    }
}

/// Goes down in this turn of a loop, or to what the loop offers behind it.
#[cycle(down)]
fn turn_down<'t>(
    body: &'t Proc,
    turn: u64,
    over: bool,
    repeat: &'t Repeat,
    place: &[Entry],
    way: &mut OnWay,
) -> Site<'t>
    requires { 0 < length place.now }
    ensures { LeadsOn (turn_of over (repeat_view repeat.now).0 (repeat_view repeat.now).1 turn (proc_view body.now))
        place.now way.old way.new result }
{
    if over {
        return Site::Nothing;
    }
    if let Some(below) = below_body(place, turn) {
        return down(body, below, way);
    }
    if !is_over(body) {
        return Site::Nothing;
    }
    behind_turn_down(repeat, turn, place)
}

/// To what a loop offers behind this turn, if that is the place.
fn behind_turn_down<'t>(repeat: &'t Repeat, turn: u64, place: &[Entry]) -> Site<'t>
    requires { 0 < length place.now }
    ensures { (s : model_expression.Store) (env : Received) →
        under place.now (action_at (IsOrdered (2 * (turn + 1)) ∷ []) (only_kind s env (Again repeat.entry)) ∷ [])
        ≡ below place.now (at_site s env result) }
{
    if is_act_behind(place, turn) {
        return Site::Only(Only::Again(repeat));
    }
    Site::Nothing
}

/// Goes down in an `if` or `case`.
#[cycle(down)]
fn test_down<'t>(
    tested: &'t Tested,
    decide: &'t Decide,
    place: &[Entry],
    way: &mut OnWay,
) -> Site<'t>
    requires { 0 < length place.now }
    ensures { LeadsOn (tested_view tested.now (decide_view decide.now).0 (decide_view decide.now).1)
        place.now way.old way.new result }
{
    match tested {
        Tested::Untested => act_down(place, 0, Only::Test(decide)),
        Tested::Skipped => Site::Nothing,
        Tested::Took(_, body) => match below_child(place, 1) {
            Some(below) => down(body, below, way),
            None => Site::Nothing,
        },
    }
}

/// Goes down in arms that wait, or in the one that opened.
#[cycle(down)]
fn arms_down<'t>(gate: &'t Gate, waiting: &'t Await, place: &[Entry], way: &mut OnWay) -> Site<'t>
    requires { 0 < length place.now }
    ensures { LeadsOn (gate_view gate.now (await_view waiting.now).0 (await_view waiting.now).1)
        place.now way.old way.new result }
{
    match gate {
        Gate::Unopened => opens_down(waiting, place),
        Gate::Opened(channel, value, over, body) => {
            opened_down(body, *channel, *value, *over, place, way)
        }
    }
}

/// To arms that wait, if the place is that of their opens.
fn opens_down<'t>(waiting: &'t Await, place: &[Entry]) -> Site<'t>
    requires { 0 < length place.now }
    ensures { (s : model_expression.Store) (env : Received) →
        under place.now (open_actions 0 (await_view waiting.now).0) ≡ below place.now (at_site s env result) }
{
    if is_act(place, 0) {
        return Site::Arms(waiting);
    }
    Site::Nothing
}

/// Goes down in an arm that opened on this channel and received this, if anything, or to its close.
#[cycle(down)]
fn opened_down<'t>(
    body: &'t Proc,
    channel: u32,
    value: Option<Value>,
    over: bool,
    place: &[Entry],
    way: &mut OnWay,
) -> Site<'t>
    requires { 0 < length place.now }
    ensures { (ds : List ℕ) (cs : model_code.Codes) →
        LeadsOn (opened_of over ds cs channel value (proc_view body.now)) place.now way.old way.new result }
{
    if over {
        return Site::Nothing;
    }
    if let Some(below) = below_child(place, 1) {
        way.receive(channel, value);
        return down(body, below, way);
    }
    if !is_over(body) {
        return Site::Nothing;
    }
    act_down(place, 2, Only::Close(channel))
}

/// Goes down in a sequence, if its work has come to the child.
#[cycle(down)]
fn sequence_down<'t>(begun: &'t [Proc], row: &'t Row, place: &[Entry], way: &mut OnWay) -> Site<'t>
    requires { 0 < length place.now }
    ensures { LeadsOn (model.sequence (begun_of (map proc_view begun.now) (row_view row.now)))
        place.now way.old way.new result }
{
    let Some((number, below)) = ordered_step(place) else {
        return Site::Nothing;
    };
    let child = number as usize;
    if !is_reached(begun, row, child) {
        return Site::Nothing;
    }
    if child < begun.len().min(row.codes.len()) {
        return down(&begun[child], below, way);
    }
    match row.codes.get(child) {
        Some(code) => fresh_down(code, below),
        None => Site::Nothing,
    }
}

/// Goes down in a branch of a parallel.
#[cycle(down)]
fn parallel_down<'t>(procs: &'t [Proc], place: &[Entry], way: &mut OnWay) -> Site<'t>
    requires { 0 < length place.now }
    ensures { LeadsOn (model.parallel (procs_of (map proc_view procs.now))) place.now way.old way.new result }
{
    let Some((number, below)) = branch_step(place) else {
        return Site::Nothing;
    };
    let branch = number as usize;
    if branch >= procs.len() {
        return Site::Nothing;
    }
    down(&procs[branch], below, way)
}

/// Goes down in a command that has made no move.
#[cycle(fresh_down)]
fn fresh_down<'t>(code: &'t Code, place: &[Entry]) -> Site<'t>
    ensures { (env : Received) → Leads (started (code_view code.now)) place.now env env result }
{
    if place.is_empty() {
        return Site::Fresh(code);
    }
    match code {
        Code::Continue | Code::Halt => Site::Nothing,
        Code::Once(_) => Site::Nothing,
        Code::Sender(sender) => act_down(place, 0, Only::Waiting(sender.get())),
        Code::Repeat(repeat) => act_down(place, 0, Only::Again(repeat.get())),
        Code::Decide(decide) => act_down(place, 0, Only::Test(decide.get())),
        Code::Await(waiting) => opens_down(waiting.get(), place),
        Code::InTurn(row) => fresh_in_turn_down(row.get().codes.as_slice(), place),
        Code::SideBySide(row) => fresh_side_by_side_down(row.get().codes.as_slice(), place),
        Code::Drain(channel) => act_down(place, 0, Only::Drain(*channel)),
    }
}

/// Goes down in commands one after another.
#[cycle(fresh_down)]
fn fresh_in_turn_down<'t>(codes: &'t [Code], place: &[Entry]) -> Site<'t>
    requires { 0 < length place.now }
    ensures { (env : Received) →
        Leads (model.sequence (all_started (row_of (map code_view codes.now)))) place.now env env result }
{
    let Some((number, below)) = ordered_step(place) else {
        return Site::Nothing;
    };
    let child = number as usize;
    if child >= codes.len() {
        return Site::Nothing;
    }
    if !first_start_over(codes, child) {
        return Site::Nothing;
    }
    fresh_down(&codes[child], below)
}

/// Goes down in one of commands side by side.
#[cycle(fresh_down)]
fn fresh_side_by_side_down<'t>(codes: &'t [Code], place: &[Entry]) -> Site<'t>
    requires { 0 < length place.now }
    ensures { (env : Received) →
        Leads (model.parallel (all_started (row_of (map code_view codes.now)))) place.now env env result }
{
    let Some((number, below)) = branch_step(place) else {
        return Site::Nothing;
    };
    let branch = number as usize;
    if branch >= codes.len() {
        return Site::Nothing;
    }
    fresh_down(&codes[branch], below)
}
