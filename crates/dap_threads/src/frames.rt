// The frames of threads.
ghost use Rattle.std.specs.Prelude.{◌≡◌, ◌++◌, ◌+◌, ◌≤◌, ◌<◌, false, true, None, Some, codes, map, slice_get, IfOk, IfSome, MatchOption, OnOk};
ghost use Rattle.serde_json.specs.Data.{array, number, object, unsigned};
ghost use Rattle.serde_json.specs.View.{items_view, members_view, view};
ghost use Rattle.system_places.specs.SystemBranches.{branch_count};
ghost use Rattle.dap_messages.specs.Arguments.{number_named};
ghost use Rattle.dap_messages.specs.Notes.{IsRefusal};
ghost use Rattle.dap_messages.specs.Written.{Has};
ghost use Rattle.dap_views.specs.Handles.{frame_id as model_id};
ghost use Rattle.dap_views.specs.Around.{calls_around};
ghost use Rattle.dap_threads.specs.Frames.{FindsFrame, FindsNamed, Misses, at_call, at_place, call_of, count_of, frame_count, seen_call};
ghost use Rattle.dap_threads.specs.Frames as model;
ghost use Rattle.dap_threads.specs.Stack.{IsStack, ListsFrames, ListsIds, asked_ids, first_in, is_asked, levels_by, levels_in};
ghost use Rattle.dap_threads.specs.Threads.{branch_of, branch_named};

use crate::places::places_in;
use dap_messages::{Answer, Listed, Members, Request};
use dap_views::{
    Index, Program, Rank, Sight, Words, add_action, add_waits, channel_of, frame_id, frame_of,
    line_at,
};
use local_actions::LocalAction;
use machine::Machine;
use std::alloc::{AllocError, Global};
use system_places::branch_count;

/// The most frames that are shown of a thread.
const MOST_FRAMES: u64 = 1_000;

/// A frame: where it stands, and what is seen there.
#[derive(Clone, Copy, Debug, PartialEq, Eq)]
pub(crate) struct Frame {
    /// the index of the action at its place; none for a call around the place that goes on first
    action: Option<usize>,
    /// the index of the instance whose names are seen
    call: usize,
}

/// The branch of the thread that the request names: threads count from 1. It is refused where there is no such thread.
pub fn thread_in(request: &Request, machine: &Machine, answer: &mut Answer) -> Option<u32>
    ensures thread { result
        ≡ branch_named (branch_count machine.now.checked)
        (number_named (codes "threadId") (view request.now.arguments)) }
    ensures outcome { MatchOption result (IsRefusal answer.new.outcome × (answer.new.notes ≡ answer.old.notes))
        (λ _. answer.new ≡ answer.old) }
    ensures counted { IfSome result (λ branch. branch < 4294967295) }
{
    let Some(number) = request.number("threadId") else {
        answer.refuse(104, "`threadId` is missing or no number");
        return None;
    };
    let Some(branch) = branch_of(number, branch_count(machine.checked().system())) else {
        answer.refuse(105, "there is no such thread");
        return None;
    };
    Some(branch)
}

/// The branch of the thread of this number, where there are so many.
fn branch_of(number: u64, count: u32) -> Option<u32>
    ensures branch { result ≡ branch_of count number }
    ensures counted { IfSome result (λ branch. branch < 4294967295) }
{
    if number >= 1 && number <= u64::from(count) {
        Some((number - 1) as u32)
    } else {
        None
    }
}

/// Answers `stackTrace`: the place of the thread that goes on first, the calls around it, and the other places.
pub fn stack_trace(
    alloc: Global,
    machine: &Machine,
    program: &Program,
    request: &Request,
    answer: &mut Answer,
)
    ensures { answer.new.lacks ≡ false
        → ListsFrames machine.now program.now.index program.now.sight (view request.now.arguments) answer.new }
{
    let Some(branch) = thread_in(request, machine, answer) else {
        return;
    };
    match &program.sight {
        Some(sight) => {
            let body = stack(alloc, machine, program, request, sight, branch);
            answer.body(body);
        }
        None => answer.lacks = true,
    }
}

/// The frames that are asked for, and how many there are.
fn stack(
    alloc: Global,
    machine: &Machine,
    program: &Program,
    request: &Request,
    sight: &Sight,
    branch: u32,
) -> Members
    requires { branch < 4294967295 }
    ensures { result.lacks ≡ false
        → IsStack (first_in (view request.now.arguments)) (levels_in (view request.now.arguments)) branch
        (frame_count machine.now program.now.index sight.now branch) (object (members_view result.made.entries)) }
{
    match frames_of(alloc, machine, &program.index, sight, branch) {
        Ok(frames) => {
            let (first, levels) = (first_in(request), levels_in(request));
            let frames = frames.as_slice();
            let list = asked_frames(
                alloc, machine, program, sight, branch, frames, first, levels,
            );
            stack_body(alloc, list, count_of(frames))
        }
        Err(_) => lacking(alloc),
    }
}

/// Members that have no memory.
fn lacking(alloc: Global) -> Members
    ensures { result.lacks ≡ true }
{
    let mut members = Members::new(alloc);
    members.lack();
    members
}

/// These frames, of so many.
fn stack_body(alloc: Global, list: Listed, count: u64) -> Members
    ensures lists { Has result (codes "stackFrames") (array (items_view list.made.items)) }
    ensures total { Has result (codes "totalFrames") (number (unsigned count)) }
    ensures whole { result.lacks ≡ false → list.lacks ≡ false }
{
    let mut body = Members::new(alloc);
    body.list("stackFrames", list);
    body.number("totalFrames", count);
    body
}

/// The index of the first frame that is asked for.
fn first_in(request: &Request) -> u64
    ensures { result ≡ first_in (view request.now.arguments) }
{
    request.number("startFrame").unwrap_or(0)
}

/// How many frames are asked for.
fn levels_in(request: &Request) -> u64
    ensures { result ≡ levels_in (view request.now.arguments) }
{
    levels_by(request.number("levels"))
}

/// The same, where there are so many levels.
fn levels_by(levels: Option<u64>) -> u64
    ensures { result ≡ levels_by levels }
{
    match levels {
        Some(levels) => { if levels == 0 { MOST_FRAMES } else { levels } }
        None => MOST_FRAMES,
    }
}

/// The frames that are asked for, so many at most from the first on.
fn asked_frames(
    alloc: Global,
    machine: &Machine,
    program: &Program,
    sight: &Sight,
    branch: u32,
    frames: &[Frame],
    first: u64,
    levels: u64,
) -> Listed
    requires { branch < 4294967295 }
    ensures { ListsIds result (asked_ids first levels branch (count_of frames.now)) }
{
    let mut list = Listed::new(alloc);
    for index in 0..count_of(frames) {
        if is_asked(first, levels, index) {
            let mut frame = shown(alloc, machine, program, sight, frames, index as usize);
            frame.number("id", id_of(branch, index));
            list.push(frame);
        }
    }
    list
}

/// Whether the frame of this index is asked for.
fn is_asked(first: u64, levels: u64, index: u64) -> bool
    ensures { result ≡ is_asked first levels index }
{
    !(index < first) && index.saturating_sub(first) < levels
}

/// The number of the frame of this index.
fn id_of(branch: u32, index: u64) -> u64
    requires counted { branch < 4294967295 }
    requires few { index < 1000 }
    ensures { result ≡ model_id (branch + 1) index }
{
    frame_id(branch + 1, index as u16)
}

/// The frame of this index: that of a place, or of a call around the first one; or of a branch that is done.
fn shown(
    alloc: Global,
    machine: &Machine,
    program: &Program,
    sight: &Sight,
    frames: &[Frame],
    index: usize,
) -> Members {
    match frames.get(index) {
        Some(frame) => match frame.action {
            Some(number) => {
                let before = if index > 0 { "also " } else { "" };
                place_frame(alloc, machine, program, sight, before, frame.call, number)
            }
            None => call_frame(alloc, program, frame.call, call_before(frames, index)),
        },
        None => done_frame(alloc),
    }
}

/// The instance of the frame above this one.
fn call_before(frames: &[Frame], index: usize) -> usize {
    match frames.get(index.saturating_sub(1)) {
        Some(frame) => frame.call,
        None => 0,
    }
}

/// The frame of an instance that has called the one above it: what it is called, and the line of that call.
fn call_frame(alloc: Global, program: &Program, call: usize, inner: usize) -> Members {
    let mut words = Words::new(alloc);
    program.index.add_title(call, &mut words);
    let mut frame = Members::new(alloc);
    program.add_place(alloc, &mut frame, program.index.line_of_call(inner));
    frame.text("name", words.as_str());
    frame
}

/// The frame of the place of the action at this index, which belongs to this instance.
fn place_frame(
    alloc: Global,
    machine: &Machine,
    program: &Program,
    sight: &Sight,
    before: &str,
    call: usize,
    number: usize,
) -> Members {
    let mut frame = Members::new(alloc);
    let mut words = Words::of(alloc, before);
    if let Some(offered) = sight.actions.as_slice().get(number) {
        match line_at(machine, &offered.place) {
            Some(line) => {
                program.index.add_title(call, &mut words);
                words.add(": ");
                program.add_place(alloc, &mut frame, line);
            }
            None => add_port_place(alloc, machine, program, offered, &mut frame),
        }
        add_offered(alloc, machine, program, sight, offered, &mut words);
    }
    frame.text("name", words.as_str());
    frame
}

/// Adds the action in a few words, and for whom it waits where it does.
fn add_offered(
    alloc: Global,
    machine: &Machine,
    program: &Program,
    sight: &Sight,
    offered: &LocalAction,
    words: &mut Words,
) {
    add_action(alloc, machine, &offered.action, words);
    if sight.rank(&offered.place) == Rank::Waits {
        words.add(" (waits for ");
        add_waits(alloc, machine, &program.lines, sight, offered, words);
        words.add(")");
    }
}

/// Adds where the port of the environment's action is declared.
fn add_port_place(
    alloc: Global,
    machine: &Machine,
    program: &Program,
    offered: &LocalAction,
    frame: &mut Members,
) {
    let system = machine.checked().system();
    let channel = channel_of(&offered.action).unwrap_or(0);
    let line = match system.channels.as_slice().get(channel as usize) {
        Some(channel) => program.lines.line_of(channel.declared),
        None => 1,
    };
    program.add_place(alloc, frame, line);
}

/// The frame of a thread that has ended.
fn done_frame(alloc: Global) -> Members {
    let mut frame = Members::new(alloc);
    frame.text("name", "done");
    frame.number("line", 0);
    frame.number("column", 0);
    frame.text("presentationHint", "label");
    frame
}

/// The frames of the branch: the place that goes on first, the calls around it from the inner to the outermost, and the
/// other places. None where it is done.
fn frames_of(
    alloc: Global,
    machine: &Machine,
    index: &Index,
    sight: &Sight,
    branch: u32,
) -> Result<Vec<Frame>, AllocError>
    ensures { IfOk result (λ frames. frames.items ≡ model.frames_of machine.now index.now sight.now branch) }
{
    let places = places_in(alloc, machine, sight, branch)?;
    frames_at(
        alloc,
        machine,
        index,
        sight.actions.as_slice(),
        places.as_slice(),
    )
}

/// The frames of a branch that has these places.
fn frames_at(
    alloc: Global,
    machine: &Machine,
    index: &Index,
    actions: &[LocalAction],
    places: &[usize],
) -> Result<Vec<Frame>, AllocError>
    ensures { IfOk result (λ frames. frames.items ≡ model.frames_at machine.now index.now actions.now places.now) }
{
    let mut frames = Vec::new(alloc);
    if let [first, others @ ..] = places {
        let frame = at_place(machine, index, actions, *first);
        frames.push(frame)?;
        add_calls(index, frame.call, &mut frames)?;
        add_places(machine, index, actions, others, &mut frames)?;
    }
    Ok(frames)
}

/// The frame at the place of the action at this index.
fn at_place(machine: &Machine, index: &Index, actions: &[LocalAction], number: usize) -> Frame
    ensures { result ≡ at_place machine.now index.now actions.now number }
{
    Frame {
        action: Some(number),
        call: call_of(machine, index, actions, number),
    }
}

/// The instance whose names are seen where the action at this index stands; the root where there is none.
fn call_of(machine: &Machine, index: &Index, actions: &[LocalAction], number: usize) -> usize
    ensures { result ≡ call_of machine.now index.now (slice_get actions.now number) }
{
    match actions.get(number) {
        Some(offered) => index.instance_at(machine, &offered.place),
        None => 0,
    }
}

/// Adds the frames of the calls around one, from the inner to the outermost.
fn add_calls(index: &Index, call: usize, frames: &mut Vec<Frame>) -> Result<(), AllocError>
    ensures { OnOk result (frames.new.items ≡ frames.old.items ++ map at_call (calls_around index.now call)) }
{
    let mut inner = call;
    let mut left = index.count();
    'outwards: while left > 0 {
        let Some(outer) = index.around(inner) else {
            break;
        };
        frames.push(Frame {
            action: None,
            call: outer,
        })?;
        inner = outer;
        left -= 1;
    }
    Ok(())
}

/// Adds the frames of these places.
fn add_places(
    machine: &Machine,
    index: &Index,
    actions: &[LocalAction],
    places: &[usize],
    frames: &mut Vec<Frame>,
) -> Result<(), AllocError>
    ensures { OnOk result (frames.new.items
        ≡ frames.old.items ++ map (at_place machine.now index.now actions.now) places.now) }
{
    for number in places {
        frames.push(at_place(machine, index, actions, *number))?;
    }
    Ok(())
}

/// How many of these frames there are to see.
fn count_of(frames: &[Frame]) -> u64
    ensures count { result ≡ count_of frames.now }
    ensures few { result ≤ 1000 }
{
    (frames.len() as u64).max(1).min(MOST_FRAMES)
}

/// The branch and the instance of the frame that a request names; where it names none, the branch of the first step
/// that is ready, and the root. It is refused where there is no such frame.
pub fn frame_in(
    alloc: Global,
    machine: &Machine,
    program: &Program,
    request: &Request,
    answer: &mut Answer,
) -> Option<(u32, usize)>
    ensures same { MatchOption result (answer.new.notes ≡ answer.old.notes) (λ _. answer.new ≡ answer.old) }
    ensures found { MatchOption result
        (Misses machine.now program.now.index program.now.sight
        (number_named (codes "frameId") (view request.now.arguments)) answer.new)
        (λ frame. FindsNamed machine.now program.now.index program.now.sight
        (number_named (codes "frameId") (view request.now.arguments)) (Some frame)) }
{
    let Some(sight) = &program.sight else {
        answer.lacks = true;
        return None;
    };
    match request.number("frameId") {
        Some(id) => frame_at(alloc, machine, &program.index, sight, id, answer),
        None => Some((sight.able(machine), 0)),
    }
}

/// The branch and the instance of the frame of this number. It is refused where there is none.
fn frame_at(
    alloc: Global,
    machine: &Machine,
    index: &Index,
    sight: &Sight,
    id: u64,
    answer: &mut Answer,
) -> Option<(u32, usize)>
    ensures same { MatchOption result (answer.new.notes ≡ answer.old.notes) (λ _. answer.new ≡ answer.old) }
    ensures found { MatchOption result (Misses machine.now index.now (Some sight.now) (Some id) answer.new)
        (λ frame. FindsFrame machine.now index.now sight.now id (Some frame)) }
{
    match frame_named(alloc, machine, index, sight, id) {
        Ok(Some(found)) => Some(found),
        Ok(None) => {
            answer.refuse(109, "there is no such frame any more");
            None
        }
        Err(_) => {
            answer.lacks = true;
            None
        }
    }
}

/// The branch and the instance of the frame of this number, where there is one.
fn frame_named(
    alloc: Global,
    machine: &Machine,
    index: &Index,
    sight: &Sight,
    id: u64,
) -> Result<Option<(u32, usize)>, AllocError>
    ensures { IfOk result (FindsFrame machine.now index.now sight.now id) }
{
    let (thread, number) = frame_of(id);
    match branch_of(thread, branch_count(machine.checked().system())) {
        Some(branch) => {
            let frames = frames_of(alloc, machine, index, sight, branch)?;
            Ok(frame_among(index, branch, frames.as_slice(), number))
        }
        None => Ok(None),
    }
}

/// The branch and the instance of the frame of this index, of these frames of the branch.
fn frame_among(index: &Index, branch: u32, frames: &[Frame], number: u64) -> Option<(u32, usize)>
    ensures { MatchOption result (count_of frames.now ≤ number)
        (λ found. (found.0 ≡ branch) × (number < count_of frames.now)
        × (found.1 ≡ seen_call index.now branch (slice_get frames.now number))) }
{
    if number < count_of(frames) {
        Some((branch, call_at(index, branch, frames, number as usize)))
    } else {
        None
    }
}

/// The instance of the frame of this index; that in which the branch began, where it is done.
fn call_at(index: &Index, branch: u32, frames: &[Frame], number: usize) -> usize
    ensures { result ≡ seen_call index.now branch (slice_get frames.now number) }
{
    match frames.get(number) {
        Some(frame) => frame.call,
        None => index.instance_of_branch(branch),
    }
}
