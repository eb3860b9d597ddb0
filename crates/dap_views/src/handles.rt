// The numbers by which a client names frames and what it unfolds: no table is kept, so one state has one number for
// each.
ghost use Rattle.std.specs.Prelude.{ℕ, ◌≡◌, ◌<◌, ◌^◌, ◌*◌, ◌+◌, Some};
ghost use Rattle.dap_views.specs.declared.handles.Handle.{Handle as Unfolded};
ghost use Rattle.dap_views.specs.Handles as model;

/// How many frames a thread may show.
const MOST_FRAMES: u64 = 32_768;

/// What can be unfolded.
#[derive(Clone, Copy, Debug, PartialEq, Eq)]
pub enum Handle {
    /// the variables of an instance
    Variables(u64),
    /// its channels
    Channels(u64),
    /// the newest steps of a thread
    Steps(u64),
    /// the instance, with its variables and those below it
    Instance(u64),
}

/// The number of a frame: the threads count from 1, their frames from 0.
pub fn frame_id(thread: u32, index: u16) -> u64
    requires { index < 2 ^ 15 }
    ensures { result ≡ model.frame_id thread index }
{
    u64::from(thread) * MOST_FRAMES + u64::from(index)
}

/// The thread and the index of the frame with this number.
pub fn frame_of(id: u64) -> (u64, u64)
    ensures { (thread index : ℕ) → index < 2 ^ 15 → model.frame_id thread index ≡ id → result ≡ (thread, index) }
{
    (id / MOST_FRAMES, id % MOST_FRAMES)
}

/// The number by which something is unfolded. It is never 0. Numbers of 2^32 and more, which no system has, may share
/// one.
pub fn reference(handle: Handle) -> u64
    ensures { model.number_of handle < 2 ^ 32 → result ≡ model.reference handle }
{
    match handle {
        Handle::Variables(number) => eightfold(number, 1),
        Handle::Channels(number) => eightfold(number, 2),
        Handle::Steps(number) => eightfold(number, 3),
        Handle::Instance(number) => eightfold(number, 4),
    }
}

/// Eight times the number, and the rest behind it; as if the number were 2^32 where it is more.
fn eightfold(number: u64, rest: u64) -> u64
    requires { rest < 8 }
    ensures { number < 2 ^ 32 → result ≡ number * 8 + rest }
{
    if number < 4_294_967_296 {
        number * 8 + rest
    } else {
        34_359_738_368 + rest
    }
}

/// What is unfolded by this number.
pub fn handle_of(reference: u64) -> Option<Handle>
    ensures { (handle : Unfolded) → model.reference handle ≡ reference → result ≡ Some handle }
{
    let number = reference / 8;
    match reference % 8 {
        1 => Some(Handle::Variables(number)),
        2 => Some(Handle::Channels(number)),
        3 => Some(Handle::Steps(number)),
        4 => Some(Handle::Instance(number)),
        _ => None,
    }
}
