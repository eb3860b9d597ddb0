// Who sleeps, by marks among which the next branch that is awake is found at once.
ghost use Rattle.std.specs.Prelude.{◌≡◌, ◌⊎◌, ◌+◌, ℕ, IfOk};
ghost use Rattle.shell_desk.specs.internal.Sleeping.{AllSleep, IsAsleep, NoneSleeps, SleepBut};

use memchr::memchr;
use std::alloc::{AllocError, Global};
use std::marker::Model;

/// The mark of a branch that is awake, and of one that is asleep. They are bytes, so that one that is awake is found at
/// once among thousands.
const AWAKE: u8 = 0;

const ASLEEP: u8 = 1;

/// For each branch the mark that says whether it is asleep. Those that are left out are awake.
#[derive(Drop)]
pub(crate) struct Marks {
    bytes: Vec<u8>,
    /// all that are marked from this branch on are asleep
    end: usize,
}

impl Model for Marks {
    ghost use Rattle.std.specs.Prelude.{ℕ, List, length};
    ghost use Rattle.shell_desk.specs.internal.Sleeping.{AllSleep};

    ghost Value = { List ℕ };

    ghost view = { λ marks. marks.bytes.items };

    ghost invariant = { λ marks. AllSleep marks.bytes.items marks.end (length marks.bytes.items) };
}

impl Marks {
    /// So many branches that are awake. Without memory none will ever be marked.
    pub(crate) fn none(alloc: Global, count: u32) -> Marks
        ensures { NoneSleeps result }
    {
        let bytes = marks_of(alloc, count);
        let end = bytes.len();
        Marks { bytes, end }
    }

    /// Where the marks take their memory.
    pub(crate) fn alloc(&self) -> Global {
        *self.bytes.allocator()
    }

    /// So many branches are asleep from this one on, one behind the other, and perhaps more. Where none is awake any more,
    /// that is kept in mind.
    pub(crate) fn asleep_from(&mut self, branch: u32) -> usize
        ensures asleep { AllSleep self.new branch (branch + result) }
        ensures same { self.new ≡ self.old }
    {
        let from = branch as usize;
        if self.end <= from {
            return self.bytes.len().saturating_sub(from);
        }
        let count = asleep_at(self.bytes.as_slice(), from);
        if from.saturating_add(count) >= self.bytes.len() {
            self.end = from;
        }
        count
    }

    /// Wakes a branch.
    pub(crate) fn wake(&mut self, branch: u32)
        ensures { SleepBut branch self.old self.new }
    {
        let index = branch as usize;
        if self.bytes.len() <= index {
            return;
        }
        self.bytes[index] = AWAKE;
        self.end = self.end.max(index + 1);
    }

    /// Wakes all.
    pub(crate) fn wake_all(&mut self)
        ensures { NoneSleeps self.new }
    {
        self.bytes.as_mut_slice().fill(AWAKE);
        self.end = self.bytes.len();
    }

    /// Lets a branch fall asleep.
    pub(crate) fn lull(&mut self, branch: u32)
        ensures { (i : ℕ) → IsAsleep self.new i → IsAsleep self.old i ⊎ (i ≡ branch) }
    {
        let index = branch as usize;
        if self.bytes.len() <= index {
            return;
        }
        self.bytes[index] = ASLEEP;
    }
}

/// So many marks of branches that are awake, and none without memory.
fn marks_of(alloc: Global, count: u32) -> Vec<u8>
    ensures { NoneSleeps result.items }
{
    match all_awake(alloc, count) {
        Ok(bytes) => bytes,
        Err(_) => Vec::new(alloc),
    }
}

/// So many branches that are awake.
fn all_awake(alloc: Global, count: u32) -> Result<Vec<u8>, AllocError>
    ensures { IfOk result (λ asleep. NoneSleeps asleep.items) }
{
    Ok(vec![in alloc; AWAKE; count as usize]?)
}

/// So many of the branches with these marks are asleep from this one on, one behind the other.
fn asleep_at(marks: &[u8], from: usize) -> usize
    ensures { AllSleep marks.now from (from + result) }
{
    if marks.len() <= from {
        return 0;
    }
    let (_, marks) = marks.split_at(from);
    match memchr(AWAKE, marks) {
        Some(count) => count,
        None => marks.len(),
    }
}
