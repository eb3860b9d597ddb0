// Who gives on each channel, as far as one branch alone does.
ghost use Rattle.std.specs.Prelude.{◌≡◌, ℕ, Some, IfOk, slice_get};
ghost use Rattle.syntax.specs.Lists.{In};
ghost use Rattle.idle_branches.specs.internal.Known.{KnowsGivers, MayBe};

use std::alloc::{AllocError, Global};
use syntax::Items;

/// Who gives on a channel.
#[derive(Clone, Copy)]
pub(crate) enum Giver {
    Nobody,
    /// this branch alone
    One(u32),
    /// perhaps more than one branch
    Several,
}

impl Giver {
    /// The same, and this branch too.
    fn with(self, branch: u32) -> Giver
        ensures own { MayBe (Some result) branch }
        ensures others { (k : ℕ) → MayBe (Some self) k → MayBe (Some result) k }
    {
        match self {
            Giver::Nobody => Giver::One(branch),
            Giver::One(other) => {
                if other == branch {
                    Giver::One(other)
                } else {
                    Giver::Several
                }
            }
            Giver::Several => Giver::Several,
        }
    }
}

/// For each of so many channels who gives on it, where these are the channels on which each branch does. It is an error
/// if there is no memory, or a branch whose number has not 32 bits.
pub(crate) fn givers_of(
    alloc: Global,
    channels: usize,
    giving: &[Items<u32>],
) -> Result<Vec<Giver>, AllocError>
    ensures { IfOk result (λ givers. KnowsGivers givers.items giving.now) }
{
    let mut givers = vec![in alloc; Giver::Nobody; channels]?;
    for (branch, list) in giving.iter().enumerate() {
        let branch = small(branch)?;
        add_giver(givers.as_mut_slice(), list.as_slice(), branch);
    }
    Ok(givers)
}

/// Who gives on the channel, of which nothing is known where it is none of these.
pub(crate) fn giver_on(givers: &[Giver], channel: u32) -> Giver
    ensures { (k : ℕ) → MayBe (slice_get givers.now channel) k → MayBe (Some result) k }
{
    match givers.get(channel as usize) {
        Some(giver) => *giver,
        None => Giver::Several,
    }
}

/// Keeps in mind that the branch gives on these channels.
fn add_giver(givers: &mut [Giver], channels: &[u32], branch: u32)
    ensures own { (c : ℕ) → In c channels.now → MayBe (slice_get givers.new c) branch }
    ensures others { (c k : ℕ) → MayBe (slice_get givers.old c) k → MayBe (slice_get givers.new c) k }
{
    for channel in channels {
        add_giver_on(givers, *channel, branch);
    }
}

/// The same of one channel.
fn add_giver_on(givers: &mut [Giver], channel: u32, branch: u32)
    ensures own { MayBe (slice_get givers.new channel) branch }
    ensures others { (c k : ℕ) → MayBe (slice_get givers.old c) k → MayBe (slice_get givers.new c) k }
{
    let index = channel as usize;
    if givers.len() <= index {
        return;
    }
    givers[index] = giver_on(givers, channel).with(branch);
}

/// The number in 32 bits. It is an error if it has more.
fn small(number: usize) -> Result<u32, AllocError>
    ensures { IfOk result (λ same. same ≡ number) }
{
    match u32::try_from(number) {
        Ok(same) => Ok(same),
        Err(_) => Err(AllocError),
    }
}
