// Orders that only a shared variable makes.
ghost use Rattle.std.specs.Prelude.{◌≡◌, ◌↔◌, ◌+◌, ◌⊎◌, ◌++◌, ◌∷◌, [], ℕ, IsTrue, IfOk, MatchOption, OnOk, Some, slice_get};
ghost use Rattle.system.specs.Expression.{is_in};
ghost use Rattle.runs.specs.Dependence.{OnOneChannel, OnOneVariable, SomeBefore};
ghost use Rattle.runs.specs.Live.{LiveAt};
ghost use Rattle.runs.specs.declared.event.Event.{Event};
ghost use Rattle.dependence.specs.Followers.{Follower};
ghost use Rattle.run_depths.specs.Depths.{StandsAt};
ghost use Rattle.run_depths.specs.Races.{AreRaces, ByVariable, IsRace, OrdersBy, ReadsAfter, WritesAfter};
ghost use Rattle.run_depths.specs.internal.RacesSoFar.{RacesTo};

use dependence::Live;
use runs::{Event, some_before, writes};
use std::alloc::{AllocError, Global};

/// An event and one that follows it, where only a variable relates the two.
#[derive(Clone, Copy)]
pub struct Race {
    /// the index of the earlier event
    pub cause: usize,
    /// the index of the later event
    pub event: usize,
    /// the number of the variable
    pub variable: u32,
}

/// All orders of live events that only a variable makes, in the order of the later events, and of one in the order of
/// the earlier. The variable is one that the later event reads, if the earlier wrote such a one, and else the one that
/// the later writes.
///
/// It is an error if there is no memory.
pub fn races_of(alloc: Global, live: &Live) -> Result<Vec<Race>, AllocError>
    ensures { IfOk result (λ races. AreRaces live.now.live races.items) }
{
    live.is_sound();
    let mut races = Vec::new(alloc);
    for (index, (ticket, event)) in live.iter().enumerate() {
        add_races(&mut races, live, index, ticket, event)?;
    }
    Ok(races)
}

/// Adds those of the event at an index, of this ticket.
fn add_races(
    races: &mut Vec<Race>,
    live: &Live,
    index: usize,
    ticket: u64,
    event: &Event,
) -> Result<(), AllocError>
    requires stands { slice_get live.now.live index ≡ Some (ticket, event.now) }
    requires so_far { RacesTo live.now.live index races.old.items }
    ensures { OnOk result (RacesTo live.now.live (index + 1) races.new.items) }
{
    live.is_sound();
    let leads = live.leads(ticket);
    for back in 0..leads.len() {
        let lead = leads[leads.len() - 1 - back];
        add_race(races, race_with(live, lead, index, ticket, event))?;
    }
    Ok(())
}

/// Adds the race, if it is one.
fn add_race(races: &mut Vec<Race>, race: Option<Race>) -> Result<(), AllocError>
    ensures { OnOk result
        (MatchOption race (races.new.items ≡ races.old.items) (λ r. races.new.items ≡ races.old.items ++ r ∷ [])) }
{
    match race {
        Some(race) => {
            races.push(race)?;
            Ok(())
        }
        None => Ok(()),
    }
}

/// The race of the event at an index, of this ticket, with the live event of the ticket `lead`, which it follows, if it
/// is one.
fn race_with(live: &Live, lead: u64, index: usize, ticket: u64, event: &Event) -> Option<Race>
    requires stands { slice_get live.now.live index ≡ Some (ticket, event.now) }
    requires follows { Follower live.now.live lead ticket }
    ensures { MatchOption result
        ((e : Event) → LiveAt live.now.live lead e → ByVariable live.now.live lead ticket e event.now → ⊥)
        (λ race. IsRace live.now.live race × (race.event ≡ index) × StandsAt live.now.live lead race.cause) }
{
    live.is_sound();
    let Some(cause) = live.index_of(lead) else {
        return None;
    };
    let Some((_, earlier)) = live.pair_at(cause as u64) else {
        return None;
    };
    match variable_between(earlier, event) {
        Some(variable) => Some(Race {
            cause,
            event: index,
            variable,
        }),
        None => None,
    }
}

/// The variable that alone orders the two events, if neither their places nor a channel does.
fn variable_between(earlier: &Event, later: &Event) -> Option<u32>
    ensures { MatchOption result
        (OnOneVariable earlier.now later.now → SomeBefore earlier.now later.now ⊎ OnOneChannel earlier.now later.now)
        (λ x. (SomeBefore earlier.now later.now → ⊥) × (OnOneChannel earlier.now later.now → ⊥)
        × OrdersBy earlier.now later.now x) }
{
    if some_before(earlier, later) {
        return None;
    }
    if on_one_channel(earlier, later) {
        return None;
    }
    shared_variable(earlier, later)
}

/// Whether both events are on one channel.
fn on_one_channel(one: &Event, other: &Event) -> bool
    ensures { IsTrue result ↔ OnOneChannel one.now other.now }
{
    match (one.channel, other.channel) {
        (Some(channel), Some(same)) => channel == same,
        _ => false,
    }
}

/// The variable that the earlier event writes and the later one reads, or else that which the later writes and the
/// earlier reads or writes.
fn shared_variable(earlier: &Event, later: &Event) -> Option<u32>
    ensures { MatchOption result (OnOneVariable earlier.now later.now → ⊥) (OrdersBy earlier.now later.now) }
{
    match read_after(earlier, later) {
        Some(variable) => Some(variable),
        None => written_after(earlier, later),
    }
}

/// The variable that the earlier event writes and the later one reads.
fn read_after(earlier: &Event, later: &Event) -> Option<u32>
    ensures { MatchOption result ((x : ℕ) → ReadsAfter earlier.now later.now x → ⊥) (ReadsAfter earlier.now later.now) }
{
    let Some(variable) = earlier.written else {
        return None;
    };
    if reads(later.read.as_slice(), variable) {
        Some(variable)
    } else {
        None
    }
}

/// The variable that the later event writes and the earlier one reads or writes.
fn written_after(earlier: &Event, later: &Event) -> Option<u32>
    ensures { MatchOption result ((x : ℕ) → WritesAfter earlier.now later.now x →
        ⊥) (WritesAfter earlier.now later.now) }
{
    let Some(variable) = later.written else {
        return None;
    };
    if reads(earlier.read.as_slice(), variable) {
        Some(variable)
    } else if writes(earlier, variable) {
        Some(variable)
    } else {
        None
    }
}

/// Whether the variable is among those that are read.
fn reads(read: &[u32], variable: u32) -> bool
    ensures { result ≡ is_in variable read.now }
{
    for held in read {
        if *held == variable {
            return true;
        }
    }
    false
}
