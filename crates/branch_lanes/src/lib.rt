//! The lane of a place: the branch that it belongs to, whatever turns of loops and parts of sequences are around it.
//! Events at places that are apart lie in different lanes.
#![tactic(auto)]

ghost use Rattle.std.specs.Prelude.{◌≡◌, IfOk};
ghost use Rattle.branch_lanes.specs.Lanes.{ApartInLanes, branch_numbers, lane_of, trimmed};

use address::{Address, Entry};
use std::alloc::{AllocError, Global};

/// The lane of the place: the numbers of the branches that it lies in, from the outermost, without the zeros at the end
/// but for the first number. So child 0 of a parallel goes on in the lane of the parallel.
///
/// It is an error if there is no memory.
pub fn lane_of(alloc: Global, place: &Address) -> Result<Vec<u32>, AllocError>
    ensures { IfOk result (λ lane. lane.items ≡ lane_of place.now) }
{
    let mut lane = branch_numbers(alloc, place.entries())?;
    trim(&mut lane);
    Ok(lane)
}

/// The numbers of the branches among the entries.
fn branch_numbers(alloc: Global, entries: &[Entry]) -> Result<Vec<u32>, AllocError>
    ensures { IfOk result (λ numbers. numbers.items ≡ branch_numbers entries.now) }
{
    let mut numbers = Vec::new(alloc);
    for entry in entries {
        if let Entry::Branch(number) = entry {
            numbers.push(*number)?;
        }
    }
    Ok(numbers)
}

/// Takes the zeros at the end away, but for the first number.
pub fn trim(lane: &mut Vec<u32>)
    ensures { lane.new.items ≡ trimmed lane.old.items }
{
    'zeros: while lane.len() > 1 && lane[lane.len() - 1] == 0 {
        lane.pop();
    }
}

/// Two places that are apart lie in different lanes. Nothing is done, the contract says it.
pub fn apart_in_lanes()
    ensures { ApartInLanes }
{}
