// Events made on the tree and the store.
ghost use Rattle.std.specs.Prelude.{◌≡◌, ◌<◌, length, Some, IsSome, IfOk, OnErr};
ghost use Rattle.std.specs.Option.{option_map};
ghost use Rattle.system.specs.Expression.{get};
ghost use Rattle.runs.specs.Events.{store_after, written_by};
ghost use Rattle.event_inverse.specs.Grown.{applied};
ghost use Rattle.event_inverse.specs.View.{both_view, inverse_view, record_view};
ghost use Rattle.event_inverse.specs.internal.Reverted.{reverted};

use crate::moves::make;
use crate::record::{Inverse, Record};
use process_tree::Tree;
use runs::Event;
use std::alloc::{AllocError, Global};
use store::Store;
use value::Value;

/// Makes the event on the tree and the store. The record takes it back (`invert`), now or later.
///
/// Without memory nothing is changed.
pub fn apply(
    alloc: Global,
    tree: &mut Tree,
    store: &mut Store,
    event: Event,
) -> Result<Record, AllocError>
    requires possible { IsSome (applied (both_view tree.old store.old) event) }
    ensures event { IfOk result (λ r. (record_view r).0 ≡ event) }
    ensures made { IfOk result (λ r.
        applied (both_view tree.old store.old) event ≡ Some (both_view tree.new store.new, (record_view r).1)) }
    ensures back { IfOk result (λ r.
        reverted (both_view tree.new store.new) event (record_view r).1 ≡ Some (both_view tree.old store.old)) }
    ensures without_memory { OnErr result (both_view tree.new store.new ≡ both_view tree.old store.old) }
{
    match apply_by(alloc, tree, store, &event) {
        Ok(inverse) => Ok(Record { event, inverse }),
        Err(error) => Err(error),
    }
}

/// Makes the event, which stays where it is, on the tree and the store. The inverse takes it back (`invert_by`), now or
/// later.
///
/// Without memory nothing is changed.
pub fn apply_by(
    alloc: Global,
    tree: &mut Tree,
    store: &mut Store,
    event: &Event,
) -> Result<Inverse, AllocError>
    requires possible { IsSome (applied (both_view tree.old store.old) event.now) }
    ensures made { IfOk result (λ inverse.
        applied (both_view tree.old store.old) event.now
        ≡ Some (both_view tree.new store.new, inverse_view inverse)) }
    ensures back { IfOk result (λ inverse.
        reverted (both_view tree.new store.new) event.now (inverse_view inverse)
        ≡ Some (both_view tree.old store.old)) }
    ensures without_memory { OnErr result (both_view tree.new store.new ≡ both_view tree.old store.old) }
{
    match make(alloc, tree, event) {
        Ok(removed) => {
            let overwritten = write(store, event);
            Ok(Inverse {
                removed,
                overwritten,
            })
        }
        Err(error) => Err(error),
    }
}

/// Writes what the event writes. The value that it overwrites, if it writes a variable; of no variable that is a zero
/// of one bit, and nothing is written.
fn write(store: &mut Store, event: &Event) -> Option<Value>
    ensures written { store.new ≡ store_after event.now store.old }
    ensures old { result ≡ option_map (get store.old) event.now.written }
{
    match event.written {
        Some(variable) if (variable as usize) < store.len() => {
            Some(overwrite(store, variable, event.value))
        }
        Some(_) => Some(Value::zero(1)),
        None => None,
    }
}

/// Writes the value, if there is one, to the variable. The value that stood there.
fn overwrite(store: &mut Store, variable: u32, value: Option<Value>) -> Value
    requires { variable < length store.old }
    ensures written { store.new ≡ written_by (Some variable) value store.old }
    ensures old { result ≡ get store.old variable }
{
    match value {
        Some(value) => store.put(variable, value),
        None => store.get(variable),
    }
}
