// Events taken back by their records.
ghost use Rattle.std.specs.Prelude.{◌≡◌, Some, IsSome};
ghost use Rattle.event_inverse.specs.Laws.{UndoneBy, LastUndone};
ghost use Rattle.event_inverse.specs.View.{both_view, inverse_view, record_view};
ghost use Rattle.event_inverse.specs.internal.Reverted.{reverted, written_back};

use crate::moves::take_back;
use crate::record::{Inverse, Record, Removed};
use process_tree::Tree;
use runs::Event;
use std::mem;
use store::Store;
use value::Value;

/// Takes an event back by its record, and gives the event. It takes no memory.
pub fn invert(tree: &mut Tree, store: &mut Store, kept: Record) -> Event
    requires possible { IsSome (reverted (both_view tree.old store.old) (record_view kept).0 (record_view kept).1) }
    ensures event { result ≡ (record_view kept).0 }
    ensures back { reverted (both_view tree.old store.old) (record_view kept).0 (record_view kept).1
        ≡ Some (both_view tree.new store.new) }
    ensures undone { UndoneBy (both_view tree.old store.old) (record_view kept) (both_view tree.new store.new) }
    ensures made_last { LastUndone (both_view tree.old store.old) (record_view kept) (both_view tree.new store.new) }
{
    let Record { event, mut inverse } = kept;
    invert_by(tree, store, &event, &mut inverse);
    event
}

/// Takes an event back by its inverse, which stays where it is and is of no use any more. It takes no memory.
pub fn invert_by(tree: &mut Tree, store: &mut Store, event: &Event, inverse: &mut Inverse)
    requires possible { IsSome (reverted (both_view tree.old store.old) event.now (inverse_view inverse.old)) }
    ensures back { reverted (both_view tree.old store.old) event.now (inverse_view inverse.old)
        ≡ Some (both_view tree.new store.new) }
    ensures undone { UndoneBy (both_view tree.old store.old) (event.now, inverse_view inverse.old)
        (both_view tree.new store.new) }
    ensures made_last { LastUndone (both_view tree.old store.old) (event.now, inverse_view inverse.old)
        (both_view tree.new store.new) }
{
    let removed = mem::replace(&mut inverse.removed, Removed::One(None));
    take_back(tree, event, removed);
    write_back(store, event.written, inverse.overwritten);
}

/// Puts back the value that was overwritten, if a variable was written.
fn write_back(store: &mut Store, written: Option<u32>, overwritten: Option<Value>)
    ensures { store.new ≡ written_back written overwritten store.old }
{
    match (written, overwritten) {
        (Some(variable), Some(value)) if (variable as usize) < store.len() => {
            store.put_back(variable, value);
        }
        _ => {}
    }
}
