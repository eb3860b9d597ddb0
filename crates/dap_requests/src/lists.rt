// The list of breakpoints in a response.
ghost use Rattle.std.specs.Prelude.{◌≡◌, Some, false};
ghost use Rattle.serde_json.specs.Find.{as_array};
ghost use Rattle.serde_json.specs.View.{items_view, view};
ghost use Rattle.dap_requests.specs.Lists.{list_in};

use dap_messages::{Answer, Listed, Members};
use serde_json::Value;
use std::alloc::Global;

/// Gives the response this list of breakpoints.
pub(crate) fn give(alloc: Global, list: Value, answer: &mut Answer)
    ensures list { answer.new.lacks ≡ false → list_in answer.new.outcome ≡ as_array (view list) }
    ensures quiet { answer.new.notes ≡ answer.old.notes }
    ensures lacks { answer.new.lacks ≡ false → answer.old.lacks ≡ false }
{
    let mut body = Members::new(alloc);
    body.value("breakpoints", list);
    answer.body(body);
}

/// Gives the response a list of breakpoints that was made.
pub(crate) fn give_made(alloc: Global, list: Listed, answer: &mut Answer)
    ensures list { answer.new.lacks ≡ false
        → (list.lacks ≡ false) × (list_in answer.new.outcome ≡ Some (items_view list.made.items)) }
    ensures quiet { answer.new.notes ≡ answer.old.notes }
{
    let mut body = Members::new(alloc);
    body.list("breakpoints", list);
    answer.body(body);
}
