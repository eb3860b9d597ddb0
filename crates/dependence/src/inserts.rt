// One more in a list.
ghost use Rattle.std.specs.Prelude.{◌≡◌, ◌<◌, ◌≤◌, ◌++◌, ◌∷◌, [], length, OnOk, OnErr};
ghost use Rattle.std.specs.List.{insert};

use std::alloc::AllocError;

/// Puts the item behind so many others: behind all nearly always, so that nothing moves, and where there is room.
/// Without memory for it they stay.
#[inline(always)]
pub(crate) fn insert_at<T: Drop>(
    items: &mut Vec<T>,
    index: usize,
    item: T,
) -> Result<(), AllocError>
    requires { index ≤ length items.old.items }
    ensures put { OnOk result (items.new.items ≡ insert items.old.items index item) }
    ensures refused { OnErr result (items.new.items ≡ items.old.items) }
{
    if index < items.len() {
        return insert_within(items, index, item);
    }
    push_last(items, item)
}

/// The same behind fewer than all. It stands by itself, so that what moves nothing stays short.
#[inline(never)]
fn insert_within<T: Drop>(items: &mut Vec<T>, index: usize, item: T) -> Result<(), AllocError>
    requires { index < length items.old.items }
    ensures put { OnOk result (items.new.items ≡ insert items.old.items index item) }
    ensures refused { OnErr result (items.new.items ≡ items.old.items) }
{
    items.insert(index, item)?;
    Ok(())
}

/// Puts the item behind all. Nearly always there is room for it, and then nothing is asked of the allocator. Without
/// memory for it they stay.
#[inline(always)]
pub(crate) fn push_last<T: Drop>(items: &mut Vec<T>, item: T) -> Result<(), AllocError>
    ensures put { OnOk result (items.new.items ≡ items.old.items ++ item ∷ []) }
    ensures refused { OnErr result (items.new.items ≡ items.old.items) }
{
    if items.len() < items.capacity() {
        items.push_reserved(item);
        return Ok(());
    }
    push_grown(items, item)
}

/// The same where there is no room yet. It stands by itself, as above.
#[inline(never)]
fn push_grown<T: Drop>(items: &mut Vec<T>, item: T) -> Result<(), AllocError>
    ensures put { OnOk result (items.new.items ≡ items.old.items ++ item ∷ []) }
    ensures refused { OnErr result (items.new.items ≡ items.old.items) }
{
    items.push(item)?;
    Ok(())
}
