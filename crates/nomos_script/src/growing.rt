//! Lists that grow one by one, and mostly stay short.
ghost use Rattle.std.specs.Prelude.{◌≡◌, ◌∷◌, ◌++◌, [], OnOk, OnErr};

use std::alloc::AllocError;

/// Puts an item at the end. The first one takes memory for so many items, and not for four, as a push would: a megabyte
/// of short lists takes a fraction of the memory then, and of the time.
pub(crate) fn put<T: Drop>(items: &mut Vec<T>, room: usize, item: T) -> Result<(), AllocError>
    ensures put { OnOk result (items.new.items ≡ items.old.items ++ item ∷ []) }
    ensures same { OnErr result (items.new.items ≡ items.old.items) }
{
    if items.is_empty() {
        items.reserve_exact(room)?;
    }
    items.push(item)?;
    Ok(())
}
