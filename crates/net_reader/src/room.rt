//! Pushes, most of which find room.
ghost use Rattle.std.specs.Prelude.{◌≡◌, ◌++◌, [], ◌∷◌, IfOk};

use std::alloc::AllocError;

// One item more, for which there is no room yet.
#[inline(never)]
fn push_growing<T: Drop>(items: &mut Vec<T>, item: T) -> Result<(), AllocError>
    ensures items { IfOk result (λ done. items.new.items ≡ items.old.items ++ item ∷ []) }
{
    items.push(item)?;
    Ok(())
}

// One item more. A push with room to spare, as most have, is drawn in where it is made; one that
// has to make room is a call.
#[inline(always)]
pub(crate) fn push<T: Drop>(items: &mut Vec<T>, item: T) -> Result<(), AllocError>
    ensures items { IfOk result (λ done. items.new.items ≡ items.old.items ++ item ∷ []) }
{
    if items.len() < items.capacity() {
        items.push_reserved(item);
        return Ok(());
    }
    push_growing(items, item)
}
