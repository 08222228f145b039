//! The pointer of a box and its allocator, apart.
ghost use Rattle.std.specs.Prelude.{◌≡◌};
ghost use Rattle.std.specs.Box.Ownership.{box_owns};

use std::alloc::Allocator;
use std::marker::Model;

// What a box has, in sight of the module above: it owns what the box owned.
pub struct BoxParts<T, A: Allocator> {
    pub(super) at: *mut T,
    pub(super) alloc: A,
    pub ghost value: { T },
}

impl<T, A: Allocator> Model for BoxParts<T, A> {
    ghost also_owns = { λ parts. box_owns (A.dealloc_token parts.alloc) T.row parts.at parts.value };
}

impl<T, A: Allocator> BoxParts<T, A> {
    // The parts of a box.
    pub fn of_box(whole: Box<T, A>) -> BoxParts<T, A>
    where
        T: Drop,
        ensures { result.value ≡ whole.value }
    {
        let (at, alloc) = Box::into_raw_with_allocator(whole);
        BoxParts { at, alloc }
    }

    // The box of these parts.
    pub fn whole(self) -> Box<T, A>
        ensures { result.value ≡ self.value }
    {
        let BoxParts { at, alloc } = self;
        unsafe { Box::from_raw(alloc, at) }
    }
}
