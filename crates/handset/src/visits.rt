//! The visits that a handset makes.
ghost use Rattle.std.specs.Prelude.{◌≡◌, ◌<◌, ◌^◌, None, Some, if◌then◌else◌};
ghost use Rattle.entry_word.specs.declared.mark.PresenceMark.TheVariants.{Coming, Gone, Here, Off};
ghost use Rattle.entry_word.specs.declared.visit.Act.TheVariants.{Put};
ghost use Rattle.entry_word.specs.declared.visit.Key.TheVariants.{Entry};
ghost use Rattle.directory.specs.Writes.{entry_at, mark_at, visit_of};
ghost use Rattle.entry_word.specs.Addresses.{address_word};

use crate::stage::Journey;
use entry_word::{Act, Address, Key, PresenceMark, Visit, pack_address, pack_mark};

// The word of a new address.
pub fn new_word(number: u32, to: u32) -> u64
    requires { to < 2 ^ 16 }
    ensures { result ≡ address_word (Some (record { number = number; node = to })) }
{
    let node = to as u16;
    pack_address(Some(Address { number, node }))
}

// A write of a mark.
pub fn mark_visit(sub: u32, node: u32, mark: PresenceMark) -> Visit
    ensures { result ≡ visit_of sub (mark_at node mark) }
{
    Visit {
        actor: sub,
        act: Act::Put(Key::Presence { node, sub }, pack_mark(mark)),
    }
}

// A write of an entry.
pub fn entry_visit(sub: u32, level: u32, cluster: u32, word: u64) -> Visit
    ensures { result ≡ record { actor = sub; act = Put (Entry level cluster sub) word } }
{
    Visit {
        actor: sub,
        act: Act::Put(
            Key::Entry {
                level,
                cluster,
                sub,
            },
            word,
        ),
    }
}

// The mark of a subscriber that switches off or on.
pub fn switch_mark(off: bool, number: u32) -> PresenceMark
    ensures { result ≡ (if off then Off number else Here number) }
{
    if off {
        PresenceMark::Off { number }
    } else {
        PresenceMark::Here { number }
    }
}

// The write by which a move says that its subscriber is coming.
pub fn coming_visit(sub: u32, last: Journey) -> Visit
    requires { last.from < 2 ^ 16 }
    ensures { result ≡ visit_of sub (mark_at last.to (Coming last.number last.from)) }
{
    let Journey {
        number,
        from,
        to,
        ..
    } = last;
    let from = from as u16;
    mark_visit(sub, to, PresenceMark::Coming { number, from })
}

// The write by which a move commits.
pub fn gone_visit(sub: u32, last: Journey) -> Visit
    requires { last.to < 2 ^ 16 }
    ensures { result ≡ visit_of sub (mark_at last.from (Gone last.number last.to)) }
{
    let Journey {
        number,
        from,
        to,
        ..
    } = last;
    let to = to as u16;
    mark_visit(sub, from, PresenceMark::Gone { number, to })
}

// The write that confirms a move.
pub fn here_visit(sub: u32, last: Journey) -> Visit
    ensures { result ≡ visit_of sub (mark_at last.to (Here last.number)) }
{
    let Journey { number, to, .. } = last;
    mark_visit(sub, to, PresenceMark::Here { number })
}

// The write of the new address of a level, whose home this is.
pub fn renewal_visit(sub: u32, level: u32, home: u32, last: Journey) -> Visit
    requires { last.to < 2 ^ 16 }
    ensures { result ≡ visit_of sub (entry_at level home (Some (record {
      number = last.number;
      node = last.to;
    }))) }
{
    entry_visit(sub, level, home, new_word(last.number, last.to))
}

// The erasure of the old address of a level, whose home this is.
pub fn erasure_visit(sub: u32, level: u32, home: u32) -> Visit
    ensures { result ≡ visit_of sub (entry_at level home None) }
{
    entry_visit(sub, level, home, pack_address(None))
}
