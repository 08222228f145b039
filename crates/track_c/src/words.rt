//! Cells' words as fields, and back.
ghost use Rattle.std.specs.Prelude.{◌≡◌};
ghost use Rattle.track_c.specs.Faults.{Tells};
ghost use Rattle.track_c.specs.Words.{entry_fields, entry_packed, entry_read, entry_with, fields, mark_fields, mark_packed, mark_read, mark_with};

use crate::fault::Fault;
use crate::telling::tell;
use entry_word::{Address, PresenceMark, pack_address, pack_mark, unpack_address, unpack_mark};

/// What a word says: a kind, a number and a node. Of a presence the kind is 0 (nothing), 1 (here),
/// 2 (gone to the node), 3 (coming from the node) or 4 (here, and off); of an entry it is 0
/// (nothing) or 1 (an address: the node, and the number of the move there). A part that a kind
/// doesn't use is 0.
#[repr(C)]
#[derive(Clone, Copy)]
pub struct TrackFields {
    pub kind: u32,
    pub number: u32,
    pub node: u32,
}

// These fields.
fn with_fields(kind: u32, number: u32, node: u16) -> TrackFields
    ensures { result ≡ fields kind number node }
{
    TrackFields {
        kind,
        number,
        node: u32::from(node),
    }
}

// The fields of a mark.
fn fields_of_mark(mark: PresenceMark) -> TrackFields
    ensures { result ≡ mark_fields mark }
{
    match mark {
        PresenceMark::Empty => with_fields(0, 0, 0),
        PresenceMark::Here { number } => with_fields(1, number, 0),
        PresenceMark::Gone { number, to } => with_fields(2, number, to),
        PresenceMark::Coming { number, from } => with_fields(3, number, from),
        PresenceMark::Off { number } => with_fields(4, number, 0),
    }
}

// The fields of an entry.
fn fields_of_entry(entry: Option<Address>) -> TrackFields
    ensures { result ≡ entry_fields entry }
{
    match entry {
        None => with_fields(0, 0, 0),
        Some(Address { number, node }) => with_fields(1, number, node),
    }
}

// The mark with these fields, if there is one.
fn mark_from_fields(told: TrackFields) -> Option<PresenceMark>
    ensures { result ≡ mark_with told }
{
    let TrackFields { kind, number, node } = told;
    if node >= 1 << 16 {
        return None;
    }
    let place = node as u16;
    match kind {
        0 if number == 0 && node == 0 => Some(PresenceMark::Empty),
        1 if node == 0 => Some(PresenceMark::Here { number }),
        2 => Some(PresenceMark::Gone { number, to: place }),
        3 => Some(PresenceMark::Coming {
            number,
            from: place,
        }),
        4 if node == 0 => Some(PresenceMark::Off { number }),
        _ => None,
    }
}

// The entry with these fields, if there is one.
fn entry_from_fields(told: TrackFields) -> Option<Option<Address>>
    ensures { result ≡ entry_with told }
{
    let TrackFields { kind, number, node } = told;
    if node >= 1 << 16 {
        return None;
    }
    match kind {
        0 if number == 0 && node == 0 => Some(None),
        1 => Some(Some(Address {
            number,
            node: node as u16,
        })),
        _ => None,
    }
}

// The fields of a word of a presence.
fn read_mark(word: u64) -> Result<TrackFields, Fault>
    ensures { result ≡ mark_read word }
{
    match unpack_mark(word) {
        Some(mark) => Ok(fields_of_mark(mark)),
        None => Err(Fault::BadWord),
    }
}

// The fields of a word of an entry.
fn read_entry(word: u64) -> Result<TrackFields, Fault>
    ensures { result ≡ entry_read word }
{
    match unpack_address(word) {
        Some(entry) => Ok(fields_of_entry(entry)),
        None => Err(Fault::BadWord),
    }
}

// The word of a presence with these fields.
fn packed_mark(told: TrackFields) -> Result<u64, Fault>
    ensures { result ≡ mark_packed told }
{
    match mark_from_fields(told) {
        Some(mark) => Ok(pack_mark(mark)),
        None => Err(Fault::BadFields),
    }
}

// The word of an entry with these fields.
fn packed_entry(told: TrackFields) -> Result<u64, Fault>
    ensures { result ≡ entry_packed told }
{
    match entry_from_fields(told) {
        Some(entry) => Ok(pack_address(entry)),
        None => Err(Fault::BadFields),
    }
}

/// What the word of a presence says.
#[unsafe(no_mangle)]
pub extern "C" fn track_mark_read(word: u64, fields: &mut TrackFields) -> u32
    ensures { Tells (mark_read word) result fields.old fields.new }
{
    tell(fields, read_mark(word))
}

/// The word of a presence that says this.
#[unsafe(no_mangle)]
pub extern "C" fn track_mark_pack(fields: &TrackFields, word: &mut u64) -> u32
    ensures { Tells (mark_packed fields.now) result word.old word.new }
{
    tell(word, packed_mark(*fields))
}

/// What the word of an entry says.
#[unsafe(no_mangle)]
pub extern "C" fn track_entry_read(word: u64, fields: &mut TrackFields) -> u32
    ensures { Tells (entry_read word) result fields.old fields.new }
{
    tell(fields, read_entry(word))
}

/// The word of an entry that says this.
#[unsafe(no_mangle)]
pub extern "C" fn track_entry_pack(fields: &TrackFields, word: &mut u64) -> u32
    ensures { Tells (entry_packed fields.now) result word.old word.new }
{
    tell(word, packed_entry(*fields))
}
