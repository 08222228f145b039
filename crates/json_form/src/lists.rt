//! The pieces of JSON that inputs and reports share: keys with their numbers, and lists.
ghost use Rattle.std.specs.Prelude.{◌≡◌, ◌<◌, ◌≤◌, ◌+◌, ◌*◌, ◌++◌, ◌∷◌, [], length, flat_map, OnOk, true};
ghost use Rattle.std.specs.Fmt.{decimal};
ghost use Rattle.serde_json.specs.Written.{compact_text};
ghost use Rattle.json_form.specs.Left.{closing, list_left, member_text, opening};
ghost use Rattle.json_form.specs.Values.{whole, wholes};

use std::alloc::AllocError;
use text_line::Line;

const MOST_IN_A_PIECE: usize = 63;

// A key, with what stands before it, and its number.
pub(crate) fn write_member(line: &mut Line, key: &str, number: u64)
    requires { length line.old + length key.now + 41 ≤ 4096 }
    ensures text { line.new ≡ line.old ++ member_text key.now number }
    ensures long { length line.new ≤ length line.old + length key.now + 41 }
{
    line.word(key);
    line.number_after(b':', number);
}

// The same with a shorter number.
pub(crate) fn write_small(line: &mut Line, key: &str, number: u32)
    requires { length line.old + length key.now + 41 ≤ 4096 }
    ensures text { line.new ≡ line.old ++ member_text key.now number }
    ensures long { length line.new ≤ length line.old + length key.now + 41 }
{
    write_member(line, key, u64::from(number));
}

// What stands before an item of a list.
pub(crate) fn write_opening(line: &mut Line, begun: bool)
    requires { line.old ≡ [] }
    ensures text { line.new ≡ opening begun }
    ensures long { length line.new ≤ 1 }
{
    line.word(if begun { "," } else { "[" });
}

// What stands after the items of a list.
pub(crate) fn write_closing(line: &mut Line, begun: bool)
    requires { line.old ≡ [] }
    ensures text { line.new ≡ closing begun }
    ensures long { length line.new ≤ 2 }
{
    line.word(if begun { "]" } else { "[]" });
}

// The byte that stands before an item of a list.
fn opening_byte(begun: bool) -> u8
    ensures { opening begun ≡ result ∷ [] }
{
    if begun { b',' } else { b'[' }
}

// Numbers, each after a comma.
pub(crate) fn write_others(line: &mut Line, numbers: &[u32])
    requires { length line.old + 41 * length numbers.now ≤ 4096 }
    ensures text { line.new ≡ line.old ++ flat_map (λ n. 44 ∷ decimal n) numbers.now }
    ensures long { length line.new ≤ length line.old + 41 * length numbers.now }
{
    for &number in numbers {
        line.number_after(b',', u64::from(number));
    }
}

// Writes the first numbers of a list that isn't empty, and returns the rest.
pub(crate) fn write_numbers<'a>(line: &mut Line, begun: bool, numbers: &'a [u32]) -> &'a [u32]
    requires empty { line.old ≡ [] }
    requires some { 0 < length numbers.now }
    ensures text { list_left begun whole numbers.now
        ≡ line.new ++ list_left true whole result.now }
    ensures written { 0 < length line.new }
    ensures shorter { length result.now < length numbers.now }
{
    let (first, others) = numbers.split_at(1);
    line.number_after(opening_byte(begun), u64::from(first[0]));
    let (now, later) = others.split_at(others.len().min(MOST_IN_A_PIECE));
    write_others(line, now);
    later
}

// What stands on the line goes after the text.
pub(crate) fn push_line(text: &mut Vec<u8>, line: &mut Line) -> Result<(), AllocError>
    ensures text { OnOk result (text.new.items ≡ text.old.items ++ line.old) }
    ensures clear { line.new ≡ [] }
{
    let pushed = text.extend_from_slice(line.bytes());
    line.clear();
    pushed
}

// A list of numbers.
pub(crate) fn push_numbers(
    text: &mut Vec<u8>,
    line: &mut Line,
    numbers: &[u32],
) -> Result<(), AllocError>
    requires { line.old ≡ [] }
    ensures text { OnOk result (text.new.items
        ≡ text.old.items ++ compact_text (wholes numbers.now)) }
    ensures clear { OnOk result (line.new ≡ []) }
{
    let mut left = numbers;
    let mut begun = false;
    'numbers: while !left.is_empty() {
        left = write_numbers(line, begun, left);
        begun = true;
        push_line(text, line)?;
    }
    write_closing(line, begun);
    push_line(text, line)
}
