//! The line that tells an outcome in sums.
ghost use Rattle.std.specs.Prelude.{◌≡◌, ◌<◌, ◌+◌, ◌^◌, ◌++◌, IfOk, OnOk, codes, count_by, if◌then◌else◌};
ghost use Rattle.std.specs.List.{sum_by};
ghost use Rattle.directory.specs.Outcomes.{result_of};
ghost use Rattle.outside.specs.Texts.{field};
ghost use Rattle.report_text.specs.SummaryText.{is_again, is_answer, is_move, summary_of, weight_moved, weight_travelled};

use directory::{Done, Outcome};
use itoa::Buffer;
use std::alloc::{AllocError, Global};

// The sums over some calls.
#[derive(Clone, Copy)]
struct Sums {
    moves: u64,
    moved: u128,
    finds: u64,
    again: u64,
    travelled: u128,
}

impl Sums {
    // One call more.
    fn add(&mut self, call: &Done)
        requires moves { self.old.moves + 1 < 2 ^ 64 }
        requires finds { self.old.finds + 1 < 2 ^ 64 }
        requires again { self.old.again + 1 < 2 ^ 64 }
        requires moved { self.old.moved + 2 ^ 64 < 2 ^ 128 }
        requires travelled { self.old.travelled + 2 ^ 64 < 2 ^ 128 }
        ensures moves { self.new.moves
            ≡ self.old.moves + (if is_move call.now then 1 else 0) }
        ensures finds { self.new.finds
            ≡ self.old.finds + (if is_answer call.now then 1 else 0) }
        ensures again { self.new.again
            ≡ self.old.again + (if is_again call.now then 1 else 0) }
        ensures moved { self.new.moved ≡ self.old.moved + weight_moved call.now }
        ensures travelled { self.new.travelled
            ≡ self.old.travelled + weight_travelled call.now }
        ensures light { weight_moved call.now + weight_travelled call.now < 2 ^ 64 }
    {
        match *call {
            Done::Moved { weight, .. } => {
                self.moves += 1;
                self.moved += u128::from(weight);
            }
            Done::Switched { .. } => {}
            Done::Found { weight, .. } | Done::Off { weight, .. } => {
                self.finds += 1;
                self.travelled += u128::from(weight);
            }
            Done::Again { weight, .. } => {
                self.again += 1;
                self.travelled += u128::from(weight);
            }
        }
    }
}

// The sums over these calls.
fn sums_of(calls: &[Done]) -> Sums
    ensures moves { result.moves ≡ count_by is_move calls.now }
    ensures finds { result.finds ≡ count_by is_answer calls.now }
    ensures again { result.again ≡ count_by is_again calls.now }
    ensures moved { result.moved ≡ sum_by weight_moved calls.now }
    ensures travelled { result.travelled ≡ sum_by weight_travelled calls.now }
{
    let mut sums = Sums {
        moves: 0,
        moved: 0,
        finds: 0,
        again: 0,
        travelled: 0,
    };
    for call in calls {
        sums.add(call);
    }
    sums
}

// A label, a blank and a number, behind what stands there.
pub(crate) fn push_field(text: &mut Vec<u8>, label: &str, number: u128) -> Result<(), AllocError>
    ensures { OnOk result (text.new.items ≡ text.old.items ++ label.now ++ field number) }
{
    let mut buffer = Buffer::new();
    text.extend_from_slice(label.as_bytes())?;
    text.push(b' ')?;
    text.extend_from_slice(buffer.format(number).as_bytes())?;
    Ok(())
}

// The sums over the calls, behind what stands there.
fn push_sums(text: &mut Vec<u8>, sums: &Sums) -> Result<(), AllocError>
    ensures { OnOk result (text.new.items ≡ text.old.items
        ++ codes " moves" ++ field sums.now.moves ++ codes " moved" ++ field sums.now.moved
        ++ codes " finds" ++ field sums.now.finds ++ codes " again" ++ field sums.now.again
        ++ codes " travelled" ++ field sums.now.travelled) }
{
    push_field(text, " moves", u128::from(sums.moves))?;
    push_field(text, " moved", sums.moved)?;
    push_field(text, " finds", u128::from(sums.finds))?;
    push_field(text, " again", u128::from(sums.again))?;
    push_field(text, " travelled", sums.travelled)
}

/// The line that tells an outcome in sums, of 128 bits.
pub fn summary(alloc: Global, outcome: &Outcome) -> Result<Vec<u8>, AllocError>
    ensures { IfOk result (λ text. text.items ≡ summary_of (result_of outcome.now)) }
{
    let sums = sums_of(&outcome.calls);
    let mut text = Vec::from_slice(alloc, b"summary")?;
    push_sums(&mut text, &sums)?;
    push_field(&mut text, " visits", outcome.order.len() as u128)?;
    text.push(b'\n')?;
    Ok(text)
}
