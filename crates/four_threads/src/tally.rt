//! What a finder counts.

use directory::Found;

/// What a finder counts: its answers, how many of them were right, and the last number.
#[derive(Clone, Copy)]
pub struct Tally {
    pub answers: u32,
    pub right: u32,
    pub number: u32,
}

impl Tally {
    /// Before the first answer, where so many moves are known.
    pub fn new(number: u32) -> Tally {
        Tally {
            answers: 0,
            right: 0,
            number,
        }
    }

    /// With one answer more. The mover begins at node 3 and goes to and fro, so that it stands
    /// there after an even number of moves, and at node 0 after an odd one. Numbers never fall.
    pub fn with(self, found: Found) -> Tally {
        let Found::At { node, number, .. } = found else {
            return self;
        };
        let wanted = if number % 2 == 0 { 3 } else { 0 };
        let is_right = node == wanted && self.number <= number;
        Tally {
            answers: self.answers.saturating_add(1),
            right: self.right.saturating_add(u32::from(is_right)),
            number,
        }
    }
}
