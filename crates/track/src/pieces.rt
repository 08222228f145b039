//! Texts that are made piece by piece.
ghost use Rattle.std.specs.Prelude.{◌≡◌, ◌<◌, ◌++◌, ℕ, List, [], length, true, false};
ghost use Rattle.std.specs.List.{concat};

use input_text::InputLines;
use json_form::ReportParts;
use report_text::{Lines, PlanParts};

/// A text that is made piece by piece.
pub(crate) trait Pieces {
    /// What `made` hands out.
    ghost piece: { Self → List ℕ };

    /// What is left of the text.
    ghost left: { Self → List ℕ };

    /// What each piece makes less.
    ghost size: { Self → ℕ };

    /// Makes the next piece, and answers whether there was one left.
    fn make_next(&mut self) -> bool
        ensures more { result ≡ true → left self.old ≡ piece self.new ++ left self.new }
        ensures less { result ≡ true → size self.new < size self.old }
        ensures none { result ≡ false → left self.old ≡ [] };

    /// The piece that `make_next` has just made. Before the first, and where none was left, nothing
    /// is said of it.
    fn made(&self) -> &[u8]
        ensures { result.now ≡ piece self.now };
}

impl<'a> Pieces for Lines<'a> {
    ghost piece = { λ l. l.line };

    ghost left = { λ l. concat l.left };

    ghost size = { λ l. length l.left };

    fn make_next(&mut self) -> bool {
        self.advance()
    }

    fn made(&self) -> &[u8] {
        self.line()
    }
}

impl<'a> Pieces for InputLines<'a> {
    ghost piece = { λ l. l.line };

    ghost left = { λ l. concat l.left };

    ghost size = { λ l. length l.left };

    fn make_next(&mut self) -> bool {
        self.advance()
    }

    fn made(&self) -> &[u8] {
        self.line()
    }
}

impl<'a> Pieces for PlanParts<'a> {
    ghost piece = { λ p. p.part };

    ghost left = { λ p. p.left };

    ghost size = { λ p. length p.left };

    fn make_next(&mut self) -> bool {
        self.advance()
    }

    fn made(&self) -> &[u8] {
        self.part()
    }
}

impl<'a> Pieces for ReportParts<'a> {
    ghost piece = { λ p. p.part };

    ghost left = { λ p. p.left };

    ghost size = { λ p. length p.left };

    fn make_next(&mut self) -> bool {
        self.advance()
    }

    fn made(&self) -> &[u8] {
        self.part()
    }
}
