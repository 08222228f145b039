//! A place in a report that is read from its front.
ghost use Rattle.std.specs.Prelude.{◌≡◌, ◌≤◌, ◌<◌, ◌^◌, ◌++◌, ◌∷◌, [], ℕ, List, Some, None, IfSome, IfNone, drop, length};
ghost use Rattle.outside.specs.Texts.{field, fields};
ghost use Rattle.report_check.specs.Reading.{closing_in, digits_from, digits_in, given_in, labelled_in, most, number_in, starts_with_digit, word_in};

use crate::calls::MOST;
use itoa::Buffer;

// What is left of a report.
#[derive(Clone, Copy)]
pub(crate) struct Cursor<'a> {
    pub(crate) rest: &'a [u8],
}

// Whether a text begins with a digit.
fn starts_with_digit(text: &[u8]) -> bool
    ensures { result ≡ starts_with_digit text.now }
{
    match text {
        [byte, ..] => byte.is_ascii_digit(),
        [] => false,
    }
}

// A number of one to three digits behind a blank, where more bytes stand behind it and no digit,
// and how many bytes it takes.
fn short_number(text: &[u8]) -> Option<(u64, usize)>
    ensures some { IfSome result (λ found. number_in most text.now
        ≡ Some (found.0, drop found.1 text.now)) }
    ensures within { IfSome result (λ found. found.1 ≤ length text.now) }
{
    let [blank, a, b, c, d, ..] = text else {
        return None;
    };
    if *blank != b' ' || !a.is_ascii_digit() {
        return None;
    }
    let first = u64::from(*a - b'0');
    if !b.is_ascii_digit() {
        return Some((first, 2));
    }
    if *a == b'0' {
        return None;
    }
    let second = u64::from(*b - b'0');
    if !c.is_ascii_digit() {
        return Some((10 * first + second, 3));
    }
    if d.is_ascii_digit() {
        return None;
    }
    let third = u64::from(*c - b'0');
    Some((10 * (10 * first + second) + third, 4))
}

impl<'a> Cursor<'a> {
    // Goes behind the line's end, where it comes next.
    pub(crate) fn line_end(&mut self) -> Option<()>
        ensures some { IfSome result (λ done. word_in (10 ∷ []) self.old.rest.now
            ≡ Some self.new.rest.now) }
        ensures none { IfNone result (word_in (10 ∷ []) self.old.rest.now ≡ None) }
        ensures still { IfNone result (self.new.rest.now ≡ self.old.rest.now) }
    {
        let [byte, others @ ..] = self.rest else {
            return None;
        };
        if *byte != b'\n' {
            return None;
        }
        self.rest = others;
        Some(())
    }

    // Goes behind these bytes, where they come next.
    pub(crate) fn bytes(&mut self, word: &[u8]) -> Option<()>
        ensures some { IfSome result (λ done. word_in word.now self.old.rest.now
            ≡ Some self.new.rest.now) }
        ensures none { IfNone result (word_in word.now self.old.rest.now ≡ None) }
        ensures still { IfNone result (self.new.rest.now ≡ self.old.rest.now) }
    {
        let mut rest = self.rest;
        'bytes: for byte in word {
            match rest {
                [] => return None,
                [first, others @ ..] => {
                    if *byte != *first {
                        return None;
                    }
                    rest = others;
                }
            }
        }
        self.rest = rest;
        Some(())
    }

    // The same of a word.
    pub(crate) fn word(&mut self, word: &str) -> Option<()>
        ensures some { IfSome result (λ done. word_in word.now self.old.rest.now
            ≡ Some self.new.rest.now) }
        ensures none { IfNone result (word_in word.now self.old.rest.now ≡ None) }
        ensures still { IfNone result (self.new.rest.now ≡ self.old.rest.now) }
    {
        self.bytes(word.as_bytes())
    }

    // Digits that go on with a number.
    fn digits_from(&mut self, limit: u64, value: u64) -> Option<u64>
        requires { value < limit }
        ensures some { IfSome result (λ n. digits_from limit value self.old.rest.now
            ≡ Some (n, self.new.rest.now)) }
        ensures none { IfNone result (digits_from limit value self.old.rest.now ≡ None) }
        ensures small { IfSome result (λ n. n < limit) }
    {
        let mut rest = self.rest;
        let mut number = value;
        'digits: while let [byte, others @ ..] = rest {
            if !byte.is_ascii_digit() {
                self.rest = rest;
                return Some(number);
            }
            let more = 10 * u128::from(number) + u128::from(*byte - b'0');
            if more >= u128::from(limit) {
                return None;
            }
            number = more as u64;
            rest = others;
        }
        self.rest = rest;
        Some(number)
    }

    // A number below this limit, without leading zeros.
    fn digits(&mut self, limit: u64) -> Option<u64>
        ensures some { IfSome result (λ n. digits_in limit self.old.rest.now
            ≡ Some (n, self.new.rest.now)) }
        ensures none { IfNone result (digits_in limit self.old.rest.now ≡ None) }
        ensures small { IfSome result (λ n. n < limit) }
    {
        if limit == 0 {
            return None;
        }
        let [first, others @ ..] = self.rest else {
            return None;
        };
        if *first == b'0' {
            if starts_with_digit(others) {
                return None;
            }
            self.rest = others;
            return Some(0);
        }
        if !first.is_ascii_digit() {
            return None;
        }
        self.digits_from(limit, 0)
    }

    // A blank, and a number below this limit.
    pub(crate) fn number(&mut self, limit: u64) -> Option<u64>
        ensures some { IfSome result (λ n. number_in limit self.old.rest.now
            ≡ Some (n, self.new.rest.now)) }
        ensures none { IfNone result (number_in limit self.old.rest.now ≡ None) }
        ensures small { IfSome result (λ n. n < limit) }
    {
        self.word(" ")?;
        self.digits(limit)
    }

    // A blank and a number of a list, most of which are short.
    pub(crate) fn listed(&mut self) -> Option<u64>
        ensures some { IfSome result (λ n. number_in most self.old.rest.now
            ≡ Some (n, self.new.rest.now)) }
        ensures none { IfNone result (number_in most self.old.rest.now ≡ None) }
    {
        match short_number(self.rest) {
            Some(found) => {
                let (number, count) = found;
                self.rest = &self.rest[count..];
                Some(number)
            }
            None => self.number(MOST),
        }
    }

    // A label, a blank, and a number below this limit.
    pub(crate) fn labelled(&mut self, label: &str, limit: u64) -> Option<u64>
        ensures some { IfSome result (λ n. labelled_in label.now limit self.old.rest.now
            ≡ Some (n, self.new.rest.now)) }
        ensures none { IfNone result (labelled_in label.now limit self.old.rest.now ≡ None) }
        ensures small { IfSome result (λ n. n < limit) }
    {
        self.word(label)?;
        self.number(limit)
    }

    // A label, a blank, a number, and the line's end.
    pub(crate) fn closing(&mut self, label: &str) -> Option<u64>
        ensures some { IfSome result (λ n. closing_in label.now self.old.rest.now
            ≡ Some (n, self.new.rest.now)) }
        ensures none { IfNone result (closing_in label.now self.old.rest.now ≡ None) }
    {
        let number = self.labelled(label, MOST)?;
        self.bytes(b"\n")?;
        Some(number)
    }

    // A blank, and this number.
    fn given(&mut self, number: u32) -> Option<()>
        ensures some { IfSome result (λ done. word_in (field number) self.old.rest.now
            ≡ Some self.new.rest.now) }
        ensures none { IfNone result (word_in (field number) self.old.rest.now ≡ None) }
    {
        self.word(" ")?;
        let mut buffer = Buffer::new();
        self.bytes(buffer.format(number).as_bytes())
    }

    // These numbers, each behind a blank.
    pub(crate) fn all_given(&mut self, numbers: &[u32]) -> Option<()>
        ensures some { IfSome result (λ done. word_in (fields numbers.now) self.old.rest.now
            ≡ Some self.new.rest.now) }
        ensures none { IfNone result (word_in (fields numbers.now) self.old.rest.now ≡ None) }
    {
        'numbers: for number in numbers {
            self.given(*number)?;
        }
        Some(())
    }

    // A word, and these numbers.
    pub(crate) fn given_behind(&mut self, word: &str, numbers: &[u32]) -> Option<()>
        ensures some { IfSome result (λ done. given_in word.now numbers.now self.old.rest.now
            ≡ Some self.new.rest.now) }
        ensures none { IfNone result (given_in word.now numbers.now self.old.rest.now ≡ None) }
    {
        self.word(word)?;
        self.all_given(numbers)
    }

    // A word, and this number.
    pub(crate) fn one_behind(&mut self, word: &str, number: u32) -> Option<()>
        ensures some { IfSome result (λ done. given_in word.now (number ∷ []) self.old.rest.now
            ≡ Some self.new.rest.now) }
        ensures none { IfNone result (given_in word.now (number ∷ []) self.old.rest.now ≡ None) }
    {
        self.given_behind(word, &[number])
    }
}
