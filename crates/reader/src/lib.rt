// Reading from a text: a number taken off its front, constant bytes, and the form that has one number between them.

#![tactic(auto)]

ghost use Rattle.std.specs.Prelude.{◌≡◌, ◌+◌, IsNone, MatchOption, option_map, slice_get, eqb, length, drop};
ghost use Rattle.reader.specs.Number.{digit_found, number_at, placed};
ghost use Rattle.reader.specs.Form.{skip_at, form_at};

// "The reader keeps the text and a position in it" (document 01, rounds and the answer sheet). What a method takes is
// behind it afterwards; where the text departs from what was to be taken, the answer is `None`.
// The position may be any place, also past the text's end: `Reader { text, at }` stands there.
#[derive(Clone, Copy)]
pub struct Reader<'a> {
    pub text: &'a [u8],
    pub at: usize,
}

impl<'a> Reader<'a> {
    // A reader at the text's start.
    pub fn new(text: &'a [u8]) -> Reader<'a>
        ensures text { result.text.now ≡ text.now }
        ensures at { result.at ≡ 0 }
    {
        Reader { text, at: 0 }
    }

    // The rest of the text, empty past its end.
    fn rest(&self) -> &'a [u8]
        ensures { result.now ≡ drop self.now.at self.now.text.now }
    {
        self.text.get(self.at..).unwrap_or(&[])
    }

    // Whether the text is read to its end, and no further.
    pub fn at_end(&self) -> bool
        ensures { result ≡ eqb self.now.at (length self.now.text.now) }
    {
        self.at == self.text.len()
    }

    // The byte at the position, if the text goes on there.
    pub fn peek(&self) -> Option<u8>
        ensures { result ≡ slice_get self.now.text.now self.now.at }
    {
        self.text.get(self.at).copied()
    }

    // The digit at the position.
    #[tactic(auto, using(crate::proofs::Numbers::peeked), unfolding(crate::specs::Number::digit_at))]
    fn digit(&self) -> Option<u16>
        ensures { result ≡ digit_found self.now.text.now self.now.at }
    {
        match self.peek() {
            Some(b @ b'0'..=b'9') => Some((b - b'0') as u16),
            _ => None,
        }
    }

    // Takes the digit at the position; where none stands there, the position stays.
    fn next_digit(&mut self) -> Option<u16>
        ensures value { result ≡ digit_found self.old.text.now self.old.at }
        ensures text { self.new.text ≡ self.old.text }
        ensures at { MatchOption result (self.new.at ≡ self.old.at) (λ _. self.new.at ≡ self.old.at + 1) }
    {
        let digit = self.digit()?;
        self.at += 1;
        Some(digit)
    }

    // Takes a number: decimal, without leading zeros, at most 65,535.
    pub fn number(&mut self) -> Option<u16>
        ensures value { placed result self.new.at ≡ number_at self.old.text.now self.old.at }
        ensures text { self.new.text ≡ self.old.text }
    {
        let mut value = self.next_digit()?;
        if value == 0 {
            return match self.digit() {
                Some(_) => None,
                None => Some(0),
            };
        }
        while let Some(digit) = self.next_digit() {
            value = value.checked_mul(10)?.checked_add(digit)?;
        }
        Some(value)
    }

    // Takes constant bytes; where others stand there, the position stays.
    #[tactic(auto, using(crate::proofs::Forms::begins_front))]
    pub fn skip(&mut self, bytes: &[u8]) -> Option<()>
        ensures value { option_map (λ _. self.new.at) result ≡ skip_at self.old.text.now self.old.at bytes.now }
        ensures text { self.new.text ≡ self.old.text }
        ensures stays { IsNone result → self.new.at ≡ self.old.at }
    {
        if !self.rest().starts_with(bytes) {
            return None;
        }
        self.at += bytes.len();
        Some(())
    }

    // Takes a number between constant bytes, as in `(rounds 2)`.
    pub fn form(&mut self, head: &[u8], tail: &[u8]) -> Option<u16>
        ensures value { placed result self.new.at ≡ form_at self.old.text.now self.old.at head.now tail.now }
        ensures text { self.new.text ≡ self.old.text }
    {
        self.skip(head)?;
        let value = self.number()?;
        self.skip(tail)?;
        Some(value)
    }
}
