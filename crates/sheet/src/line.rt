// Writing the lines of the answer sheet, and the line of a refusal, into lent bytes.
ghost use Rattle.std.specs.Prelude.{◌≡◌, [], ◌∷◌, ◌++◌, ◌+◌, ◌≤◌, ◌<◌, length, eqb};
ghost use Rattle.finite.specs.Bytes.{digit, decimal};
ghost use Rattle.sheet.specs.Written.{Written};
ghost use Rattle.sheet.specs.Writing.{HasRoom, Wrote};
ghost use Rattle.sheet.specs.Parted.{Parted};
ghost use Rattle.sheet.specs.Line.{two_digits, four_digits, sign, lifted_by, signs, name_of};
ghost use Rattle.sheet.specs.Line.{round_part, retain_part, marks_part, redone_part, line_of, refused_line};

// A round's line: whom it retains, nobody where none is left to retain, the vertices that it lifted (mark 2), and how many rows it redid; the
// place behind it.
pub fn put_line(
    out: &mut [u8],
    at: usize,
    round: u16,
    chosen: Option<u16>,
    marks: &[u8],
    redone: u16,
) -> usize
    requires { at + (48 + length marks.now) ≤ length out.old }
    ensures { Written out.old at (line_of round chosen (lifted_by marks.now) (length marks.now) redone) out.new result }
{
    let mut line = Writer { out, at };
    line.round(round);
    line.retain(chosen);
    line.marks(marks);
    line.redone(redone);
    line.at
}

// `(refused N P)` and byte 10, at the front of `out`; its length.
pub fn put_refused(out: &mut [u8], number: usize, place: usize) -> usize
    requires { 52 ≤ length out.old }
    ensures { Written out.old 0 (refused_line number place) out.new result }
{
    let mut line = Writer { out, at: 0 };
    line.labeled(b"(refused ", number);
    line.labeled(b" ", place);
    line.text(b")\n");
    line.at
}

// A field of four digits; the place behind it.
pub fn put_four(out: &mut [u8], at: usize, v: u16) -> usize
    requires { at + 4 ≤ length out.old }
    ensures { Written out.old at (four_digits v) out.new result }
{
    let mut field = Writer { out, at };
    field.four(v);
    field.at
}

// A place in lent bytes. Each method writes there, and the place is then behind what it wrote.
#[derive(Drop)]
struct Writer<'a> {
    out: &'a mut [u8],
    at: usize,
}

impl<'a> Writer<'a> {
    // `(round 01`
    fn round(&mut self, round: u16)
        requires { HasRoom self.old 9 }
        ensures same_reference { self.new.out.ghost_name ≡ self.old.out.ghost_name }
        ensures wrote { Wrote self.old (round_part round) self.new }
    {
        self.text(b"(round ");
        self.two(round);
    }

    // ` (retain 0000)`
    fn retain(&mut self, chosen: Option<u16>)
        requires { HasRoom self.old 14 }
        ensures same_reference { self.new.out.ghost_name ≡ self.old.out.ghost_name }
        ensures wrote { Wrote self.old (retain_part chosen) self.new }
    {
        self.text(b" (retain ");
        self.name(chosen);
        self.text(b")");
    }

    // ` (marks .++.)`
    fn marks(&mut self, marks: &[u8])
        requires { HasRoom self.old (9 + length marks.now) }
        ensures same_reference { self.new.out.ghost_name ≡ self.old.out.ghost_name }
        ensures wrote { Wrote self.old (marks_part (lifted_by marks.now) (length marks.now)) self.new }
    {
        self.text(b" (marks ");
        self.signs(marks);
        self.text(b")");
    }

    // ` (redone 0002))` and byte 10
    fn redone(&mut self, redone: u16)
        requires { HasRoom self.old 16 }
        ensures same_reference { self.new.out.ghost_name ≡ self.old.out.ghost_name }
        ensures wrote { Wrote self.old (redone_part redone) self.new }
    {
        self.text(b" (redone ");
        self.four(redone);
        self.text(b"))\n");
    }

    // Four digits of the vertex, or four dashes.
    fn name(&mut self, chosen: Option<u16>)
        requires { HasRoom self.old 4 }
        ensures same_reference { self.new.out.ghost_name ≡ self.old.out.ghost_name }
        ensures wrote { Wrote self.old (name_of chosen) self.new }
    {
        match chosen {
            Some(v) => self.four(v),
            None => self.text(b"----"),
        }
    }

    // One sign a vertex.
    fn signs(&mut self, marks: &[u8])
        requires { HasRoom self.old (length marks.now) }
        ensures same_reference { self.new.out.ghost_name ≡ self.old.out.ghost_name }
        ensures wrote { Wrote self.old (signs (lifted_by marks.now) (length marks.now)) self.new }
    {
        for mark in marks {
            self.byte(sign_of(*mark));
        }
    }

    // A label, then a number without leading zeros.
    fn labeled(&mut self, label: &[u8], v: usize)
        requires { HasRoom self.old (length label.now + length (decimal v)) }
        ensures same_reference { self.new.out.ghost_name ≡ self.old.out.ghost_name }
        ensures wrote { Wrote self.old (label.now ++ decimal v) self.new }
    {
        self.text(label);
        self.decimal(v);
    }

    // A number without leading zeros: the digits before the last, then the last.
    fn decimal(&mut self, v: usize)
        requires { HasRoom self.old (length (decimal v)) }
        ensures same_reference { self.new.out.ghost_name ≡ self.old.out.ghost_name }
        ensures wrote { Wrote self.old (decimal v) self.new }
    {
        if v >= 10 {
            self.decimal(v / 10);
        }
        self.digit(v);
    }

    // Two digits.
    fn two(&mut self, v: u16)
        requires { HasRoom self.old 2 }
        ensures same_reference { self.new.out.ghost_name ≡ self.old.out.ghost_name }
        ensures wrote { Wrote self.old (two_digits v) self.new }
    {
        self.digit(usize::from(v) / 10);
        self.digit(usize::from(v));
    }

    // The last digit of a number.
    fn digit(&mut self, v: usize)
        requires { HasRoom self.old 1 }
        ensures same_reference { self.new.out.ghost_name ≡ self.old.out.ghost_name }
        ensures wrote { Wrote self.old (digit v ∷ []) self.new }
    {
        self.byte(b'0' + (v % 10) as u8);
    }

    // The writer of every field of four digits, by comparison and subtraction: for a handset that does not divide. A field has the number's
    // last four digits, so ten thousands are taken off first.
    fn four(&mut self, v: u16)
        requires { HasRoom self.old 4 }
        ensures same_reference { self.new.out.ghost_name ≡ self.old.out.ghost_name }
        ensures wrote { Wrote self.old (four_digits v) self.new }
    {
        let beyond = take_units(v, 10000);
        let thousands = take_units(beyond.rest, 1000);
        let hundreds = take_units(thousands.rest, 100);
        let tens = take_units(hundreds.rest, 10);
        let digits = [
            b'0' + thousands.count as u8,
            b'0' + hundreds.count as u8,
            b'0' + tens.count as u8,
            b'0' + tens.rest as u8,
        ];
        self.text(&digits);
    }

    // A text.
    fn text(&mut self, text: &[u8])
        requires { HasRoom self.old (length text.now) }
        ensures same_reference { self.new.out.ghost_name ≡ self.old.out.ghost_name }
        ensures wrote { Wrote self.old text.now self.new }
    {
        for byte in text {
            self.byte(*byte);
        }
    }

    fn byte(&mut self, b: u8)
        requires { HasRoom self.old 1 }
        ensures same_reference { self.new.out.ghost_name ≡ self.old.out.ghost_name }
        ensures wrote { Wrote self.old (b ∷ []) self.new }
    {
        self.out[self.at] = b;
        self.at += 1;
    }
}

// The sign of a vertex by its mark.
fn sign_of(mark: u8) -> u8
    ensures { result ≡ sign (eqb mark 2) }
{
    if mark == 2 { b'+' } else { b'.' }
}

// A number as so many units and a rest.
#[derive(Drop)]
struct Units {
    count: u16,
    rest: u16,
}

// Takes units off a number until less than one is left.
fn take_units(v: u16, unit: u16) -> Units
    requires { 0 < unit }
    ensures { Parted v unit result }
{
    let mut count: u16 = 0;
    let mut rest = v;
    // no range has its number of turns: that is the quotient, found without dividing
    while unit <= rest {
        rest -= unit;
        count += 1;
    }
    Units { count, rest }
}
