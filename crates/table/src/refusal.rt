// What a call refuses: a rule that is broken, and the place where it is.
ghost use Rattle.std.specs.Prelude.{◌≡◌};
ghost use Rattle.table.specs.Rule.{rule_number};
ghost use Rattle.table.specs.Guard.{refused_at};

use std::error::Error;
use std::fmt;
use std::marker::Model;

// The rules of the operations; the discriminant is document 01's number.
#[derive(Clone, Copy, Debug, PartialEq, Eq)]
pub enum Rule {
    NoStarts = 1,
    ManyVertices = 2,
    ManyLinks = 3,
    Starts = 4,
    Beyond = 5,
    Loop = 6,
    Unsorted = 7,
    Unreturned = 8,
    Length = 9,
    Byte = 10, // or the kind of an event
    TooMany = 11,
    Lent = 12,
    SheetLength = 13,
    Misplaced = 14,
    NoVertex = 15,
    Anchored = 16,
    LongText = 17,
    Departs = 18,
    TooHigh = 19,
    TooLow = 20,
    TooLate = 21,
    Edge = 22,
    Full = 23,
    ManyTerms = 24,
    EmptyTerm = 25,
    Houses = 26,
    NoHouse = 27,
}

impl Rule {
    pub fn number(self) -> u16
        ensures { result ≡ rule_number self }
    {
        self as u16
    }
}

// A refusal: document 01's number, which the rule has, and place.
#[derive(Debug, Drop)]
pub struct Refusal {
    rule: Rule,
    place: usize,
}

impl Model for Refusal {
    ghost use Rattle.table.specs.Rule.{Refusal, rule_number};

    ghost Value = { Refusal };

    ghost view = { λ r. record { number = rule_number r.rule; place = r.place } };
}

impl Refusal {
    pub fn new(rule: Rule, place: usize) -> Refusal
        ensures { result ≡ record { number = rule_number rule; place = place } }
    {
        Refusal { rule, place }
    }

    pub fn number(&self) -> u16
        ensures { result ≡ self.now.number }
    {
        self.rule.number()
    }

    pub fn place(&self) -> usize
        ensures { result ≡ self.now.place }
    {
        self.place
    }
}

impl fmt::Display for Refusal {
    fn fmt<W: fmt::Write>(&self, f: &mut fmt::Formatter<W>) -> fmt::Result {
        write!(f, "refused {} {}", self.number(), self.place)
    }
}

impl Error for Refusal {}

// Refuses where a place was found that breaks the rule.
pub fn refuse(rule: Rule, place: Option<usize>) -> Result<(), Refusal>
    ensures { result ≡ refused_at (rule_number rule) place }
{
    match place {
        Some(p) => Err(Refusal::new(rule, p)),
        None => Ok(()),
    }
}
