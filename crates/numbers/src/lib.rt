// The numbers of an answer, as Rust and C get them.
#![tactic(auto)]

ghost use Rattle.std.specs.Prelude.{◌≡◌, refl, Some, None};
ghost use Rattle.numbers.specs.Numbers.{accepted_as, refused_as, day_as, told_as, answered_as};

use search::Found;
use table::{Refusal, Size};

// 0, the values of an accepted call and the size of its table, or a refusal's number and place.
#[repr(C)]
#[derive(Clone, Copy, Debug, PartialEq, Eq)]
pub struct Answer {
    pub number: u64,
    pub first: u64,
    pub second: u64,
    pub edges: u64,
    pub max_degree: u64,
}

// An accepted call: 0, its values, and the size of its table.
fn accept(first: usize, second: usize, size: Size) -> Answer
    ensures { result ≡ accepted_as first second size }
{
    Answer {
        number: 0,
        first: first as u64,
        second: second as u64,
        edges: size.edges as u64,
        max_degree: size.max_degree as u64,
    }
}

// A refused call: the number and the place, and nothing of a size.
fn refuse(refusal: &Refusal) -> Answer
    ensures { result ≡ refused_as refusal.now }
{
    Answer {
        number: refusal.number() as u64,
        first: refusal.place() as u64,
        second: 0,
        edges: 0,
        max_degree: 0,
    }
}

// What an accepted call hands back.
pub trait Accepted {
    ghost use Rattle.numbers.specs.declared.Answer.{Answer};

    ghost numbers: { Self → Answer };

    fn numbers(self) -> Answer
        ensures { result ≡ numbers self };

    // The number 0 tells it from a refusal.
    ghost is_accepted: { (call : Self) → (numbers call).number ≡ 0 };
}

// The size alone: of a table that is checked, worked, or whose sheet is checked, of a collapse and of a session.
impl Accepted for Size {
    ghost numbers = { accepted_as 0 0 };

    ghost is_accepted = { λ call. refl };

    fn numbers(self) -> Answer {
        accept(0, 0, self)
    }
}

// How many components there are, or the length of a shared sheet.
impl Accepted for (usize, Size) {
    ghost numbers = { λ call. accepted_as call.0 0 call.1 };

    ghost is_accepted = { λ call. refl };

    fn numbers(self) -> Answer {
        let (count, size) = self;
        accept(count, 0, size)
    }
}

// A ceiling.
impl Accepted for (u16, Size) {
    ghost numbers = { λ call. accepted_as call.0 0 call.1 };

    ghost is_accepted = { λ call. refl };

    fn numbers(self) -> Answer {
        let (bound, size) = self;
        accept(bound as usize, 0, size)
    }
}

// The two counts of a search.
impl Accepted for (Found, Size) {
    ghost numbers = { λ call. accepted_as call.0.lifted call.0.reached call.1 };

    ghost is_accepted = { λ call. refl };

    fn numbers(self) -> Answer {
        let (found, size) = self;
        accept(found.lifted, found.reached, size)
    }
}

// The day and 1, or two zeros where there is none.
impl Accepted for (Option<u16>, Size) {
    ghost numbers = { λ call. day_as call.0 call.1 };

    ghost is_accepted = { λ call. elim call.0 as (λ day. (day_as day call.1).number ≡ 0) [ Some day ↦ refl | None ↦ refl ] };

    fn numbers(self) -> Answer {
        match self {
            (Some(day), size) => accept(day as usize, 1, size),
            (None, size) => accept(0, 0, size),
        }
    }
}

impl<T: Accepted> From<Result<T, Refusal>> for Answer {
    ghost from_gives = { λ call answer. answer ≡ told_as T.numbers call };

    fn from(call: Result<T, Refusal>) -> Answer {
        match call {
            Ok(call) => call.numbers(),
            Err(refusal) => refuse(&refusal),
        }
    }
}

// 0 and the sheet's length, or a refusal's number and place.
#[repr(C)]
#[derive(Clone, Copy, Debug, PartialEq, Eq)]
pub struct Sheeted {
    pub number: u64,
    pub value: u64,
}

impl From<Result<usize, Refusal>> for Sheeted {
    ghost from_gives = { λ call sheeted. sheeted ≡ answered_as call };

    fn from(call: Result<usize, Refusal>) -> Sheeted {
        match call {
            Ok(length) => Sheeted {
                number: 0,
                value: length as u64,
            },
            Err(cause) => Sheeted {
                number: cause.number() as u64,
                value: cause.place() as u64,
            },
        }
    }
}
