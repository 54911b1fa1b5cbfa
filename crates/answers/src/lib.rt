// What a call answers: a value, or a refusal with one of the numbers of docs/RULES.md, "Refusal numbers".

#![tactic(auto)]

ghost use Rattle.std.specs.Prelude.{◌≡◌, ℕ};
ghost use Rattle.answers.specs.Paper.{number_of, paper};

use std::error::Error;
use std::fmt;

// One case for each refusal number, 1 to 11, in the order of the numbers.
#[derive(Clone, Copy, Debug, PartialEq, Eq)]
pub enum Refusal {
    BadOrder,
    BadSize,
    BadState,
    BadRange,
    NullStart,
    Overlap,
    BadAlign,
    Misaligned,
    NoBlock,
    NotGranted,
    NoRoom,
}

pub type Answer = Result<u64, Refusal>;

impl From<Refusal> for u64 {
    ghost from_gives = { λ refusal n. n ≡ number_of refusal };

    fn from(refusal: Refusal) -> u64 {
        match refusal {
            Refusal::BadOrder => 1,
            Refusal::BadSize => 2,
            Refusal::BadState => 3,
            Refusal::BadRange => 4,
            Refusal::NullStart => 5,
            Refusal::Overlap => 6,
            Refusal::BadAlign => 7,
            Refusal::Misaligned => 8,
            Refusal::NoBlock => 9,
            Refusal::NotGranted => 10,
            Refusal::NoRoom => 11,
        }
    }
}

impl fmt::Display for Refusal {
    fn fmt<W: fmt::Write>(&self, f: &mut fmt::Formatter<W>) -> fmt::Result {
        write!(f, "refused with {}", u64::from(*self))
    }
}

impl Error for Refusal {}

// 0 for an accepted call, and the refusal's number for a refused one.
pub fn number(answer: Answer) -> u64
    ensures { result ≡ (paper answer).number }
{
    match answer {
        Ok(_) => 0,
        Err(refusal) => u64::from(refusal),
    }
}

// What an accepted call answers beside its 0; 0 for a refused one.
pub fn value(answer: Answer) -> u64
    ensures { result ≡ (paper answer).value }
{
    answer.unwrap_or(0)
}
