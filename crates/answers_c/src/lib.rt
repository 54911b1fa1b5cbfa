// What C gets of an answer: its two numbers.

#![tactic(auto)]

ghost use Rattle.std.specs.Prelude.{◌≡◌};
ghost use Rattle.answers_c.specs.Numbers.{numbers_of};

use answers::Answer;

// Kept: C has no Result, so an answer crosses as two numbers (include/lavikety.h).
// An answer as C gets it: 16 bytes, which come back in registers on every machine that we compile for.
#[repr(C)]
#[derive(Clone, Copy)]
pub struct CAnswer {
    pub number: u64,
    pub value: u64,
}

pub fn numbers(answer: Answer) -> CAnswer
    ensures { result ≡ numbers_of answer }
{
    let number = answers::number(answer);
    let value = answers::value(answer);
    CAnswer { number, value }
}
