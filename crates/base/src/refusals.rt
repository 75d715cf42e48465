// Why a call is turned away, with what the paper has each refusal name; `specs/Refusals` gives its number.
ghost use Rattle.std.specs.Prelude.{◌≡◌, [], ◌∷◌};
ghost use Rattle.base.specs.Refusals.{refused, amount_of, outcome_of};

use crate::Node;
use crate::numbers::{
    ACCEPTED, BAD_LINE, BAD_RATE, BAD_SUM, BROKEN, COUNT, GAP, LOOP, NOT_ABOVE, OVERLAP,
    SHORT_SPACE, SHORT_TABLE, STRAY, TOO_DEEP, TOPS, UNKNOWN,
};

#[derive(Clone, Copy, PartialEq, Eq)]
pub enum Refusal {
    Count,
    ShortTable,
    ShortSpace,
    Stray(Node),
    Tops(u32),
    Loop(Node),
    Unknown(Node),
    TooDeep(Node),
    Broken,
    NotAbove(Node),
    BadRate,
    BadSum,
    BadLine(u32),
    // A class, and the amount that is in no band, or in more than one.
    Gap(Node, u32),
    Overlap(Node, u32),
}

impl Refusal {
    // The paper's number.
    pub fn number(self) -> u32
        ensures { result ≡ (refused self).number }
    {
        match self {
            Refusal::Count => COUNT,
            Refusal::ShortTable => SHORT_TABLE,
            Refusal::ShortSpace => SHORT_SPACE,
            Refusal::Stray(_) => STRAY,
            Refusal::Tops(_) => TOPS,
            Refusal::Loop(_) => LOOP,
            Refusal::Unknown(_) => UNKNOWN,
            Refusal::TooDeep(_) => TOO_DEEP,
            Refusal::Broken => BROKEN,
            Refusal::NotAbove(_) => NOT_ABOVE,
            Refusal::BadRate => BAD_RATE,
            Refusal::BadSum => BAD_SUM,
            Refusal::BadLine(_) => BAD_LINE,
            Refusal::Gap(_, _) => GAP,
            Refusal::Overlap(_, _) => OVERLAP,
        }
    }

    // What it names: 0, where it names nothing.
    pub fn word(self) -> u32
        ensures { result ≡ (refused self).word }
    {
        match self {
            Refusal::Stray(v) => v.0,
            Refusal::Loop(v) => v.0,
            Refusal::Unknown(v) => v.0,
            Refusal::TooDeep(v) => v.0,
            Refusal::NotAbove(v) => v.0,
            Refusal::Gap(v, _) => v.0,
            Refusal::Overlap(v, _) => v.0,
            Refusal::Tops(word) => word,
            Refusal::BadLine(line) => line,
            _ => 0,
        }
    }

    // The amount that 14 and 15 name beside the class, and else 0.
    pub fn amount(self) -> u32
        ensures { result ≡ amount_of self }
    {
        match self {
            Refusal::Gap(_, amount) => amount,
            Refusal::Overlap(_, amount) => amount,
            _ => 0,
        }
    }
}

// An answer in two words: 0 and what is accepted, or the refusal's number and what it names.
pub fn reply_words(reply: Result<u32, Refusal>) -> [u32; 2]
    ensures { result ≡ (outcome_of reply).number ∷ (outcome_of reply).word ∷ [] }
{
    match reply {
        Ok(word) => [ACCEPTED, word],
        Err(refusal) => [refusal.number(), refusal.word()],
    }
}
