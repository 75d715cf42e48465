// What a call is to be turned away for, by the numbers of the answers.
ghost use Rattle.std.specs.Prelude.{◌≡◌};
ghost use Rattle.samples.specs.Refusals.{number_of, word_of, amount_of, numbers_of};

// Each with the entry, the line or the count that the answer names.
#[derive(Clone, Copy, PartialEq, Eq)]
pub enum Refusal {
    NoEntries,
    ShortTable,
    ShortSpace,
    // the word of the entry is neither an entry nor the top mark
    Stray(usize),
    // the second top, or the number of entries where there is none
    Tops(usize),
    // the climb of the entry never meets the top
    Lost(usize),
    Unknown(usize),
    TooDeep(usize),
    // the table
    Broken,
    NotAbove(usize),
    BadRate,
    BadSum,
    BadLine(usize),
    // a class, and the amount that no band holds, or more than one
    Gap(usize, usize),
    Shared(usize, usize),
}

impl Refusal {
    pub fn number(self) -> usize
        ensures { result ≡ number_of self }
    {
        match self {
            Refusal::NoEntries => 1,
            Refusal::ShortTable => 2,
            Refusal::ShortSpace => 3,
            Refusal::Stray(_) => 4,
            Refusal::Tops(_) => 5,
            Refusal::Lost(_) => 6,
            Refusal::Unknown(_) => 7,
            Refusal::TooDeep(_) => 8,
            Refusal::Broken => 9,
            Refusal::NotAbove(_) => 10,
            Refusal::BadRate => 11,
            Refusal::BadSum => 12,
            Refusal::BadLine(_) => 13,
            Refusal::Gap(_, _) => 14,
            Refusal::Shared(_, _) => 15,
        }
    }

    // What the answer names, or 0 for nothing.
    pub fn word(self) -> usize
        ensures { result ≡ word_of self }
    {
        match self {
            Refusal::Stray(v) | Refusal::Tops(v) | Refusal::Lost(v) => v,
            Refusal::Unknown(v) | Refusal::TooDeep(v) | Refusal::NotAbove(v) => v,
            Refusal::BadLine(line) => line,
            Refusal::Gap(class, _) | Refusal::Shared(class, _) => class,
            _ => 0,
        }
    }

    // The amount beside a class, or 0.
    pub fn amount(self) -> usize
        ensures { result ≡ amount_of self }
    {
        match self {
            Refusal::Gap(_, amount) | Refusal::Shared(_, amount) => amount,
            _ => 0,
        }
    }
}

// The number and the word of an answer: 0 and what is found, or a refusal's.
pub fn numbers(outcome: Result<usize, Refusal>) -> (usize, usize)
    ensures { result ≡ numbers_of outcome }
{
    match outcome {
        Ok(word) => (0, word),
        Err(refusal) => (refusal.number(), refusal.word()),
    }
}
