// The check of one sheet and one question with it, held to what they are to answer.
use answers::Answer;
use base::{Node, Sum, reply_words};
use plain_steps::Walk;
use pricing::BandQuote;
use samples::amounts::{Due, signed};
use samples::refusals::{Refusal, numbers};
use samples::tally::Tally;
use samples::words::{narrow, wide};
use sheets::SHEET_WORDS;

// Whether a number with what it names, and the amount beside it, are what they are to be.
fn same(said: [u32; 2], beside: u32, want: Result<usize, Refusal>) -> bool {
    let (number, word) = numbers(want);
    let amount = match want {
        Ok(_) => 0,
        Err(refusal) => refusal.amount(),
    };
    wide(said[0]) == number && wide(said[1]) == word && wide(beside) == amount
}

// Whether a check's answer is what it is to be.
fn same_verdict(given: Result<u32, base::Refusal>, want: Result<usize, Refusal>) -> bool {
    let beside = match given {
        Ok(_) => 0,
        Err(refusal) => refusal.amount(),
    };
    same(reply_words(given), beside, want)
}

pub(crate) fn check(table: &[u32], text: &[u8], d: u32, want: Result<usize, Refusal>) -> Tally {
    Tally::of(same_verdict(sheets::check(table, text, d), want))
}

// The same into words that are all `word`, and stay so where the sheet is refused.
pub(crate) fn check_into(
    table: &[u32],
    text: &[u8],
    d: u32,
    want: Result<usize, Refusal>,
    word: u64,
    sheet: &mut [u64; SHEET_WORDS],
) -> Tally {
    let given = sheets::check_into(table, text, d, sheet);
    let left = want.is_ok() || sheet.iter().all(|w| *w == word);
    Tally::of(same_verdict(given, want) && left)
}

// A question of the price of a size for v at level d, what the lookup and it are to answer, and the walk of the lookup.
#[derive(Clone, Copy)]
pub(crate) struct Question {
    pub(crate) v: usize,
    pub(crate) d: usize,
    pub(crate) size: usize,
    pub(crate) looked: Result<usize, Refusal>,
    pub(crate) want: Result<Due, Refusal>,
    pub(crate) walk: Walk,
}

impl Question {
    // Whether an answer has the lookup's cells, at most ten.
    fn is_walked(&self, given: Answer) -> bool {
        let (number, word) = numbers(self.looked);
        let listed = given.cells;
        let cells = listed.at;
        listed.count <= 10
            && self
                .walk
                .same(narrow(number), narrow(word), listed.count, cells)
    }

    // Whether a quote is what it is to be for a sum of a sign.
    fn is_answered(&self, given: BandQuote, negative: bool) -> bool {
        let answer = given.answer;
        let money = given.cents;
        let said = [answer.number, answer.word];
        let size = self.want.map_or(0, |due| due.cents);
        self.is_walked(answer)
            && same(said, given.amount, self.want.map(|due| due.class))
            && money.0 == signed(negative, size)
    }

    // The question asked in some way, with both signs.
    fn both<F: Fn(Sum) -> BandQuote>(&self, ask: F) -> Tally
        requires { F.IsAlwaysCallable ask }
    {
        let added = ask(Sum(signed(false, self.size)));
        let taken = ask(Sum(signed(true, self.size)));
        Tally::of(self.is_answered(added, false)).plus(Tally::of(self.is_answered(taken, true)))
    }

    // With a text.
    pub(crate) fn price(&self, table: &[u32], text: &[u8]) -> Tally {
        let (v, d) = (narrow(self.v), narrow(self.d));
        self.both(|sum| pricing::price(table, text, Node(v), d, sum))
    }

    // With a checked sheet.
    pub(crate) fn quotation(&self, table: &[u32], sheet: &[u64; SHEET_WORDS]) -> Tally {
        let v = narrow(self.v);
        self.both(|sum| pricing::quotation(table, sheet, Node(v), sum))
    }
}
