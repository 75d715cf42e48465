// One premium question to the engine, held to what it is to answer.
use answers::Answer;
use base::{Node, Sum};
use plain_steps::Walk;
use samples::amounts::{Due, MOST_RATE, MOST_SUM, cents, product, signed};
use samples::refusals::{Refusal, numbers};
use samples::tally::Tally;
use samples::words::{narrow, wide};

// The table that is asked, the shapes' strings, the rates, and the list that the table is of.
#[derive(Clone, Copy)]
pub(crate) struct Trial<'a> {
    pub(crate) table: &'a [u32],
    pub(crate) strings: &'a [u32],
    pub(crate) rates: &'a [u32],
    pub(crate) parents: &'a [u32],
}

// What a rating lookup is to answer.
pub(crate) type Looked = Result<usize, Refusal>;

// The lookup's refusals first, then the rate's, then the sum's.
fn wanted(rates: &[u32], looked: Looked, size: usize) -> Result<Due, Refusal> {
    let class = looked?;
    let rate = wide(*rates.get(class).ok_or(Refusal::BadRate)?);
    if MOST_RATE < rate {
        return Err(Refusal::BadRate);
    }
    if MOST_SUM < size {
        return Err(Refusal::BadSum);
    }
    Ok(Due {
        class,
        cents: cents(product(size, rate)),
    })
}

// Whether an answer has the cells of the lookup, at most ten.
fn walked(given: Answer, walk: Walk, looked: Looked) -> bool {
    let (number, word) = numbers(looked);
    let listed = given.cells;
    let cells = listed.at;
    listed.count <= 10 && walk.same(narrow(number), narrow(word), listed.count, cells)
}

impl<'a> Trial<'a> {
    // Asks a premium, and compares number, word, all fifteen places, the count and the cents.
    fn ask(&self, v: u32, d: u32, negative: bool, size: usize, looked: Looked) -> Tally {
        let sum = Sum(signed(negative, size));
        let given = premiums::premium(self.table, self.rates, Node(v), d, sum);
        let answer = given.answer;
        let money = given.cents;
        let walk = plain_steps::rating(self.table, self.strings, v, d);
        let want = wanted(self.rates, looked, size);
        let (number, word) = numbers(want.map(|due| due.class));
        let size = want.map_or(0, |due| due.cents);
        Tally::of(
            walked(answer, walk, looked)
                && wide(answer.number) == number
                && wide(answer.word) == word
                && money.0 == signed(negative, size),
        )
    }

    // The same with both signs.
    pub(crate) fn both(&self, v: usize, d: usize, size: usize, looked: Looked) -> Tally {
        let (v, d) = (narrow(v), narrow(d));
        let added = self.ask(v, d, false, size, looked);
        added.plus(self.ask(v, d, true, size, looked))
    }
}
