// Another office's numbering: the premium of one barn from two parent lists of one tree, each with rates or a sheet of its own. It rests on the promises of `prepare`, `premium`
// and `price`, and on theorems of the definitions that these name.
#![tactic(auto)]

ghost use Rattle.std.specs.Prelude.{◌≡◌};
ghost use Rattle.table.specs.Preparing.{table_after, space_after};
ghost use Rattle.renumbering_example.specs.Offices.{office, premium_from, price_from};
ghost use Rattle.renumbering_example.specs.Promises.{SamePremiums, PaidPremium, SamePrices, PaidPrice};

use base::{Cents, Node, Sum};
use money::{Price, refused};
use premiums::premium;
use prepare::prepare;
use pricing::{SheetPrice, price};

// What a sum costs for one barn at two offices.
#[derive(Clone, Copy)]
pub struct Both<T> {
    pub first: T,
    pub second: T,
}

// The premium of a sum for an entry of an office's list: its table is prepared and asked. A list that is turned away gives preparing's refusal.
fn premium_from(
    parents: &[u32],
    rates: &[u32],
    table: &mut [u32],
    space: &mut [u32],
    v: Node,
    d: u32,
    sum: Sum,
) -> Price
    ensures answer { result ≡ premium_from (office parents.now rates.now table.old space.old v.0) d sum.0 }
    ensures written { table.new ≡ table_after parents.now table.old space.old }
    ensures left { space.new ≡ space_after parents.now table.old space.old }
{
    if let Err(refusal) = prepare(parents, table, space) {
        return refused(refusal.number(), refusal.word());
    }
    let quote = premium(table, rates, v, d, sum);
    let answer = quote.answer;
    let cents = quote.cents;
    Price {
        number: answer.number,
        word: answer.word,
        cents,
    }
}

// The same by the text of a sheet. One function that takes the question would have to say by a closure's clauses what `premium` and `price` say by theirs.
fn price_from(
    parents: &[u32],
    text: &[u8],
    table: &mut [u32],
    space: &mut [u32],
    v: Node,
    d: u32,
    sum: Sum,
) -> SheetPrice
    ensures answer { result ≡ price_from (office parents.now text.now table.old space.old v.0) d sum.0 }
    ensures written { table.new ≡ table_after parents.now table.old space.old }
    ensures left { space.new ≡ space_after parents.now table.old space.old }
{
    if let Err(refusal) = prepare(parents, table, space) {
        return SheetPrice {
            number: refusal.number(),
            word: refusal.word(),
            amount: 0,
            cents: Cents(0),
        };
    }
    let quote = price(table, text, v, d, sum);
    let answer = quote.answer;
    let cents = quote.cents;
    SheetPrice {
        number: answer.number,
        word: answer.word,
        amount: quote.amount,
        cents,
    }
}

// The premium of a sum for entry v of one office's list and for entry w of another's, each by its own rates, at one rating level.
pub fn two_premiums(
    list1: &[u32],
    rates1: &[u32],
    table1: &mut [u32],
    v: Node,
    list2: &[u32],
    rates2: &[u32],
    table2: &mut [u32],
    w: Node,
    space: &mut [u32],
    d: u32,
    sum: Sum,
) -> Both<Price>
    ensures first { result.first ≡ premium_from (office list1.now rates1.now table1.old space.old v.0) d sum.0 }
    ensures second { result.second ≡ premium_from (office list2.now rates2.now table2.old space.old w.0) d sum.0 }
    ensures same { SamePremiums (office list1.now rates1.now table1.old space.old v.0) (office list2.now rates2.now table2.old space.old w.0) result.first result.second }
    ensures paid { PaidPremium (office list1.now rates1.now table1.old space.old v.0) d sum.0 result.first }
    ensures written1 { table1.new ≡ table_after list1.now table1.old space.old }
    ensures written2 { table2.new ≡ table_after list2.now table2.old space.old }
    ensures left { space.new ≡ space_after list2.now table2.old (space_after list1.now table1.old space.old) }
{
    let one = premium_from(list1, rates1, table1, space, v, d, sum);
    let other = premium_from(list2, rates2, table2, space, w, d, sum);
    Both {
        first: one,
        second: other,
    }
}

// The same by the texts of two sheets: not one generic function with `two_premiums`, since their clauses `same` and `paid` name other definitions.
pub fn two_prices(
    list1: &[u32],
    text1: &[u8],
    table1: &mut [u32],
    v: Node,
    list2: &[u32],
    text2: &[u8],
    table2: &mut [u32],
    w: Node,
    space: &mut [u32],
    d: u32,
    sum: Sum,
) -> Both<SheetPrice>
    ensures first { result.first ≡ price_from (office list1.now text1.now table1.old space.old v.0) d sum.0 }
    ensures second { result.second ≡ price_from (office list2.now text2.now table2.old space.old w.0) d sum.0 }
    ensures same { SamePrices d (office list1.now text1.now table1.old space.old v.0) (office list2.now text2.now table2.old space.old w.0) result.first result.second }
    ensures paid { PaidPrice (office list1.now text1.now table1.old space.old v.0) d sum.0 result.first }
    ensures written1 { table1.new ≡ table_after list1.now table1.old space.old }
    ensures written2 { table2.new ≡ table_after list2.now table2.old space.old }
    ensures left { space.new ≡ space_after list2.now table2.old (space_after list1.now table1.old space.old) }
{
    let one = price_from(list1, text1, table1, space, v, d, sum);
    let other = price_from(list2, text2, table2, space, w, d, sum);
    Both {
        first: one,
        second: other,
    }
}
