// The C interface: measures, preparing, the five questions, the nearest common ancestor and the distance, the premium by a list of rates and by a sheet with bands. Each question has a C name and a function of
// its own. A slice is a pointer and a length. An answer is written to an array of the caller's: preparing's to two words, a check's to three, a question's to eighteen, with the money beside it.
#![tactic(auto)]

ghost use Rattle.std.specs.Prelude.{◌≡◌, length};
ghost use Rattle.base.specs.Limits.{table_words, space_words};
ghost use Rattle.table.specs.Preparing.{preparing, table_after, space_after};
ghost use Rattle.answers.specs.Answers.{answer_to, answer_words};
ghost use Rattle.answers.specs.Steps.{level, climbing, rating, ancestry, branch};
ghost use Rattle.common_ancestors.specs.Common.{nearest_of, distance_of};
ghost use Rattle.common_ancestors.specs.Promises.{class_bound, climb_bound, Shares, Counts, Words};
ghost use Rattle.premiums.specs.Quotes.{quote_to};
ghost use Rattle.sheets.specs.Verdicts.{told, check_to, bands_on};
ghost use Rattle.sheets.specs.Checked.{Checked};
ghost use Rattle.pricing.specs.Quotes.{price_to};
ghost use Rattle.pricing.specs.Promises.{QuotationWords};
ghost use Rattle.exports.specs.ReplyWords.{reply_words, verdict_words};

use answers::ANSWER_WORDS;
use base::limits::{space_words, table_words};
use base::numbers::ACCEPTED;
use base::{Node, Refusal, Sum, reply_words};
use common_ancestors::{Sought, answer_words};
use sheets::SHEET_WORDS;

// W: the words of a table for n entries.
#[unsafe(no_mangle)]
pub extern "C" fn tantsheko_table_words(n: u32) -> u64
    ensures { result ≡ table_words n }
{
    table_words(n) as u64
}

// The words of the working space for n entries.
#[unsafe(no_mangle)]
pub extern "C" fn tantsheko_space_words(n: u32) -> u64
    ensures { result ≡ space_words n }
{
    space_words(n) as u64
}

// Prepares the table of a parent list.
#[unsafe(no_mangle)]
pub extern "C" fn tantsheko_prepare(
    parents: &[u32],
    table: &mut [u32],
    space: &mut [u32],
    reply: &mut [u32; 2],
)
    ensures answer { reply.new ≡ reply_words (preparing parents.now (length table.old) (length space.old)) }
    ensures written { table.new ≡ table_after parents.now table.old space.old }
    ensures left { space.new ≡ space_after parents.now table.old space.old }
{
    let said = reply_words(prepare::prepare(parents, table, space));
    *reply = said;
}

// The class of v at depth d.
#[unsafe(no_mangle)]
pub extern "C" fn tantsheko_level(table: &[u32], v: u32, d: u32, answer: &mut [u32; ANSWER_WORDS])
    ensures { answer.new ≡ answer_words (answer_to table.now (level (length table.now) v d)) }
{
    query::level_words(table, Node(v), d, answer);
}

// The entry k above v.
#[unsafe(no_mangle)]
pub extern "C" fn tantsheko_climb(table: &[u32], v: u32, k: u32, answer: &mut [u32; ANSWER_WORDS])
    ensures { answer.new ≡ answer_words (answer_to table.now (climbing (length table.now) v k)) }
{
    query::climb_words(table, Node(v), k, answer);
}

// The class of v at rating level d, or v itself where it is less deep.
#[unsafe(no_mangle)]
pub extern "C" fn tantsheko_rating(table: &[u32], v: u32, d: u32, answer: &mut [u32; ANSWER_WORDS])
    ensures { answer.new ≡ answer_words (answer_to table.now (rating (length table.now) v d)) }
{
    query::rating_words(table, Node(v), d, answer);
}

// Whether u is at or above v: 1 or 0. C has a name for each question, also where two look alike.
#[unsafe(no_mangle)]
pub extern "C" fn tantsheko_ancestry(
    table: &[u32],
    u: u32,
    v: u32,
    answer: &mut [u32; ANSWER_WORDS],
)
    ensures { answer.new ≡ answer_words (answer_to table.now (ancestry (length table.now) u v)) }
{
    let found = query::ancestry(table, Node(u), Node(v));
    *answer = found.into();
}

// The child of u on the way to v.
#[unsafe(no_mangle)]
pub extern "C" fn tantsheko_branch(table: &[u32], u: u32, v: u32, answer: &mut [u32; ANSWER_WORDS])
    ensures { answer.new ≡ answer_words (answer_to table.now (branch (length table.now) u v)) }
{
    let found = query::branch(table, Node(u), Node(v));
    *answer = found.into();
}

// The nearest common ancestor of u and v: the class that they share.
#[unsafe(no_mangle)]
pub extern "C" fn tantsheko_nearest_common_ancestor(
    table: &[u32],
    u: u32,
    v: u32,
    answer: &mut [u32; ANSWER_WORDS],
)
    ensures { Words class_bound (λ ps. nearest_of ps u v) Shares table.now u v answer.new }
{
    answer_words(table, Sought::Class, Node(u), Node(v), answer);
}

// The distance of u and v: the climbs between them through the class that they share.
#[unsafe(no_mangle)]
pub extern "C" fn tantsheko_distance(
    table: &[u32],
    u: u32,
    v: u32,
    answer: &mut [u32; ANSWER_WORDS],
)
    ensures { Words climb_bound (λ ps. distance_of ps u v) Counts table.now u v answer.new }
{
    answer_words(table, Sought::Climbs, Node(u), Node(v), answer);
}

// The premium of a sum insured for v at rating level d.
#[unsafe(no_mangle)]
pub extern "C" fn tantsheko_premium(
    table: &[u32],
    rates: &[u32],
    v: u32,
    d: u32,
    sum: i64,
    answer: &mut [u32; ANSWER_WORDS],
    cents: &mut i64,
)
    ensures answer { answer.new ≡ answer_words (quote_to table.now rates.now v d sum).answer }
    ensures cents { cents.new ≡ (quote_to table.now rates.now v d sum).cents.0 }
{
    let premium = premiums::premium_words(table, rates, Node(v), d, Sum(sum), answer);
    let amount = premium.0;
    *cents = amount;
}

// The check of a sheet of rating level d.
#[unsafe(no_mangle)]
pub extern "C" fn tantsheko_sheet(table: &[u32], text: &[u8], d: u32, verdict: &mut [u32; 3])
    ensures { verdict.new ≡ verdict_words (check_to table.now d text.now) }
{
    *verdict = verdict_of(sheets::check(table, text, d));
}

// As `tantsheko_sheet`; an accepted sheet is written to words of the caller's.
#[unsafe(no_mangle)]
pub extern "C" fn tantsheko_checked_sheet(
    table: &[u32],
    text: &[u8],
    d: u32,
    sheet: &mut [u64; SHEET_WORDS],
    verdict: &mut [u32; 3],
)
    ensures answer { verdict.new ≡ verdict_words (check_to table.now d text.now) }
    ensures kept { ((check_to table.now d text.now).number ≡ 0 → ⊥) → sheet.new ≡ sheet.old }
    ensures checked { (check_to table.now d text.now).number ≡ 0 → Checked sheet.new d (bands_on table.now d text.now) }
{
    *verdict = verdict_of(sheets::check_into(table, text, d, sheet));
}

// A check's answer in words: its number, the lines or what the refusal names, and the amount beside it.
#[tactic(auto, unfolding(crate::specs::ReplyWords::verdict_words))]
fn verdict_of(checked: Result<u32, Refusal>) -> [u32; 3]
    ensures { result ≡ verdict_words (told checked) }
{
    match checked {
        Ok(lines) => [ACCEPTED, lines, 0],
        Err(refusal) => [refusal.number(), refusal.word(), refusal.amount()],
    }
}

// The premium of a sum insured for v at rating level d, by the text of a sheet.
#[unsafe(no_mangle)]
pub extern "C" fn tantsheko_price(
    table: &[u32],
    text: &[u8],
    v: u32,
    d: u32,
    sum: i64,
    answer: &mut [u32; ANSWER_WORDS],
    amount: &mut u32,
    cents: &mut i64,
)
    ensures answer { answer.new ≡ answer_words (price_to table.now text.now v d sum).answer }
    ensures amount { amount.new ≡ (price_to table.now text.now v d sum).amount }
    ensures cents { cents.new ≡ (price_to table.now text.now v d sum).cents.0 }
{
    let money = pricing::price_words(table, text, Node(v), d, Sum(sum), answer);
    let named = money.amount;
    let premium = money.cents;
    let paid = premium.0;
    *amount = named;
    *cents = paid;
}

// The premium by a checked sheet, at the level that it was checked for.
#[unsafe(no_mangle)]
pub extern "C" fn tantsheko_quotation(
    table: &[u32],
    sheet: &[u64; SHEET_WORDS],
    v: u32,
    sum: i64,
    answer: &mut [u32; ANSWER_WORDS],
    amount: &mut u32,
    cents: &mut i64,
)
    ensures { QuotationWords sheet.now v sum table.now answer.new (record { amount = amount.new; cents = record { 0 = cents.new } }) }
{
    let money = pricing::quotation_words(table, sheet, Node(v), Sum(sum), answer);
    let named = money.amount;
    let premium = money.cents;
    let paid = premium.0;
    *amount = named;
    *cents = paid;
}
