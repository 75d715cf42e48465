// One call of preparing, against what it is to answer and to leave.
ghost use Rattle.std.specs.Prelude.{◌≤◌, length};

use crate::laid::lay;
use crate::verdict::judge;
use crate::words::{clear, soil};
use base::reply_words;
use samples::cases::case_at;
use samples::refusals::{Refusal, numbers};

// How many words of a slice differ from those of another.
fn differences(given: &[u32], want: &[u32]) -> usize {
    given.iter().zip(want).filter(|(a, b)| a != b).count()
}

// How much of an answer differs: its number and its name.
fn unlike(reply: Result<u32, base::Refusal>, want: Result<usize, Refusal>) -> usize {
    let [number, name] = reply_words(reply);
    let (other_number, other_name) = numbers(want);
    usize::from(number as usize != other_number) + usize::from(name as usize != other_name)
}

// How many words of the table are not what it is to hold after an answer.
fn table_differences(parents: &[u32], answer: Result<usize, Refusal>, table: &[u32]) -> usize
    requires { (length parents.now ≤ 512) × (length table.now ≤ 6999) }
{
    let mut words = [0u32; 6999];
    let want = &mut words[..table.len()];
    soil(want);
    if answer.is_ok() {
        lay(parents, want);
    }
    differences(table, want)
}

// Whether an answer leaves zeros in the space.
fn clears(answer: Result<usize, Refusal>) -> bool {
    matches!(
        answer,
        Ok(_) | Err(Refusal::Stray(_) | Refusal::Tops(_) | Refusal::Lost(_))
    )
}

// How many words of the space are not what it is to hold after an answer.
fn space_differences(n: usize, answer: Result<usize, Refusal>, space: &[u32]) -> usize
    requires { length space.now ≤ 3091 }
{
    let mut words = [0u32; 3091];
    let want = &mut words[..space.len()];
    soil(want);
    if clears(answer) {
        clear(want, n.wrapping_mul(6));
    }
    differences(space, want)
}

// What preparing is lent, with 16 words beyond the longest table and space: one for all trials: to zero it for each would write 0.7 GB.
#[derive(Drop)]
pub(crate) struct Loan {
    parents: [u32; 512],
    table: [u32; 6999],
    space: [u32; 3091],
}

impl Loan {
    pub(crate) fn new() -> Loan {
        Loan {
            parents: [0; 512],
            table: [0; 6999],
            space: [0; 3091],
        }
    }
}

// How much differs after the call of a line's k-th case. Table and space are compared for 16 words beyond.
pub(crate) fn trial(line: usize, k: usize, loan: &mut Loan) -> usize {
    let case = case_at(line, k, &mut loan.parents);
    let list = &loan.parents[..case.n];
    let answer = judge(list, case.table, case.space);
    let table = &mut loan.table[..];
    let space = &mut loan.space[..];
    let cells = &mut table[..case.table + 16];
    let words = &mut space[..case.space + 16];
    soil(cells);
    soil(words);
    let reply = prepare::prepare(list, &mut cells[..case.table], &mut words[..case.space]);
    unlike(reply, answer)
        .wrapping_add(table_differences(list, answer, cells))
        .wrapping_add(space_differences(case.n, answer, words))
}
