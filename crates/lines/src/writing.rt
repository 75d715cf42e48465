// What is printed: each row as a text by value.
#![tactic(auto, using(crate::proofs::Decimals::decimal_long), unfolding(crate::specs::Text::row, crate::specs::Counter::reply_row))]

ghost use Rattle.std.specs.Prelude.{◌≡◌, [], ◌∷◌, ◌++◌, cond, ◌+◌, ◌≤◌, eqb, length};
ghost use Rattle.lines.specs.Text.{comma, dash, decimal};
ghost use Rattle.lines.specs.Texts.{row_room};
ghost use Rattle.lines.specs.Counter.{bad_line, bad_list, header_row, reply_row};

use crate::reading::Question;
pub use crate::text::Text;
use base::numbers::ACCEPTED;

// `line,` and the number of a bad line.
pub fn bad_line(k: u64) -> Text
    ensures { result ≡ bad_line k }
{
    let mut text = Text::new();
    text.extend_from_slice(b"line,");
    text.push_number(k);
    text.push(b'\n');
    text
}

// `list,` and the number and the name of a refused list: of any number, where a `Refusal` would take fewer.
pub fn bad_list(number: u32, word: u32) -> Text
    ensures { result ≡ bad_list (record { number = number; word = word }) }
{
    let mut text = Text::new();
    text.extend_from_slice(b"list,");
    text.push_field(number, b',');
    text.push_field(word, b'\n');
    text
}

// `entry,depth,refusal,class,cells`.
pub fn header_row() -> Text
    ensures { result ≡ header_row }
{
    let mut text = Text::new();
    text.extend_from_slice(b"entry,depth,refusal,class,cells\n");
    text
}

// A question's row: entry, depth, refusal, class or `-`, count of cells. The refusal is a number, for every number, as in `answers::Answer`.
pub fn reply_row(question: Question, number: u32, word: u32, cells: u32) -> Text
    ensures { result ≡ reply_row question.entry.0 question.depth number word cells }
{
    let mut text = Text::new();
    text.push_field(question.entry.0, b',');
    text.push_field(question.depth, b',');
    text.push_field(number, b',');
    push_class(&mut text, number, word);
    text.push_field(cells, b'\n');
    text
}

// A class and a comma behind a text: `-` for a refusal.
fn push_class(text: &mut Text, number: u32, word: u32)
    requires { length text.old + 11 ≤ row_room }
    ensures said { text.new ≡ text.old ++ (cond (eqb number 0) (decimal word) (dash ∷ []) ++ comma ∷ []) }
    ensures fits { length text.new ≤ length text.old + 11 }
{
    if number == ACCEPTED {
        text.push_field(word, b',');
    } else {
        text.extend_from_slice(b"-,");
    }
}
