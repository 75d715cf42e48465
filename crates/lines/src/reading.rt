// What a line says.
ghost use Rattle.std.specs.Prelude.{◌≡◌};
ghost use Rattle.base.specs.Options.{option_of};
ghost use Rattle.lines.specs.Fields.{number, count_of, parent_of, question_of};
ghost use Rattle.lines.specs.Results.{asked_of};

use base::Node;
use base::limits::TOP_MARK;

// The most digits that a field can have.
pub(crate) const MOST_DIGITS: usize = 10;

// A question: the class of an entry at a depth.
#[derive(Clone, Copy, PartialEq, Eq)]
pub struct Question {
    pub entry: Node,
    pub depth: u32,
}

// `N,count`, or none.
pub fn read_count(line: &[u8]) -> Option<u32>
    ensures { option_of result ≡ count_of line.now }
{
    read_number(line.strip_prefix(b"N,")?)
}

// `P,parent`, or `P,-` for the top.
pub fn read_parent(line: &[u8]) -> Option<u32>
    ensures { option_of result ≡ parent_of line.now }
{
    let field = line.strip_prefix(b"P,")?;
    if field == b"-".as_slice() {
        return Some(TOP_MARK);
    }
    read_number(field)
}

// `Q,entry,depth`.
pub fn read_question(line: &[u8]) -> Option<Question>
    ensures { asked_of result ≡ question_of line.now }
{
    let fields = line.strip_prefix(b"Q,")?;
    let comma = fields.iter().position(|b| *b == b',')?;
    let entry = Node(read_number(&fields[..comma])?);
    let depth = read_number(&fields[comma + 1..])?;
    Some(Question { entry, depth })
}

// A field of one to ten digits, at most 4,294,967,295.
pub fn read_number(field: &[u8]) -> Option<u32>
    ensures { option_of result ≡ number field.now }
{
    if field.is_empty() || MOST_DIGITS < field.len() {
        return None;
    }
    let mut value: u64 = 0;
    for b in field {
        if !b.is_ascii_digit() {
            return None;
        }
        value = 10 * value + u64::from(*b - b'0');
    }
    u32::try_from(value).ok()
}
