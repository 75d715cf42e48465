// A text by value, of at most as many bytes as a row can have.
ghost use Rattle.std.specs.Prelude.{◌≡◌, List, [], ◌∷◌, ◌++◌, ℕ, ◌+◌, ◌<◌, ◌≤◌, length};
ghost use Rattle.base.specs.Lists.{padded};
ghost use Rattle.lines.specs.Text.{decimal};
ghost use Rattle.lines.specs.Texts.{said, row_room, Filled, bytes-back, count-back};

use crate::room::ROW_ROOM;
use std::marker::Model;

// The first `count` of its bytes, in an array: there is no heap.
#[derive(Clone, Copy)]
pub struct Text {
    bytes: [u8; ROW_ROOM],
    count: usize,
}

// In a contract a text is the list of the bytes that it says.
impl Model for Text {
    ghost Value = { List ℕ };

    ghost view = { λ t. said t.bytes t.count };

    ghost invariant = { λ t. Filled t.bytes t.count };

    ghost inverse = { λ l. record { bytes = padded row_room l; count = length l } };

    ghost inverse_ok = { λ t h i. record { bytes = bytes-back h i; count = count-back h i } };
}

impl Text {
    // The empty text.
    pub fn new() -> Text
        ensures { result ≡ [] }
    {
        Text {
            bytes: [0; ROW_ROOM],
            count: 0,
        }
    }

    // Its bytes.
    pub fn as_slice(&self) -> &[u8]
        ensures said { result.now ≡ self.now }
        ensures fits { length self.now ≤ row_room }
    {
        &self.bytes[..self.count]
    }

    // A byte behind it.
    pub(crate) fn push(&mut self, b: u8)
        requires { length self.old < row_room }
        ensures { self.new ≡ self.old ++ b ∷ [] }
    {
        self.bytes[self.count] = b;
        self.count += 1;
    }

    // Other bytes behind it.
    pub(crate) fn extend_from_slice(&mut self, more: &[u8])
        requires { length self.old + length more.now ≤ row_room }
        ensures { self.new ≡ self.old ++ more.now }
    {
        let end = self.count + more.len();
        self.bytes[self.count..end].copy_from_slice(more);
        self.count = end;
    }

    // A number behind it, in decimal.
    #[tactic(auto, using(crate::proofs::Decimals::decimal_printed))]
    pub(crate) fn push_number(&mut self, x: u64)
        requires { length self.old + length (decimal x) ≤ row_room }
        ensures { self.new ≡ self.old ++ decimal x }
    {
        self.extend_from_slice(itoa::Buffer::new().format(x).as_bytes());
    }

    // A number and the byte that ends its field behind it.
    pub(crate) fn push_field(&mut self, x: u32, end: u8)
        requires { length self.old + 11 ≤ row_room }
        ensures said { self.new ≡ self.old ++ (decimal x ++ end ∷ []) }
        ensures fits { length self.new ≤ length self.old + 11 }
    {
        self.push_number(u64::from(x));
        self.push(end);
    }
}
