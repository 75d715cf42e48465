// A plain reading of a sheet's text, byte by byte.
use crate::classes::Classes;
use crate::line_words::{CLASS, FROM, MOST_LINES, RATE, TO, part, set_part};
use samples::amounts::{MOST_RATE, MOST_SUM};
use samples::refusals::Refusal;
use samples::words::TOP;

// How many lines are read, and fields of the next one, and the digits and the number of its next field.
#[derive(Clone, Copy)]
struct Reader {
    lines: usize,
    fields: usize,
    digits: usize,
    number: usize,
}

// Whether a line's fields are a band of a class.
fn is_band(lines: &[u32], line: usize, classes: Classes) -> bool {
    let to = part(lines, line, TO);
    classes.has(part(lines, line, CLASS))
        && part(lines, line, FROM) <= to
        && to <= MOST_SUM
        && part(lines, line, RATE) <= MOST_RATE
}

impl Reader {
    // The line that is open.
    fn bad(self) -> Refusal {
        Refusal::BadLine(self.lines.wrapping_add(1))
    }

    // A digit more: ten are the most.
    fn digit(mut self, value: u8) -> Result<Reader, Refusal> {
        if 10 <= self.digits {
            return Err(self.bad());
        }
        self.digits += 1;
        self.number = self.number.wrapping_mul(10).wrapping_add(value as usize);
        Ok(self)
    }

    // The field's end: its number is kept.
    fn close(mut self, lines: &mut [u32]) -> Result<Reader, Refusal> {
        if self.digits == 0 || TOP < self.number {
            return Err(self.bad());
        }
        set_part(lines, self.lines, self.fields, self.number);
        self.fields = self.fields.wrapping_add(1);
        self.digits = 0;
        self.number = 0;
        Ok(self)
    }

    // A comma, behind the first three fields.
    fn comma(self, lines: &mut [u32]) -> Result<Reader, Refusal> {
        if self.fields == RATE {
            return Err(self.bad());
        }
        self.close(lines)
    }

    // The line's end, behind four fields.
    fn feed(self, lines: &mut [u32], classes: Classes) -> Result<Reader, Refusal> {
        if self.fields != RATE {
            return Err(self.bad());
        }
        let mut whole = self.close(lines)?;
        if !is_band(lines, whole.lines, classes) {
            return Err(whole.bad());
        }
        whole.lines = whole.lines.wrapping_add(1);
        whole.fields = 0;
        Ok(whole)
    }

    // A byte more: any behind the most lines is of a bad one.
    fn step(self, b: u8, lines: &mut [u32], classes: Classes) -> Result<Reader, Refusal> {
        match b {
            _ if MOST_LINES <= self.lines => Err(self.bad()),
            b'0'..=b'9' => self.digit(b - b'0'),
            b',' => self.comma(lines),
            b'\n' => self.feed(lines, classes),
            _ => Err(self.bad()),
        }
    }

    // The text's end: a line that is open is cut short.
    fn finish(self) -> Result<usize, Refusal> {
        if self.fields != 0 || self.digits != 0 {
            return Err(self.bad());
        }
        Ok(self.lines)
    }
}

// Reads a text, up to its first bad line. Answers how many lines it has.
pub(crate) fn read(text: &[u8], lines: &mut [u32], classes: Classes) -> Result<usize, Refusal> {
    let mut reader = Reader {
        lines: 0,
        fields: 0,
        digits: 0,
        number: 0,
    };
    for b in text {
        reader = reader.step(*b, lines, classes)?;
    }
    reader.finish()
}
