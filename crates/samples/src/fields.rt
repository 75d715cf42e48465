// Fields of a text, each with a comma behind it.
ghost use Rattle.std.specs.Prelude.{◌≡◌, ◌≤◌, length, drop};
ghost use Rattle.samples.specs.Fields.{behind_commas, to_comma};

// The place behind so many commas from a place on, or the end.
fn behind(text: &[u8], start: usize, commas: usize) -> usize
    requires { start ≤ length text.now }
    ensures { (start ≤ result) × (result ≤ length text.now) × (drop result text.now ≡ behind_commas commas (drop start text.now)) }
{
    let mut left = commas;
    for i in start..text.len() {
        if left == 0 {
            return i;
        }
        if text[i] == b',' {
            left -= 1;
        }
    }
    text.len()
}

// The k-th field, from 0, with its comma. The programs' names are such fields, and no array of texts, since docs/DEMANDS.md names this function.
pub fn field(text: &[u8], k: usize) -> &[u8]
    ensures { result.now ≡ to_comma (behind_commas k text.now) }
{
    let from = behind(text, 0, k);
    let to = behind(text, from, 1);
    &text[from..to]
}
