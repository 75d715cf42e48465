// The shapes as strings of downs and ups. A string is a number: a leading one, then its steps, 0 for down and 1 for up. So increasing numbers go by length,
// then by string with down before up.
ghost use Rattle.std.specs.Prelude.{◌≡◌, true, false, ◌+◌, ◌<◌, set};
ghost use Rattle.plain_steps.specs.Strings.{goes_round, strings};

use samples::words::put;

// Whether a string goes round a group: from its last step back, each down ends an up, and none is left.
fn goes_round(string: usize) -> bool
    requires { string < 8192 }
    ensures { result ≡ goes_round string }
{
    let mut open: usize = 0;
    let mut rest = string;
    while 1 < rest {
        if rest % 2 == 1 {
            open += 1;
        } else {
            if open == 0 {
                return false;
            }
            open -= 1;
        }
        rest = rest / 2;
    }
    open == 0
}

// Puts a string at a place if it goes round a group. Answers the next place.
fn noted(string: usize, at: usize, all: &mut [u32]) -> usize
    requires { (string < 8192) × (at < 8192) }
    ensures with { goes_round string ≡ true → (all.new ≡ set all.old at string) × (result ≡ at + 1) }
    ensures without { goes_round string ≡ false → (all.new ≡ all.old) × (result ≡ at) }
{
    if !goes_round(string) {
        return at;
    }
    put(all, at, string);
    at + 1
}

// The strings of the 197 shapes of up to seven entries, in the order of the shapes' numbers.
pub fn shape_strings() -> [u32; 197]
    ensures { result ≡ strings 8191 }
{
    let mut all = [0u32; 197];
    let mut at = 0;
    for string in 1..8192 {
        at = noted(string, at, &mut all);
    }
    all
}
