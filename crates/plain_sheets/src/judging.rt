// What the check of a sheet and a question with it are to answer, by plain counting, climbing and arithmetic.
ghost use Rattle.std.specs.Prelude.{◌≡◌, ◌≤◌, Err, IfErr};
ghost use Rattle.samples.specs.Refusals.{number_of};

use crate::bands::Bands;
use crate::classes::Classes;
use crate::reading::read;
use samples::amounts::{Due, MOST_SUM, cents, product};
use samples::climbing::{above, climbs};
use samples::refusals::Refusal;

// The first fault of the classes in increasing number.
fn judge(bands: Bands, classes: Classes) -> Result<(), Refusal> {
    for v in 0..classes.n {
        if classes.has(v) {
            bands.judge(v)?;
        }
    }
    Ok(())
}

// What the check is to answer for a text, whose lines are left in `lines`: how many there are.
pub fn check(text: &[u8], lines: &mut [u32], classes: Classes) -> Result<usize, Refusal>
    ensures { IfErr result (λ r. number_of r ≤ 15) }
{
    let count = read(text, lines, classes)?;
    judge(
        Bands {
            words: lines,
            count,
        },
        classes,
    )?;
    Ok(count)
}

// What the rating lookup of v is to answer, on a table that is sound or not.
pub fn look(sound: bool, classes: Classes, v: usize) -> Result<usize, Refusal>
    ensures { IfErr result (λ r. number_of r ≤ 9) }
{
    if !sound {
        return Err(Refusal::Broken);
    }
    if classes.n <= v {
        return Err(Refusal::Unknown(v));
    }
    let depth = climbs(classes.parents, classes.n, v);
    Ok(above(classes.parents, v, depth.saturating_sub(classes.level)))
}

// What a question is to answer behind a lookup: the lookup's refusals, the sheet's, and then the sum's. The first two are handed on as they are, so they may be of any `Copy`
// type that has the third.
pub fn price<R: Copy + From<Refusal>>(
    looked: Result<usize, R>,
    checked: Result<usize, R>,
    lines: &[u32],
    size: usize,
) -> Result<Due, R>
    ensures { IfErr looked (λ r. result ≡ Err r) }
{
    let class = looked?;
    let count = checked?;
    if MOST_SUM < size {
        return Err(R::from(Refusal::BadSum));
    }
    let bands = Bands {
        words: lines,
        count,
    };
    let rate = bands.rate(class, size);
    Ok(Due {
        class,
        cents: cents(product(size, rate)),
    })
}
