// A line of the output: a name, the number of questions and the number of differences.
use samples::fields::field;
use samples::tally::Tally;
use std::io;

fn name(rt: &impl Print, line: usize) -> io::Result<()> {
    if line < 9 {
        let names = b"chain,star,random,caterpillar,binary,broom,deep,grown,fork,";
        rt.write_all(field(names, line))
    } else {
        let names =
            b"damaged chain,damaged star,damaged random,damaged caterpillar,damaged binary,damaged broom,damaged deep,total,";
        rt.write_all(field(names, line.saturating_sub(9)))
    }
}

pub(crate) fn say(rt: &impl Print, line: usize, tally: Tally) -> io::Result<()> {
    name(rt, line)?;
    println!(rt; "{tally}")
}
