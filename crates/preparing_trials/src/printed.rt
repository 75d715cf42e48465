// A line of the output: a name, the number of trials and the number of differences.
use samples::fields::field;
use std::io;

fn name(rt: &impl Print, line: usize) -> io::Result<()> {
    if line < 11 {
        let names = b"chain,star,random,caterpillar,binary,broom,deep,stray,tops,topless,loop,";
        rt.write_all(field(names, line))
    } else {
        let names = b"empty,short table,short space,any,grown,total,";
        rt.write_all(field(names, line.saturating_sub(11)))
    }
}

pub(crate) fn say(
    rt: &impl Print,
    line: usize,
    count: usize,
    differences: usize,
) -> io::Result<()> {
    name(rt, line)?;
    println!(rt; "{count},{differences}")
}
