// A line of the output: a kind, the number of questions and the number of differences.
use samples::fields::field;
use samples::tally::Tally;
use std::io;

fn name(rt: &impl Print, line: usize) -> io::Result<()> {
    if line < 14 {
        let names =
            b"good,ten digits,one amount missing,one amount shared,three bands on an amount,inside a longer band,a class left out,two faults,a bad line and a gap,unknown class,a deeper class,from above to,to over the limit,rate over the limit,";
        rt.write_all(field(names, line))
    } else if line < 29 {
        let names =
            b"eleven digits,no digits,over a word,carriage return,blank,sign,comma more,line feed more,no last line feed,cut anywhere,a byte changed,empty,empty for a deep level,lines for another level,broken table,";
        rt.write_all(field(names, line.saturating_sub(14)))
    } else {
        let names =
            b"4096 lines,4096 lines with faults,4097 lines,4097 lines cut short,4096 lines and a byte,total,";
        rt.write_all(field(names, line.saturating_sub(29)))
    }
}

pub(crate) fn say(rt: &impl Print, line: usize, tally: Tally) -> io::Result<()> {
    name(rt, line)?;
    println!(rt; "{tally}")
}
