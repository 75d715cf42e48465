// A line of the output: what is asked, the number of questions, of differences, of questions whose cells differ, and of those that read another number of cells.
use crate::comparing::Count;
use samples::fields::field;
use std::io;

fn name(rt: &impl Print, line: usize) -> io::Result<()> {
    if line < 5 {
        let names =
            b"lists with stray words,lists with tops too many,lists without a top,lists with loops,lists of up to four words,";
        rt.write_all(field(names, line))
    } else {
        asked(rt, line.saturating_sub(5))
    }
}

fn asked(rt: &impl Print, line: usize) -> io::Result<()> {
    if line < 8 {
        let names =
            b"classes of chains,classes of stars,classes of random trees,classes of caterpillars,classes of binary trees,classes of brooms,classes of deep trees,classes of small trees,";
        rt.write_all(field(names, line))
    } else if line < 16 {
        let names =
            b"premiums of chains,premiums of stars,premiums of random trees,premiums of caterpillars,premiums of binary trees,premiums of brooms,premiums of deep trees,premiums of small trees,";
        rt.write_all(field(names, line.saturating_sub(8)))
    } else {
        let names =
            b"good sheets,sheets of ten digits,sheets with an amount missing,sheets with an amount shared,sheets with an amount in three bands,sheets with a band inside another,sheets without a class,sheets with two faults,total,";
        rt.write_all(field(names, line.saturating_sub(16)))
    }
}

fn figure(rt: &impl Print, x: usize, end: &[u8]) -> io::Result<()> {
    rt.print(x)?;
    rt.write_all(end)
}

pub(crate) fn say(rt: &impl Print, line: usize, count: Count) -> io::Result<()> {
    let tally = count.tally;
    name(rt, line)?;
    figure(rt, tally.asked, b",")?;
    figure(rt, tally.differences, b",")?;
    figure(rt, count.cells, b",")?;
    figure(rt, count.counts, b"\n")
}
