// A line of the output: a name, the number of questions and the number of differences.
use samples::fields::field;
use samples::tally::Tally;
use std::io;

pub(crate) fn say(rt: &impl Print, line: usize, tally: Tally) -> io::Result<()> {
    let names =
        b"one rate,over the limit,no rates,half the rates,any rates,4998 parts,4999 parts,5000 parts,5001 parts,5002 parts,total,";
    rt.write_all(field(names, line))?;
    println!(rt; "{tally}")
}
