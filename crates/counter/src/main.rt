// The counter program: a list and questions from standard input, the class of each on standard output.
#![tactic(auto)]

use counter_stream::{ProgramBuffers, State, Workspace, feed, finish};
use lines::room::{LINE_ROOM, LIST_ROOM, SPACE_ROOM, TABLE_ROOM};
use std::fmt;
use std::io::Read;

// What cuts the program short.
#[derive(Clone, Copy, Drop)]
enum Failure {
    Unread,
    Unwritten,
}

impl fmt::Display for Failure {
    fn fmt<W: fmt::Write>(&self, f: &mut fmt::Formatter<W>) -> fmt::Result {
        f.write_str(match self {
            Failure::Unread => "standard input cannot be read",
            Failure::Unwritten => "standard output cannot be written",
        })
    }
}

fn main(rt: HostRuntime) {
    let mut parents = [0u32; LIST_ROOM];
    let mut table = [0u32; TABLE_ROOM];
    let mut space = [0u32; SPACE_ROOM];
    let mut line = [0u8; LINE_ROOM];
    let mut input = [0u8; 65536];
    let mut out = [0u8; 65536];
    let workspace = Workspace {
        line: &mut line,
        parents: &mut parents,
        table: &mut table,
        space: &mut space,
    };
    let mut buffers = ProgramBuffers {
        out: &mut out,
        workspace,
    };
    if let Err(failure) = run(&rt, &mut input, &mut buffers) {
        let _ = eprintln!(rt; "counter: {failure}");
    }
}

// Reads the input and writes what it prints, up to its end or that of the program.
fn run(
    rt: &(impl Input + Print),
    input: &mut [u8],
    buffers: &mut ProgramBuffers<'_>,
) -> Result<(), Failure> {
    let mut reader = rt.reader();
    let mut state = State::start();
    // Nothing says that the input ends: the turns are counted, up to a number that no run reaches.
    for _ in 0..u64::MAX {
        let n = reader.read(input).map_err(|_| Failure::Unread)?;
        if n == 0 {
            return end(rt, state, buffers.out);
        }
        state = piece(rt, state, &input[..n], buffers)?;
        if state.is_at_end() {
            break;
        }
    }
    Ok(())
}

// Gives a piece and writes what it prints.
fn piece(
    rt: &impl Print,
    state: State,
    input: &[u8],
    buffers: &mut ProgramBuffers<'_>,
) -> Result<State, Failure> {
    let mut state = state;
    let mut rest = input;
    while !rest.is_empty() {
        let fed = feed(state, rest, buffers.out, &mut buffers.workspace);
        write(rt, &buffers.out[..fed.written])?;
        state = fed.state;
        rest = &rest[fed.used..];
    }
    Ok(state)
}

// Writes what the end of the input prints.
fn end(rt: &impl Print, state: State, out: &mut [u8]) -> Result<(), Failure> {
    let n = finish(state, out);
    write(rt, &out[..n])
}

fn write(rt: &impl Print, bytes: &[u8]) -> Result<(), Failure> {
    rt.write_all(bytes).map_err(|_| Failure::Unwritten)
}
