// The counter program's answers to inputs of every form. Standard input holds the inputs, each ended by `;` and a line feed. Each is given in two pieces,
// and what it prints is written with `;` and a line feed behind it.
#![tactic(auto)]

ghost use Rattle.std.specs.Prelude.{◌≤◌, length, IfOk};

use counter_stream::{ProgramBuffers, State, Workspace, feed, finish};
use lines::room::{LINE_ROOM, LIST_ROOM, SPACE_ROOM, TABLE_ROOM};
use std::io;
use std::io::Read;

fn main(rt: HostRuntime) -> io::Result<()> {
    let mut parents = [0u32; LIST_ROOM];
    let mut table = [0u32; TABLE_ROOM];
    let mut space = [0u32; SPACE_ROOM];
    let mut line = [0u8; LINE_ROOM];
    let mut out = [0u8; 8192];
    let mut inputs = [0u8; 8192];
    let n = read_full(&mut rt.reader(), &mut inputs)?;
    let workspace = Workspace {
        line: &mut line,
        parents: &mut parents,
        table: &mut table,
        space: &mut space,
    };
    let mut buffers = ProgramBuffers {
        out: &mut out,
        workspace,
    };
    all(&rt, &inputs[..n], &mut buffers)
}

// Reads until the bytes are full or the input ends. Answers how many were read.
fn read_full<R: Read>(reader: &mut R, bytes: &mut [u8]) -> io::Result<usize>
    ensures { IfOk result (λ n. n ≤ length bytes.new) }
{
    let mut done = 0;
    while done < bytes.len() {
        let n = reader.read(&mut bytes[done..])?;
        if n == 0 {
            break;
        }
        done += n;
    }
    Ok(done)
}

// All inputs, each behind the other.
fn all(rt: &impl Print, inputs: &[u8], buffers: &mut ProgramBuffers<'_>) -> io::Result<()> {
    let mut rest = inputs;
    while !rest.is_empty() {
        let end = rest.iter().position(|b| *b == b';').unwrap_or(rest.len());
        answer(rt, &rest[..end], buffers)?;
        let Some(behind) = rest.get(end + 2..) else {
            break;
        };
        rest = behind;
    }
    Ok(())
}

// Gives an input, cut in its middle, and its end.
fn answer(rt: &impl Print, input: &[u8], buffers: &mut ProgramBuffers<'_>) -> io::Result<()> {
    let (front, back) = input.split_at(input.len() / 2);
    let half = piece(rt, State::start(), front, buffers)?;
    let state = piece(rt, half, back, buffers)?;
    let n = finish(state, buffers.out);
    rt.write_all(&buffers.out[..n])?;
    rt.write_all(b";\n")
}

// Gives a piece of an input, whose output has room, and writes what it prints.
fn piece(
    rt: &impl Print,
    state: State,
    input: &[u8],
    buffers: &mut ProgramBuffers<'_>,
) -> io::Result<State> {
    let fed = feed(state, input, buffers.out, &mut buffers.workspace);
    rt.write_all(&buffers.out[..fed.written])?;
    Ok(fed.state)
}
