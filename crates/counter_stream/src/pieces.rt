// The input piece by piece, and its end.
ghost use Rattle.std.specs.Prelude.{◌≡◌, ◌++◌, ◌+◌, ◌≤◌, length, take};
ghost use Rattle.lines.specs.Texts.{row_room};
ghost use Rattle.counter_stream.specs.Fitness.{ending, last_text};
ghost use Rattle.counter_stream.specs.Loans.{lent_by, SameLoan};
ghost use Rattle.counter_stream.specs.Pieces.{Ready, ByteFed, FedPiece, Counted};

use crate::phases::{Phase, State};
use crate::whole_lines::{Stepped, whole_line};
use crate::workspace::Workspace;
use lines::room::{LINE_ROOM, ROW_ROOM};
use lines::text::Text;
use lines::writing::bad_line;

// The state behind some bytes of a piece, how many they are and how many were printed.
#[derive(Clone, Copy)]
pub struct Progress {
    pub state: State,
    pub used: usize,
    pub written: usize,
}

// A piece of the input. Where state and buffers do not fit, the program is at its end.
pub fn feed(state: State, input: &[u8], out: &mut [u8], workspace: &mut Workspace<'_>) -> Progress
    ensures counts { Counted (length input.now) (length out.new) result }
    ensures printed { FedPiece state (lent_by workspace.old) input.now result out.new (lent_by workspace.new) }
    ensures lent { SameLoan workspace.old workspace.new }
{
    if state.is_numbered(input.len()) && workspace.is_fit(state) {
        return read_bytes(state, input, out, workspace);
    }
    Progress {
        state: State::end(),
        used: input.len(),
        written: 0,
    }
}

// The bytes of a piece, as long as the output has room for a row.
fn read_bytes(state: State, input: &[u8], out: &mut [u8], workspace: &mut Workspace<'_>) -> Progress
    requires { Ready state (length input.now) (lent_by workspace.old) }
    ensures counts { Counted (length input.now) (length out.new) result }
    ensures printed { FedPiece state (lent_by workspace.old) input.now result out.new (lent_by workspace.new) }
    ensures lent { SameLoan workspace.old workspace.new }
{
    let mut at = state;
    let mut written = 0;
    for (used, b) in input.iter().enumerate() {
        if out.len() - written < ROW_ROOM {
            return Progress {
                state: at,
                used,
                written,
            };
        }
        let step = byte(at, *b, workspace);
        at = step.state;
        written = put(out, written, &step.text);
    }
    Progress {
        state: at,
        used: input.len(),
        written,
    }
}

// One byte more.
fn byte(state: State, b: u8, workspace: &mut Workspace<'_>) -> Stepped
    requires { Ready state 1 (lent_by workspace.old) }
    ensures fed { ByteFed state (lent_by workspace.old) b result.text result.state (lent_by workspace.new) }
    ensures lent { SameLoan workspace.old workspace.new }
{
    if state.is_at_end() {
        return Stepped::last(Text::new());
    }
    if b == b'\n' {
        return whole_line(state, workspace);
    }
    let held = state.held;
    if LINE_ROOM <= held {
        return Stepped::last(bad_line(state.line));
    }
    workspace.line[held] = b;
    Stepped {
        state: State {
            held: held + 1,
            ..state
        },
        text: Text::new(),
    }
}

// A text behind the first bytes of the output. Answers how many they are then.
fn put(out: &mut [u8], from: usize, text: &Text) -> usize
    requires { from + row_room ≤ length out.old }
    ensures fits { result ≤ length out.new }
    ensures printed { take result out.new ≡ take from out.old ++ text.now }
{
    let bytes = text.as_slice();
    let end = from + bytes.len();
    out[from..end].copy_from_slice(bytes);
    end
}

// The end of the input. Answers how many bytes were printed: none, where the output has no room for a row.
pub fn finish(state: State, out: &mut [u8]) -> usize
    ensures fits { result ≤ length out.new }
    ensures printed { take result out.new ≡ last_text state (length out.old) }
{
    if out.len() < ROW_ROOM {
        return 0;
    }
    put(out, 0, &last_text(state))
}

// What the end of the input prints.
fn last_text(state: State) -> Text
    ensures { result ≡ ending state }
{
    match state.phase {
        Phase::AwaitsCount => bad_line(1),
        Phase::AwaitsParent => bad_line(state.line),
        Phase::AwaitsQuestion if state.held == 0 => Text::new(),
        Phase::AwaitsQuestion => bad_line(state.line),
        Phase::AtEnd => Text::new(),
    }
}
