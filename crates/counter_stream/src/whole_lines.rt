// A whole line: what it prints, and the state behind it.
ghost use Rattle.std.specs.Prelude.{◌≡◌, ◌-◌, take};
ghost use Rattle.lines.specs.Stages.{listed};
ghost use Rattle.counter_stream.specs.declared.phases.Phase.TheVariants.{AwaitsCount, AwaitsParent, AwaitsQuestion};
ghost use Rattle.counter_stream.specs.Fitness.{end_state};
ghost use Rattle.counter_stream.specs.Loans.{lent_by, SameLoan};
ghost use Rattle.counter_stream.specs.Lines.{LineDue, LineTurned, ListDue, Turned};

use crate::phases::{Phase, State};
use crate::workspace::Workspace;
use base::limits::table_words;
use lines::reading::{read_count, read_parent, read_question};
use lines::room::MOST_LISTED;
use lines::text::Text;
use lines::writing::{bad_line, bad_list, header_row, reply_row};
use prepare::prepare;
use query::level;

// The state behind some bytes, and what they printed.
#[derive(Clone, Copy)]
pub struct Stepped {
    pub state: State,
    pub text: Text,
}

impl Stepped {
    // A text, and the end behind it.
    pub(crate) fn last(text: Text) -> Stepped
        ensures { result ≡ record { state = end_state; text = text } }
    {
        Stepped {
            state: State::end(),
            text,
        }
    }
}

// A whole line, in any phase.
pub(crate) fn whole_line(state: State, workspace: &mut Workspace<'_>) -> Stepped
    requires { LineDue state (lent_by workspace.old) }
    ensures turned { LineTurned state (lent_by workspace.old) result.state (lent_by workspace.new) result.text }
    ensures lent { SameLoan workspace.old workspace.new }
{
    match state.phase {
        Phase::AwaitsCount => count_line(state, workspace),
        Phase::AwaitsParent => parent_line(state, workspace),
        Phase::AwaitsQuestion => question_line(state, workspace),
        Phase::AtEnd => Stepped::last(Text::new()),
    }
}

// The line of the count.
fn count_line(state: State, workspace: &mut Workspace<'_>) -> Stepped
    requires due { LineDue state (lent_by workspace.old) }
    requires phase { state.phase ≡ AwaitsCount }
    ensures turned { LineTurned state (lent_by workspace.old) result.state (lent_by workspace.new) result.text }
    ensures lent { SameLoan workspace.old workspace.new }
{
    let Some(count) = read_count(&workspace.line[..state.held]) else {
        return Stepped::last(bad_line(1));
    };
    if MOST_LISTED < count {
        return Stepped::last(bad_line(1));
    }
    let next = State {
        phase: Phase::AwaitsParent,
        line: 2,
        count,
        filled: 0,
        held: 0,
    };
    list_so_far(next, workspace)
}

// The line of a parent.
fn parent_line(state: State, workspace: &mut Workspace<'_>) -> Stepped
    requires due { LineDue state (lent_by workspace.old) }
    requires phase { state.phase ≡ AwaitsParent }
    ensures turned { LineTurned state (lent_by workspace.old) result.state (lent_by workspace.new) result.text }
    ensures lent { SameLoan workspace.old workspace.new }
{
    let Some(parent) = read_parent(&workspace.line[..state.held]) else {
        return Stepped::last(bad_line(state.line));
    };
    workspace.parents[state.filled as usize] = parent;
    let next = State {
        line: state.line + 1,
        filled: state.filled + 1,
        held: 0,
        ..state
    };
    list_so_far(next, workspace)
}

// The list so far: prepared once it is whole.
fn list_so_far(state: State, workspace: &mut Workspace<'_>) -> Stepped
    requires { ListDue state (lent_by workspace.old) }
    ensures turned { Turned (listed (state.count - state.filled) (take state.filled workspace.old.parents.now) state.line) state.line result.state (lent_by workspace.new) result.text }
    ensures lent { SameLoan workspace.old workspace.new }
{
    if state.filled < state.count {
        return Stepped {
            state,
            text: Text::new(),
        };
    }
    // Lent as `&mut` too: a `&` to one buffer beside a `&mut` to another of the same workspace is not covered by the borrow checker's proofs.
    let list = &mut workspace.parents[..state.count as usize];
    match prepare(list, workspace.table, workspace.space) {
        Ok(_) => Stepped {
            state: State {
                phase: Phase::AwaitsQuestion,
                ..state
            },
            text: header_row(),
        },
        Err(refusal) => Stepped::last(bad_list(refusal.number(), refusal.word())),
    }
}

// The line of a question.
fn question_line(state: State, workspace: &Workspace<'_>) -> Stepped
    requires due { LineDue state (lent_by workspace.now) }
    requires phase { state.phase ≡ AwaitsQuestion }
    ensures { LineTurned state (lent_by workspace.now) result.state (lent_by workspace.now) result.text }
{
    let Some(question) = read_question(&workspace.line[..state.held]) else {
        return Stepped::last(bad_line(state.line));
    };
    let table = &workspace.table[..table_words(state.count)];
    let answer = level(table, question.entry, question.depth);
    let cells = answer.cells.count as u32;
    let text = reply_row(question, answer.number, answer.word, cells);
    let state = State {
        line: state.line + 1,
        held: 0,
        ..state
    };
    Stepped { state, text }
}
