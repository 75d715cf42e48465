// What a program lends for its whole run.
ghost use Rattle.counter_stream.specs.Loans.{lent_by};
ghost use Rattle.counter_stream.specs.Pieces.{Buffers};

use crate::workspace::Workspace;

// The output and the workspace, which have room for the longest row, line and list.
#[derive(Drop)]
pub struct ProgramBuffers<'a> {
    pub out: &'a mut [u8],
    pub workspace: Workspace<'a>,
    pub ghost room: { Buffers (lent_by workspace) out.now },
}
