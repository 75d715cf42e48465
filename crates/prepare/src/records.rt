// JUMPS.
ghost use Rattle.std.specs.Prelude.{◌≡◌, ℕ, ◌+◌, ◌*◌, ◌<◌, ◌≤◌, length, get_or};
ghost use mathlib.Core.List.{flat_map};
ghost use Rattle.base.specs.Lists.{put};
ghost use Rattle.base.specs.Limits.{table_words, group_limit, record_words, jumps_start};
ghost use Rattle.table.specs.Groups.{jump_nodes, jump_record};
ghost use Rattle.table.specs.Table.{jump_cells};
ghost use Rattle.prepare.specs.Stages.{Sectioned, Reached, EndsBefore};

use crate::jumps::{jump_nodes, record};
use crate::order::Preorder;
use crate::places::{HEADER_CELLS, JUMPS, LADDER_WORDS, LADDERS, LADPOS, RECORD_WORDS};
use base::Node;

// Where the sections start that a record is filled from: DEPTH, LADPOS and LADDERS. JUMPS is lent whole and these by their places, as 2026-03 asks.
#[derive(Clone, Copy)]
struct Sources {
    depths: usize,
    ladpos: usize,
    ladders: usize,
}

// JUMPS, with the list of the jump entries in `nodes`.
pub(crate) fn jump_section(tree: Preorder, jumps: u32, nodes: &mut [u32], table: &mut [u32])
    requires { Sectioned tree.parents.now table.old × (length table.old ≡ table_words (length tree.parents.now)) × (length nodes.old ≡ length tree.parents.now) × (jumps ≡ length (jump_nodes group_limit tree.parents.now)) }
    ensures { table.new ≡ put table.old (jumps_start (length tree.entry.parents.now)) (jump_cells tree.entry.parents.now) }
{
    let n = tree.parents.len();
    let first = HEADER_CELLS + JUMPS * n;
    jump_nodes(
        tree,
        &table[HEADER_CELLS + n..HEADER_CELLS + LADPOS * n],
        nodes,
    );
    table[first..].fill(0);
    let from = Sources {
        depths: HEADER_CELLS,
        ladpos: HEADER_CELLS + LADPOS * n,
        ladders: HEADER_CELLS + LADDERS * n,
    };
    records(tree.parents, table, from, first, &nodes[..jumps as usize]);
}

// The records of the entries of a list, one behind another from `first` on. DEPTH, LADPOS and LADDERS, which they are filled from, lie before that.
fn records(parents: &[u32], table: &mut [u32], from: Sources, first: usize, nodes: &[u32])
    requires { Reached parents.now from.depths from.ladpos from.ladders table.old × EndsBefore parents.now from.depths from.ladpos from.ladders first × (first + record_words * length nodes.now ≤ length table.old) × ((i : ℕ) → i < length nodes.now → get_or nodes.now i 0 < length parents.now) }
    ensures { table.new ≡ put table.old first (flat_map (jump_record parents.now) nodes.now) }
{
    let mut at = first;
    for v in nodes {
        fill_record(parents, table, from, at, Node(*v));
        at += RECORD_WORDS;
    }
}

// The record of an entry, into the words from `at` on, from DEPTH, LADPOS and LADDERS, each at its place. All four may lie anywhere in the table, the record over the
// others too: none of its words is stored before all are worked out.
fn fill_record(parents: &[u32], table: &mut [u32], from: Sources, at: usize, v: Node)
    requires { Reached parents.now from.depths from.ladpos from.ladders table.old × (v.0 < length parents.now) × (at + record_words ≤ length table.old) }
    ensures filled { table.new ≡ put table.old at (jump_record parents.now v.0) }
{
    let n = parents.len();
    let deep = table[from.depths + v.0 as usize];
    let words = record(
        parents,
        &table[from.ladpos..from.ladpos + n],
        &table[from.ladders..from.ladders + LADDER_WORDS * n],
        deep,
        v,
    );
    table[at..at + RECORD_WORDS].copy_from_slice(&words);
}
