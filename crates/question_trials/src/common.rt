// The class that two entries share and the climbs between them, held to two plain climbs; on a damaged table to what turns the question away.
use crate::asking::{Outcome, Trial};
use base::{Node, reply_words};
use common_ancestors::{distance, nearest_common_ancestor};
use plain_steps::entries;
use samples::refusals::{Refusal, numbers};
use samples::tally::Tally;
use samples::words::{TOP, get, narrow};

// The engine's reply.
type Reply = Result<u32, base::Refusal>;

// How many climbs lead from v to u, where some do.
pub(crate) fn apart(parents: &[u32], u: usize, v: usize) -> Option<usize> {
    let mut at = v;
    for k in 0..parents.len() {
        if at == u {
            return Some(k);
        }
        if at == TOP {
            return None;
        }
        at = get(parents, at);
    }
    None
}

// An entry, and the climbs to it from both.
#[derive(Clone, Copy)]
struct Shared {
    class: usize,
    climbs: usize,
}

// The first entry of u's climb that is on v's.
fn first_shared(parents: &[u32], u: usize, v: usize) -> Option<Shared> {
    let mut at = u;
    for j in 0..parents.len() {
        if let Some(k) = apart(parents, at, v) {
            let climbs = j.wrapping_add(k);
            return Some(Shared { class: at, climbs });
        }
        at = get(parents, at);
    }
    None
}

// Whether a reply is what it is to be.
fn gives(reply: Reply, want: Outcome) -> Tally {
    let said = reply_words(reply);
    let (number, word) = numbers(want);
    Tally::of(said[0] as usize == number && said[1] as usize == word)
}

// A reply of less than a bound, or that the table is broken.
fn within(reply: Reply, bound: usize) -> Tally {
    match reply {
        Ok(word) => Tally::of((word as usize) < bound),
        Err(_) => gives(reply, Err(Refusal::Broken)),
    }
}

impl<'a> Trial<'a> {
    fn nearest(&self, u: usize, v: usize) -> Reply {
        nearest_common_ancestor(self.table, Node(narrow(u)), Node(narrow(v)))
    }

    fn distance(&self, u: usize, v: usize) -> Reply {
        distance(self.table, Node(narrow(u)), Node(narrow(v)))
    }

    // Both questions are refused.
    fn refused(&self, u: usize, v: usize, refusal: Refusal) -> Tally {
        gives(self.nearest(u, v), Err(refusal)).plus(gives(self.distance(u, v), Err(refusal)))
    }

    // Both questions on a prepared table.
    pub(crate) fn common(&self, u: usize, v: usize) -> Tally {
        let n = self.parents.len();
        if n <= u {
            return self.refused(u, v, Refusal::Unknown(u));
        }
        if n <= v {
            return self.refused(u, v, Refusal::Unknown(v));
        }
        match first_shared(self.parents, u, v) {
            Some(shared) => gives(self.nearest(u, v), Ok(shared.class)).plus(gives(
                self.distance(u, v),
                Ok(shared.climbs),
            )),
            None => Tally::wrong().plus(Tally::wrong()),
        }
    }

    // Both questions on a table of any contents: where step 1 calls it broken they are refused, then for the first argument that is no entry; else they give an
    // entry and fewer climbs than twice the entries, or that the table is broken.
    pub(crate) fn common_any(&self, u: usize, v: usize) -> Tally {
        let Some(n) = entries(self.table) else {
            return self.refused(u, v, Refusal::Broken);
        };
        if n <= u {
            return self.refused(u, v, Refusal::Unknown(u));
        }
        if n <= v {
            return self.refused(u, v, Refusal::Unknown(v));
        }
        within(self.nearest(u, v), n).plus(within(self.distance(u, v), n.wrapping_mul(2)))
    }
}
