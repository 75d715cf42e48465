// The classes of a level: the entries of a list that are not below it.
ghost use Rattle.std.specs.Prelude.{◌<◌, IsTrue};

use samples::climbing::climbs;

// A list of n entries, and a level of it.
#[derive(Clone, Copy)]
pub struct Classes<'a> {
    pub parents: &'a [u32],
    pub n: usize,
    pub level: usize,
}

impl<'a> Classes<'a> {
    pub fn has(&self, v: usize) -> bool
        ensures { IsTrue result → v < self.now.n }
    {
        v < self.n && climbs(self.parents, self.n, v) <= self.level
    }
}
