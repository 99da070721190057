ghost use Rattle.std.specs.Prelude.{◌≡◌, ◌≤◌, length, slice_range};
ghost use Rattle.std.specs.Borrow.{sem};
ghost use Rattle.row_lists.specs.Words.{LendsFrom, LendsPart};

/// A run of words.
#[derive(Debug, Drop)]
pub(crate) struct Words {
    pub(crate) all: Vec<u64>,
}

impl Words {
    /// A part of the words, to be changed. The clause lets what is written reach past the part.
    fn range_mut(&mut self, from: usize, to: usize) -> &mut [u64]
        requires order { from ≤ to }
        requires within { to ≤ length self.old.all.items }
        ensures* writes_back { sem 𝓛 (LendsFrom self.entry from result) }
        ensures value { result.now ≡ slice_range self.old.all.items from to }
    {
        self.all.slice_mut(from..to)
    }

    /// A part of the words, to be changed, and no word beside it.
    pub(crate) fn part_mut(&mut self, from: usize, to: usize) -> &mut [u64]
        requires order { from ≤ to }
        requires within { to ≤ length self.old.all.items }
        ensures* writes_back { sem 𝓛 (LendsPart self.entry from result) }
        ensures value { result.now ≡ slice_range self.old.all.items from to }
    {
        self.range_mut(from, to)
    }
}
