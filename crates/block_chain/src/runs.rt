ghost use Rattle.std.specs.Prelude.{◌≡◌, ◌+◌, ◌<◌, ◌≤◌, ◌^◌, ◌↔◌, IsTrue};
ghost use Rattle.block_chain.specs.Blocks.{blocks_for as blocks_for_bytes};

use crate::lists::BlockList;

/// The blocks of 4,096 bytes that so many bytes take.
pub fn blocks_for(size: u64) -> u64
    ensures { result ≡ blocks_for_bytes size }
{
    size.div_ceil(4096)
}

/// Neighbouring blocks: `count` of them from `first` on.
#[derive(Clone, Copy, Debug, PartialEq, Eq)]
pub struct Run {
    pub first: u32,
    pub count: u32,
}

impl Run {
    ghost use Rattle.block_chain.specs.Layout.{run_list};

    // One block.
    pub(crate) fn of_block(block: u32) -> Self
        ensures { result ≡ record { first = block; count = 1 } }
    {
        Run {
            first: block,
            count: 1,
        }
    }

    // Is this the block behind the last one?
    pub(crate) fn ends_before(&self, block: u32) -> bool
        ensures { IsTrue result ↔ (block ≡ self.now.first + self.now.count) }
    {
        block >= self.first && block - self.first == self.count
    }

    // Where a list of these blocks begins and ends.
    pub(crate) fn as_list(&self) -> BlockList
        requires { 0 < self.now.count → self.now.first + self.now.count ≤ 2 ^ 32 }
        ensures { result ≡ run_list self.now }
    {
        BlockList {
            head: self.first,
            tail: self.first + self.count.saturating_sub(1),
            len: self.count,
        }
    }
}
