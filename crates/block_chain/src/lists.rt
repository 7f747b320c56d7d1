ghost use Rattle.std.specs.Prelude.{◌≡◌, ℕ, ◌+◌, ◌<◌, ◌≤◌, ◌^◌, ◌↔◌, ◌∷◌, ◌++◌, IsNone, IfSome, IfNone};

/// A list of blocks of one table of chains: which block it begins and ends with, and how many it has.
///
/// Only the table knows the blocks between.
#[derive(Debug, Drop)]
pub struct BlockList {
    pub(crate) head: u32,
    pub(crate) tail: u32,
    pub(crate) len: u32,
}

impl BlockList {
    ghost use Rattle.block_chain.specs.Blocks.{times};
    ghost use Rattle.block_chain.specs.Table.{linked_blocks};
    ghost use Rattle.block_chain.specs.Layout.{IsChain, joined, joined_links};

    // A list of no block.
    pub(crate) fn empty() -> Self
        ensures { result ≡ record { head = 0; tail = 0; len = 0 } }
    {
        BlockList {
            head: 0,
            tail: 0,
            len: 0,
        }
    }

    // A list of one block.
    pub(crate) fn single(block: u32) -> Self
        ensures { result ≡ record { head = block; tail = block; len = 1 } }
    {
        BlockList {
            head: block,
            tail: block,
            len: 1,
        }
    }

    // Puts a list behind this one, by one change of link.
    pub(crate) fn append(&mut self, next: &mut [u32], behind: BlockList)
        requires chain { IsChain next.old self.old }
        requires behind { IsChain next.old behind }
        requires once { (block : ℕ) → times block (linked_blocks next.old self.old)
            + times block (linked_blocks next.old behind) ≤ 1 }
        requires fits { self.old.len + behind.len < 2 ^ 32 }
        ensures links { next.new ≡ joined_links next.old self.old behind }
        ensures list { self.new ≡ joined self.old behind }
    {
        if self.len > 0 && behind.len > 0 {
            next[self.tail as usize] = behind.head;
        }
        self.join(behind);
    }

    // Where the list begins and ends with another behind it.
    pub(crate) fn join(&mut self, behind: BlockList)
        requires { self.old.len + behind.len < 2 ^ 32 }
        ensures { self.new ≡ joined self.old behind }
    {
        if behind.len == 0 {
            return;
        }
        if self.len == 0 {
            *self = behind;
            return;
        }
        self.tail = behind.tail;
        self.len += behind.len;
    }

    // Takes the first block away.
    pub(crate) fn pop_first(&mut self, next: &[u32]) -> Option<u32>
        requires { IsChain next.now self.old }
        ensures none { IsNone result ↔ (self.old.len ≡ 0) }
        ensures some { IfSome result (λ block.
            linked_blocks next.now self.old ≡ block ∷ linked_blocks next.now self.new) }
        ensures chain { IsChain next.now self.new }
        ensures kept { IfNone result (self.new ≡ self.old) }
    {
        if self.len == 0 {
            return None;
        }
        let block = self.head;
        self.head = next[block as usize];
        self.len -= 1;
        Some(block)
    }
}
