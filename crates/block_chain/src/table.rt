ghost use Rattle.std.specs.Prelude.{◌≡◌, ◌<◌, ◌↔◌, [], ◌∷◌, ◌++◌, length, ◌==◌, ℕ, List, All, filter, IsNone, IfSome, IfNone, IfOk, OnOk, IsErrOf};
ghost use Rattle.block_chain.specs.Blocks.{times, ascending, blocks_of_runs, blocks_of_lists, AreSound, ArePartition, AreMaximal, RefusesFirst, FitsRun};
ghost use Rattle.std.specs.List.{AllByRecursion};
ghost use Rattle.block_chain.specs.Table.{blocks_of, IsListOf, AreListed, KeepsOthers, MovesFirst};

use crate::lists::BlockList;
use crate::placing::{link_holes, place_list};
use crate::runs::Run;
use std::alloc::Global;
use std::marker::Model;
use thiserror::Error;

/// There was no memory for the runs of a list.
#[derive(Clone, Copy, Debug, PartialEq, Eq, Error)]
#[error("out of memory")]
pub struct OutOfMemory;

/// Why a table wasn't made.
#[derive(Clone, Copy, Debug, PartialEq, Eq, Error)]
pub enum ChainFault {
    /// This block stands twice in the lists, or isn't below the number of blocks.
    #[error("block {block} stands twice or is out of range")]
    Overlap { block: u32 },
    /// There was no memory for the links.
    #[error("out of memory")]
    OutOfMemory,
}

/// A table of blocks: the free ones as a chain, the others linked as the lists that hold them.
#[derive(Drop)]
pub struct Chains {
    blocks: u32,
    // The link of each block that was ever taken, and of those below it. The blocks from its length on
    // are free, and their chain goes up by one.
    next: Vec<u32>,
    // The free blocks that come before those, and the ones that come behind them.
    holes: BlockList,
    returned: BlockList,
}

impl Model for Chains {
    ghost use Rattle.std.specs.Prelude.{ℕ};
    ghost use Rattle.std.specs.Vec.{vec_capacity};
    ghost use Rattle.block_chain.specs.Table.{Table};
    ghost use Rattle.block_chain.specs.Layout.{table_of, IsLaidOut};

    ghost Value = { Table };

    ghost view = { λ c. table_of c.blocks c.next.items c.holes c.returned };

    ghost invariant = { λ c. IsLaidOut c.blocks (vec_capacity c.next) c.next.items c.holes c.returned };
}

impl Chains {
    /// Makes a table of so many blocks. The blocks of the live lists are taken, each list linked in
    /// the order of its runs, and all others are free, in ascending order.
    ///
    /// It takes the room of the whole table at once, four bytes a block, so that later calls take none,
    /// and fills it up to the highest live block.
    pub fn new(alloc: Global, blocks: u32, live: &[Vec<Run>]) -> Result<Chains, ChainFault>
        ensures blocks { IfOk result (λ table. table.blocks ≡ blocks) }
        ensures free { IfOk result (λ table. table.free
            ≡ filter (λ block. times block (blocks_of_lists live.now) == 0) (ascending 0 blocks)) }
        ensures listed { IfOk result (λ table.
            All (λ runs. AreListed table (blocks_of_runs runs.items)) live.now) }
        ensures parted { IfOk result (λ table.
            ArePartition blocks (table.free ++ blocks_of_lists live.now)) }

        // The block that is named is the first, in the order of the lists and of the runs in them.
        ensures sound { OnOk result (AreSound blocks (blocks_of_lists live.now)) }
        ensures overlap { (block : ℕ) → IsErrOf result (ChainFault.Overlap block)
            → RefusesFirst blocks (blocks_of_lists live.now) block }
    {
        let mut next = Vec::with_capacity(alloc, blocks as usize).map_err(
            |_| ChainFault::OutOfMemory,
        )?;
        for runs in live {
            place_list(&mut next, blocks, runs)?;
        }
        let holes = link_holes(&mut next);
        Ok(Chains {
            blocks,
            next,
            holes,
            returned: BlockList::empty(),
        })
    }

    /// How many blocks are free.
    pub fn free(&self) -> u32
        ensures count { result ≡ length self.now.free }
        ensures sound { AreSound self.now.blocks self.now.free }
    {
        self.holes.len + (self.blocks - self.next.len() as u32) + self.returned.len
    }

    /// A list of no block.
    pub fn empty_list(&self) -> BlockList
        ensures own { IsListOf self.now result }
        ensures empty { blocks_of self.now result ≡ [] }
    {
        BlockList::empty()
    }

    // Takes the first free block, which is then in no list.
    #[tactic(auto, unfolding(crate::specs::Blocks::ascending))]
    fn take_free(&mut self) -> Option<u32>
        ensures none { IsNone result ↔ (self.old.free ≡ []) }
        ensures some { IfSome result (λ block. self.old.free ≡ block ∷ self.new.free) }
        ensures blocks { self.new.blocks ≡ self.old.blocks }
        ensures others { KeepsOthers self.old self.new [] }
        ensures sound { AreSound self.old.blocks self.old.free }
        ensures within { IfSome result (λ block. block < length self.new.links) }
        ensures refused { IfNone result (self.new ≡ self.old) }
    {
        if let Some(block) = self.holes.pop_first(&self.next) {
            return Some(block);
        }
        let fresh = self.next.len() as u32;
        if fresh < self.blocks {
            self.next.push_reserved(fresh);
            return Some(fresh);
        }
        let block = self.returned.pop_first(&self.next)?;
        Some(block)
    }

    /// Moves the first free block to the end of the list and answers it. Nothing changes where no block
    /// is free.
    pub fn take_first(&mut self, list: &mut BlockList) -> Option<u32>
        requires own { IsListOf self.old list.old }
        ensures none { IsNone result ↔ (self.old.free ≡ []) }
        ensures moved { IfSome result (MovesFirst self.old self.new list.old list.new) }
        ensures own { IsListOf self.new list.new }
        ensures others { KeepsOthers self.old self.new (blocks_of self.old list.old) }
        ensures refused { IfNone result ((self.new ≡ self.old) × (list.new ≡ list.old)) }

        // What the free chain, this list and others part, they part again.
        ensures parted { (others : List ℕ)
            → ArePartition self.old.blocks (self.old.free ++ (blocks_of self.old list.old ++ others))
            → ArePartition self.new.blocks (self.new.free ++ (blocks_of self.new list.new ++ others)) }
    {
        let block = self.take_free()?;
        let taken = BlockList::single(block);
        list.append(&mut self.next, taken);
        Some(block)
    }

    /// Puts the blocks of the list behind the free ones, by one change of link.
    pub fn give_back(&mut self, list: BlockList)
        requires own { IsListOf self.old list }
        ensures free { self.new.free ≡ self.old.free ++ blocks_of self.old list }
        ensures blocks { self.new.blocks ≡ self.old.blocks }
        ensures others { KeepsOthers self.old self.new (blocks_of self.old list) }

        // What the free chain, this list and others part, the free chain and the others part.
        ensures parted { (others : List ℕ)
            → ArePartition self.old.blocks (self.old.free ++ (blocks_of self.old list ++ others))
            → ArePartition self.new.blocks (self.new.free ++ others) }
    {
        self.returned.append(&mut self.next, list);
    }

    /// The list that has the blocks of these runs, in their order.
    pub fn list_of(&self, runs: &[Run]) -> BlockList
        requires listed { AreListed self.now (blocks_of_runs runs.now) }
        ensures own { IsListOf self.now result }
        ensures list { blocks_of self.now result ≡ blocks_of_runs runs.now }
    {
        // The number of blocks fits its type, and no sum below is larger.
        let _ = &self.blocks;
        let mut list = BlockList::empty();
        for run in runs {
            list.join(run.as_list());
        }
        list
    }

    /// The list's blocks in order, as runs of which none begins where the one before it ends. It takes
    /// time in the number of blocks of the list, and memory in that of the runs.
    #[tactic(auto, unfolding(crate::specs::Blocks::ascending))]
    pub fn runs(&self, list: &BlockList) -> Result<Vec<Run>, OutOfMemory>
        requires own { IsListOf self.now list.now }
        ensures runs { IfOk result (λ runs. blocks_of_runs runs.items ≡ blocks_of self.now list.now) }
        ensures maximal { IfOk result (λ runs. AreMaximal runs.items) }
        ensures fit { IfOk result (λ runs. AllByRecursion FitsRun runs.items) }
        ensures listed { IfOk result (λ runs. AreListed self.now (blocks_of_runs runs.items)) }
    {
        let mut runs = Vec::new(*self.next.allocator());
        if list.len == 0 {
            return Ok(runs);
        }
        let mut block = list.head;
        let mut left = list.len - 1;
        let mut run = Run::of_block(block);
        while left > 0 {
            block = self.next[block as usize];
            left -= 1;
            if run.ends_before(block) {
                run.count += 1;
            } else {
                runs.push(run).map_err(|_| OutOfMemory)?;
                run = Run::of_block(block);
            }
        }
        runs.push(run).map_err(|_| OutOfMemory)?;
        Ok(runs)
    }
}
