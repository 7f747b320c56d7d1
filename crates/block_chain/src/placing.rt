ghost use Rattle.std.specs.Prelude.{◌≡◌, ◌≢◌, ℕ, ◌+◌, ◌<◌, ◌≤◌, ◌^◌, ◌⊎◌, List, [], ◌∷◌, ◌++◌, length, filter, OnOk, IfOk, IfErr, IfSome, MatchResult, vec_len, vec_capacity};
ghost use Rattle.std.specs.Option.{ForSome};
ghost use Rattle.block_chain.specs.Blocks.{times, ascending, blocks_of_runs};
ghost use Rattle.block_chain.specs.Table.{linked_blocks};
ghost use Rattle.block_chain.specs.Layout.{IsChain};
ghost use Rattle.block_chain.specs.Placing.{link_of, is_hole, PlacesBlock, AreLinked, ArePlaced, KeepsLinks, PlacesMore, Explains};

use crate::lists::BlockList;
use crate::runs::Run;
use crate::table::ChainFault;

// The link of a block that no list has: no block has this number.
const NO_BLOCK: u32 = u32::MAX;

// Makes place for the link of a block.
fn reach(next: &mut Vec<u32>, blocks: u32, block: u32)
    requires below { block < blocks }
    requires room { blocks ≤ vec_capacity next.old }
    requires filled { vec_len next.old ≤ blocks }
    ensures room { blocks ≤ vec_capacity next.new }
    ensures filled { vec_len next.new ≤ blocks }
    ensures reached { block < vec_len next.new }
    ensures links { (b : ℕ) → link_of next.new.items b ≡ link_of next.old.items b }
{
    let len = block as usize + 1;
    if next.len() < len {
        next.resize(len, NO_BLOCK).unwrap();
    }
}

// Links a block behind the one before it in its list. The last block of a list is linked to itself.
fn place_block(
    next: &mut Vec<u32>,
    blocks: u32,
    before: Option<u32>,
    block: u32,
) -> Result<(), ChainFault>
    requires room { blocks ≤ vec_capacity next.old }
    requires filled { vec_len next.old ≤ blocks }
    requires before { ForSome before (λ b. link_of next.old.items b ≢ 4294967295) }
    ensures room { blocks ≤ vec_capacity next.new }
    ensures filled { vec_len next.new ≤ blocks }
    ensures placed { OnOk result (PlacesBlock blocks next.old.items next.new.items before block) }
    ensures refused { IfErr result (λ fault. (fault ≡ ChainFault.Overlap block)
        × ((blocks ≤ block) ⊎ (link_of next.old.items block ≢ 4294967295))) }
{
    if block >= blocks {
        return Err(ChainFault::Overlap { block });
    }
    reach(next, blocks, block);
    if next[block as usize] != NO_BLOCK {
        return Err(ChainFault::Overlap { block });
    }
    next[block as usize] = block;
    if let Some(before) = before {
        next[before as usize] = block;
    }
    Ok(())
}

// Links the blocks of a run behind the last one of their list, and answers the last one then.
#[tactic(auto, unfolding(crate::specs::Blocks::ascending))]
fn place_run(
    next: &mut Vec<u32>,
    blocks: u32,
    before: Option<u32>,
    run: &Run,
) -> Result<Option<u32>, ChainFault>
    requires room { blocks ≤ vec_capacity next.old }
    requires filled { vec_len next.old ≤ blocks }
    requires before { ForSome before (λ b. link_of next.old.items b ≢ 4294967295) }
    ensures room { blocks ≤ vec_capacity next.new }
    ensures filled { vec_len next.new ≤ blocks }
    ensures last { IfOk result (λ last. ForSome last (λ b. link_of next.new.items b ≢ 4294967295)) }
    ensures placed { (done own : List ℕ) → ArePlaced blocks next.old.items done own before
        → let more = own ++ ascending run.now.first run.now.count in
        MatchResult result (PlacesMore blocks next.old.items next.new.items done more)
        (Explains blocks (done ++ more)) }
{
    let mut last = before;
    for placed in 0..run.count {
        let block = run.first + placed;
        place_block(next, blocks, last, block)?;
        last = Some(block);
    }
    Ok(last)
}

// Links the blocks of a list.
pub(crate) fn place_list(next: &mut Vec<u32>, blocks: u32, runs: &[Run]) -> Result<(), ChainFault>
    requires room { blocks ≤ vec_capacity next.old }
    requires filled { vec_len next.old ≤ blocks }
    ensures room { blocks ≤ vec_capacity next.new }
    ensures filled { vec_len next.new ≤ blocks }
    ensures placed { (done : List ℕ) → ArePlaced blocks next.old.items done [] None
        → let more = done ++ blocks_of_runs runs.now in
        MatchResult result (λ _. ArePlaced blocks next.new.items more [] None
        × KeepsLinks next.old.items next.new.items done) (Explains blocks more) }
    ensures linked { (done : List ℕ) → ArePlaced blocks next.old.items done [] None
        → OnOk result (AreLinked next.new.items (blocks_of_runs runs.now)) }
{
    let mut last = None;
    for run in runs {
        last = place_run(next, blocks, last, run)?;
    }
    Ok(())
}

// Links the blocks that no list has, in ascending order.
#[tactic(auto, unfolding(crate::specs::Blocks::ascending))]
pub(crate) fn link_holes(next: &mut [u32]) -> BlockList
    requires { length next.old < 2 ^ 32 }
    ensures chain { IsChain next.new result }
    ensures holes { linked_blocks next.new result ≡ filter (is_hole next.old) (ascending 0 (length next.old)) }
    ensures others { (b : ℕ) → link_of next.old b ≢ 4294967295
        → link_of next.new b ≡ link_of next.old b }
{
    let mut holes = BlockList::empty();
    for block in 0..next.len() {
        if next[block] == NO_BLOCK {
            holes.append(next, BlockList::single(block as u32));
        }
    }
    holes
}
