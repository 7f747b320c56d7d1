//! Laws of runs, each as the contract of a function that does nothing.
ghost use Rattle.std.specs.Prelude.{◌≡◌, ◌<◌, ◌^◌, ℕ, List, length};
ghost use Rattle.std.specs.List.{AllByRecursion};
ghost use Rattle.block_chain.specs.Blocks.{AreSound, AreMaximal, FitsRun, blocks_of_runs, blocks_in};
ghost use Rattle.block_chain.specs.declared.runs.Run.{Run};

/// A list of blocks is that of one list of maximal runs.
#[tactic(auto, using(crate::specs::RunLaws::maximal_once))]
pub fn one_list_of_runs()
    ensures { (a b : List Run) → AreMaximal a → AreMaximal b → blocks_of_runs a ≡ blocks_of_runs b → a ≡ b }
{}

/// Runs have as many blocks as their counts say, and fit where the blocks are those of a table.
#[tactic(auto, using(crate::specs::RunLaws::sound_runs_fit))]
pub fn runs_of_a_table_fit()
    ensures count { (runs : List Run) → length (blocks_of_runs runs) ≡ blocks_in runs }
    ensures fit { (blocks : ℕ) (runs : List Run) → blocks < 2 ^ 32 → AreSound blocks (blocks_of_runs runs) → AreMaximal runs
        → AllByRecursion FitsRun runs }
{}
