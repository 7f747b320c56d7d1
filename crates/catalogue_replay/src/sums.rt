//! The blocks of runs.
ghost use Rattle.std.specs.Prelude.{◌≡◌, ◌-◌, ◌^◌, min};
ghost use Rattle.block_chain.specs.Blocks.{blocks_in as blocks_in_runs};

use block_chain::Run;

/// The blocks of runs, at most 2^64 - 1.
pub(crate) fn blocks_in(runs: &[Run]) -> u64
    ensures { result ≡ min (blocks_in_runs runs.now) (2 ^ 64 - 1) }
{
    let mut blocks: u64 = 0;
    for run in runs {
        blocks = blocks.saturating_add(u64::from(run.count));
    }
    blocks
}
