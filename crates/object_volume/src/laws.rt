//! Laws of what is spared, as contracts of functions that do nothing.
ghost use Rattle.std.specs.Prelude.{◌≡◌, ◌<◌, ◌++◌, ℕ, List};
ghost use Rattle.block_chain.specs.Blocks.{times, AreApart, blocks_of_runs};
ghost use Rattle.block_chain.specs.Table.{Table, AreListed};
ghost use Rattle.block_chain.specs.declared.runs.Run.{Run as Run-of-blocks};
ghost use Rattle.object_volume.specs.Objects.{object, object_places, Spares};

/// An object reads as before where its blocks are spared and each of its places is below the limit.
pub fn spared_objects_read_the_same()
    ensures { (runs : List Run-of-blocks) (size : ℕ) (blocks : List ℕ) (limit : ℕ) (old new : List ℕ)
        → Spares blocks limit old new → AreApart blocks (blocks_of_runs runs)
        → ((place : ℕ) → 0 < times place (object_places runs size) → place < limit) → object runs size new ≡ object runs size old }
{}

/// No block of a live object is free, or belongs to the object that is being sent.
pub fn live_blocks_are_apart()
    ensures { (table : Table) (sent live : List ℕ) → AreListed table live → AreApart sent live → AreApart (sent ++ table.free) live }
{}
