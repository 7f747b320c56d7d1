//! Laws of a log's disk.
ghost use Rattle.std.specs.Prelude.{◌≡◌, ℕ, List};
ghost use Rattle.log_files.specs.Files.{LogFiles};
ghost use Rattle.log_files.specs.Ring.{HoldsRing};
ghost use Rattle.log_files.specs.declared.faults.LogFault.{LogFault};
ghost use Rattle.log_scan.specs.Refusals.{Refuses};

/// Bytes hold one log at most.
pub fn one_log()
    ensures { (site : ℕ) (a b : LogFiles) (bytes : List ℕ) → HoldsRing site a bytes → HoldsRing site b bytes → a ≡ b }
{}

/// Bytes that hold a log aren't refused, and bytes are refused by one fault at most.
#[tactic(auto, using(crate::proofs::LawLemmas::one_refusal))]
pub fn one_answer()
    ensures held { (site : ℕ) (files : LogFiles) (bytes : List ℕ) (fault : LogFault) → HoldsRing site files bytes → Refuses site bytes fault → ⊥ }
    ensures refused { (site : ℕ) (bytes : List ℕ) (a b : LogFault) → Refuses site bytes a → Refuses site bytes b → a ≡ b }
{}
