//! Laws of the layout.
ghost use Rattle.std.specs.Prelude.{◌≡◌};
ghost use Rattle.log_history.specs.History.{LogEntry};
ghost use Rattle.log_record.specs.Layout.{IsRecord, spelling};
ghost use Rattle.log_record.specs.LayoutLaws.{FillsSlot};

/// No two records have the same 128 bytes.
#[tactic(auto, using(crate::specs::LayoutLaws::one_spelling_of))]
pub fn one_spelling()
    ensures { (a b : LogEntry) → IsRecord a → IsRecord b → spelling a ≡ spelling b → a ≡ b }
{}

/// Each record's bytes fill a slot.
#[tactic(auto, using(crate::specs::LayoutLaws::fills_slot))]
pub fn one_slot_each()
    ensures { (entry : LogEntry) → IsRecord entry → FillsSlot (spelling entry) }
{}
