//! Laws of the layouts.
ghost use Rattle.std.specs.Prelude.{◌≡◌, ℕ, Option, length};
ghost use Rattle.backup_lines.specs.Lines.{Line};
ghost use Rattle.boot_lines.specs.LineLayout.{IsLine, spelling};
ghost use Rattle.backup_lines.specs.Spans.{Active};
ghost use Rattle.boot_lines.specs.MarkLayout.{IsMark, spelling as mark_spelling};

/// Each line's bytes are 128.
#[tactic(auto, using(crate::specs::LineLaws::fills_slot))]
pub fn a_line_fills_its_slot()
    ensures { (line : Line) → length (spelling line) ≡ 128 }
{}

/// No two lines have the same bytes.
#[tactic(auto, using(crate::specs::LineLaws::one_line))]
pub fn one_line()
    ensures { (a b : Line) → IsLine a → IsLine b → spelling a ≡ spelling b → a ≡ b }
{}

/// No two records of the mark have the same bytes.
#[tactic(auto, using(crate::specs::MarkLaws::one_record))]
pub fn one_record()
    ensures { (number other : ℕ) (active another : Option Active) → IsMark number active → IsMark other another
        → mark_spelling number active ≡ mark_spelling other another → (number ≡ other) × (active ≡ another) }
{}
