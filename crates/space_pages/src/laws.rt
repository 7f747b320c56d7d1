//! Laws of the pages and of the changes.
ghost use Rattle.std.specs.Prelude.{◌≡◌, ◌≤◌, ℕ, suc, List, [], ◌∷◌, ◌++◌, length, map, true, Some};
ghost use Rattle.std.specs.List.{AllByRecursion};
ghost use Rattle.log_history.specs.History.{LogEntry, History};
ghost use Rattle.log_history.specs.Live.{ResetPoint, live_by, reset_points};
ghost use Rattle.log_history.specs.Effects.{Page, change_by, changes};
ghost use Rattle.log_history.specs.Transactions.{Refusal, Table, given, refusal, table_of};
ghost use Rattle.log_record.specs.Layout.{IsRecord};
ghost use Rattle.space_pages.specs.Pages.{LieWithin, brought, empty_pages, pages_of};
ghost use Rattle.space_pages.specs.Progress.{changes_until, given_at};

/// The changes at a position, laid into pages that were never written, make the pages of the space at that position.
#[tactic(auto, using(crate::specs::PagesLaws::changes_make_pages))]
pub fn the_changes_make_the_pages()
    ensures { (history : History) (n space first count : ℕ)
        → brought space first (changes history n) (empty_pages count) ≡ pages_of history n space first count }
{}

/// What all records give, by the reset_points of a history, are the changes of that history.
#[tactic(auto, using(crate::specs::ProgressLaws::all_changes))]
pub fn all_records_give_the_changes()
    ensures { (history : History) (n : ℕ) → changes_until (reset_points history) n history ≡ changes history n }
{}

/// Pages that the records before one brought forward are brought further by what that one gives.
#[tactic(auto, using(crate::specs::ProgressLaws::one_record_further))]
pub fn a_record_brings_the_pages_further()
    ensures { (resets : List ResetPoint) (n space first : ℕ) (past : History) (entry : LogEntry) (pages : List Page)
        → brought space first (changes_until resets n (past ++ entry ∷ [])) pages
        ≡ brought space first (given_at resets n (suc (length past)) entry (table_of past))
        (brought space first (changes_until resets n past) pages) }
{}

/// Where there is no Reset each position up to the end is live.
#[tactic(auto, using(crate::specs::ProgressLaws::all_live))]
pub fn without_a_reset_all_is_live()
    ensures { (n x : ℕ) → x ≤ n → live_by [] n x ≡ true }
{}

/// What a record gives lies within pages, where the records before it have spellings.
#[tactic(auto, using(crate::specs::ProgressLaws::given_lies_within))]
pub fn what_is_given_lies_within()
    ensures { (x : ℕ) (past : History) (entry : LogEntry) → AllByRecursion IsRecord past
        → LieWithin (map (change_by x) (given entry (table_of past))) }
{}

/// A record that the open transactions refuse gives nothing.
#[tactic(auto, using(crate::specs::ProgressLaws::refused_gives_nothing))]
pub fn a_refused_record_gives_nothing()
    ensures { (resets : List ResetPoint) (n x : ℕ) (entry : LogEntry) (table : Table) (r : Refusal)
        → refusal entry table ≡ Some r → given_at resets n x entry table ≡ [] }
{}
