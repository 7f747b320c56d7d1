//! The laws, each as the contract of a function.
ghost use Rattle.std.specs.Prelude.{Bool, ◌≡◌, ◌<◌, ◌≤◌, fold, length, ℕ};
ghost use Rattle.log_history.specs.Effects.{empty_page, page_at, with_change};
ghost use Rattle.log_history.specs.History.{History};
ghost use Rattle.log_history.specs.Transactions.{InOrder};
ghost use Rattle.history_laws.specs.PagesLaws.{changes_above};
ghost use Rattle.site_worlds.specs.Fitness.{IsFitSite};
ghost use Rattle.site_worlds.specs.Worlds.{Site};
ghost use Rattle.site_courses.specs.Plans.{chain_at};
ghost use Rattle.restore_laws.specs.Merged.{merged, top_at};
ghost use Rattle.needed_laws.specs.Needed.{changes_read, is_read};
ghost use Rattle.needed_laws.specs.SufficesLaws.{ReadsAll};

/// Where all is read that is live at q, from the oldest Begin on that is open at a, the changes above a are those of the history,
/// whatever else is read or isn't.
pub fn what_is_read_gives_the_changes()
    ensures { (history : History) → InOrder history → (q a : ℕ) (test : ℕ → Bool) → ReadsAll test history q a
        → changes_read test history q a ≡ changes_above history q a }
{}

/// Of a fit site the archives that are planned for a space, merged from an empty page, and then the changes behind the last of them
/// that stand in the needed files of the log, give each page of the space at the position.
pub fn archives_and_the_needed_log_give_the_page()
    ensures { (site : Site) → IsFitSite site → (to space : ℕ) → to ≤ length site.history → space < length site.head.spaces
        → 1 ≤ length (chain_at site space to) → (number : ℕ)
        → fold (with_change space number) (fold (merged site.history number) empty_page (chain_at site space to))
        (changes_read (is_read site to) site.history to (top_at 0 (chain_at site space to)))
        ≡ page_at site.history to space number }
{}
