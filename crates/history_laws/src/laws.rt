//! The laws, each as the contract of a function.
ghost use Rattle.std.specs.Prelude.{◌≡◌, ◌<◌, ◌≤◌, ◌++◌, ℕ, List, length, filter, fold, true, Some, nat_lt};
ghost use Rattle.log_history.specs.History.{History, entry_at, reset};
ghost use Rattle.log_history.specs.Live.{live, live_by, reset_points};
ghost use Rattle.log_history.specs.Effects.{changes, effective, page_at, with_change};
ghost use Rattle.history_laws.specs.PagesLaws.{changes_above};

/// What is live at a position is at most that position; and up to a live position, what is live is what is live at it.
#[tactic(auto, using(crate::specs::LiveLaws::live_within, crate::specs::LiveLaws::live_along))]
pub fn what_is_live_at_a_live_position()
    ensures within { (history : History) (n x : ℕ) → live history n x ≡ true → x ≤ n }
    ensures along { (history : History) (q a x : ℕ) → live history q a ≡ true → x ≤ a → live history q x ≡ live history a x }
{}

/// Behind a Reset the commits in effect, and the pages, are those of its target.
#[tactic(auto, using(crate::specs::EffectiveLaws::effective_at_reset, crate::specs::PagesLaws::page_at_reset))]
pub fn a_reset_goes_back_to_its_target()
    ensures commits { (history : History) (x restore target time : ℕ) → entry_at history x ≡ Some (reset restore target time) → target < x
        → effective history x ≡ effective history target }
    ensures pages { (history : History) (x restore target time space number : ℕ) → entry_at history x ≡ Some (reset restore target time) → target < x
        → page_at history x space number ≡ page_at history target space number }
{}

/// Records change nothing at the positions before them: a batch, and a log whose last files are lost.
#[tactic(auto, using(crate::specs::EffectiveLaws::effective_before, crate::specs::PagesLaws::changes_before, crate::specs::PagesLaws::page_before))]
pub fn later_records_change_nothing_before()
    ensures commits { (history batch : History) (n : ℕ) → n ≤ length history → effective (history ++ batch) n ≡ effective history n }
    ensures changes { (history batch : History) (n : ℕ) → n ≤ length history → changes (history ++ batch) n ≡ changes history n }
    ensures pages { (history batch : History) (n space number : ℕ) → n ≤ length history
        → page_at (history ++ batch) n space number ≡ page_at history n space number }
{}

/// From a live position on: the commits in effect further on are those at it and some above it, and a page is the one at it
/// with their changes. So an archive at that position, and the log behind it, give the page.
#[tactic(auto, using(crate::specs::EffectiveLaws::effective_along, crate::specs::PagesLaws::changes_along, crate::specs::PagesLaws::page_along))]
pub fn a_live_position_lies_on_the_way()
    ensures commits { (history : History) (q a : ℕ) → live history q a ≡ true
        → effective history q ≡ effective history a ++ filter (λ x. nat_lt a x) (effective history q) }
    ensures changes { (history : History) (q a : ℕ) → live history q a ≡ true → changes history q ≡ changes history a ++ changes_above history q a }
    ensures pages { (history : History) (q a space number : ℕ) → live history q a ≡ true
        → page_at history q space number ≡ fold (with_change space number) (page_at history a space number) (changes_above history q a) }
{}

/// A page that has no stamp above a live position is the page at that position: what an archive of a level leaves out
/// stands in the one that it builds on.
#[tactic(auto, using(crate::specs::PagesLaws::page_not_above))]
pub fn an_unstamped_page_stands()
    ensures { (history : History) (q a space number : ℕ) → live history q a ≡ true → (page_at history q space number).stamp ≤ a
        → page_at history q space number ≡ page_at history a space number }
{}

/// The stamp of a page at a position is at most that position.
#[tactic(auto, using(crate::specs::PagesLaws::stamp_within))]
pub fn no_stamp_lies_ahead()
    ensures { (history : History) (n space number : ℕ) → (page_at history n space number).stamp ≤ n }
{}
