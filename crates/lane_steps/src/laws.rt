//! The laws, each as the contract of a function.
ghost use Rattle.std.specs.Prelude.{◌≡◌, ◌<◌, ◌==◌, ℕ, List, length, drop, filter};
ghost use Rattle.std.specs.List.{AllByRecursion};
ghost use Rattle.log_history.specs.Effects.{Change, Page};
ghost use Rattle.space_pages.specs.Pages.{brought};
ghost use Rattle.lane_steps.specs.Choices.{Chooses, own};
ghost use Rattle.lane_steps.specs.OwnLaws.{IsAlong};

/// Changes that are passed over leave the pages of the space as they are.
#[tactic(auto, using(crate::specs::OwnLaws::brought_own))]
pub fn other_changes_change_nothing()
    ensures { (space : ℕ) (changes : List Change) (pages : List Page)
        → brought space 0 changes pages ≡ brought space 0 (own space (length pages) changes) pages }
{}

/// Where each change lies in a page that the space has, its own changes are those into the space.
#[tactic(auto, using(crate::specs::OwnLaws::own_all))]
pub fn within_the_space_all_are_own()
    ensures { (space count : ℕ) (changes : List Change) → AllByRecursion (λ (change : Change). change.patch.page < count) changes
        → own space count changes ≡ filter (λ change. change.patch.space == space) changes }
{}

/// A step that is chosen of what a way still has leads along it: as much is laid then as the place behind the step lays, the
/// list has what the way still has behind it, and the pages are those of that place.
pub fn a_chosen_step_leads_along_the_way()
    ensures { (way : List Change) (space count laid : ℕ) (list : List Change) (front : ℕ) (pages : List ℕ) → own space count list ≡ drop laid way
        → Chooses space count list front pages → IsAlong way space count laid list front }
{}
