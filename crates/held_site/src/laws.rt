//! The laws, each as the contract of a function.
ghost use Rattle.std.specs.Prelude.{◌≡◌, ◌≤◌, ◌==◌, ℕ, length, filter, slice_get, Some, None};
ghost use Rattle.std.specs.List.{AllByRecursion};
ghost use Rattle.log_history.specs.Transactions.{table_of};
ghost use Rattle.lane_ways.specs.Ways.{IsPlace, changes_behind, lane_changes};
ghost use Rattle.lane_steps.specs.Choices.{own};
ghost use Rattle.site_worlds.specs.Worlds.{Ring, Site, stands};
ghost use Rattle.site_worlds.specs.Lanes.{pages_of_space};
ghost use Rattle.site_worlds.specs.Fitness.{IsFitSite};
ghost use Rattle.ring_laws.specs.Rings.{files_of};
ghost use Rattle.held_log.specs.Logs.{changes_held, table_held};
ghost use Rattle.held_log.specs.Strays.{first_stray};
ghost use Rattle.held_site.specs.Pages.{IsOfPage};

/// The records that the log of a fit site holds are in order: no Begin among them is refused.
#[tactic(auto, using(crate::specs::StrayLaws::none_stray))]
pub fn no_held_begin_is_refused()
    ensures { (site : Site) (ring : Ring) → site.ring ≡ Some ring → IsFitSite site → first_stray (files_of site.starts site.history ring) ≡ None }
{}

/// With no restore under way all that is open began among them, so a reader of these alone has all that is open.
#[tactic(auto, using(crate::specs::HeldLaws::site_table))]
pub fn held_files_give_the_open_transactions()
    ensures { (site : Site) (ring : Ring) → site.ring ≡ Some ring → site.active ≡ None → IsFitSite site
        → table_held (files_of site.starts site.history ring) ≡ table_of site.history }
{}

/// Each change that is read is of a page that its space has, so a space's own changes are all that are read of it.
pub fn what_is_read_lies_in_pages_of_its_space()
    ensures pages { (site : Site) (ring : Ring) → site.ring ≡ Some ring → IsFitSite site
        → AllByRecursion (IsOfPage site.head.spaces) (changes_held (files_of site.starts site.history ring)) }
    ensures own { (site : Site) (ring : Ring) (space : ℕ) → site.ring ≡ Some ring → IsFitSite site
        → own space (pages_of_space site.head.spaces space) (changes_held (files_of site.starts site.history ring))
        ≡ filter (λ change. change.patch.space == space) (changes_held (files_of site.starts site.history ring)) }
{}

/// With no restore under way a lane that isn't lost stands at a place on the way to the log's end, and what it lacks is among what is read.
pub fn held_files_give_what_a_lane_lacks()
    ensures place { (site : Site) (ring : Ring) (space upto part : ℕ) → site.ring ≡ Some ring → site.active ≡ None → IsFitSite site
        → slice_get site.lanes space ≡ Some (stands upto part) → IsPlace site.history (length site.history) space upto part }
    ensures within { (site : Site) (ring : Ring) (space upto part : ℕ) → site.ring ≡ Some ring → site.active ≡ None → IsFitSite site
        → slice_get site.lanes space ≡ Some (stands upto part) → upto ≤ length site.history }
    ensures changes { (site : Site) (ring : Ring) (space upto part : ℕ) → site.ring ≡ Some ring → site.active ≡ None → IsFitSite site
        → slice_get site.lanes space ≡ Some (stands upto part)
        → changes_behind upto (filter (λ change. change.patch.space == space) (changes_held (files_of site.starts site.history ring)))
        ≡ changes_behind upto (lane_changes site.history (length site.history) space) }
    // So a lane can be brought forward by them.
    ensures own { (site : Site) (ring : Ring) (space upto part : ℕ) → site.ring ≡ Some ring → site.active ≡ None → IsFitSite site
        → slice_get site.lanes space ≡ Some (stands upto part)
        → changes_behind upto (own space (pages_of_space site.head.spaces space) (changes_held (files_of site.starts site.history ring)))
        ≡ changes_behind upto (lane_changes site.history (length site.history) space) }
{}
