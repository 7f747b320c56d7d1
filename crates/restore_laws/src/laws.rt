//! The laws, each as the contract of a function.
ghost use Rattle.std.specs.Prelude.{◌≡◌, ℕ, List, fold};
ghost use Rattle.log_history.specs.Effects.{empty_page, page_at};
ghost use Rattle.log_history.specs.History.{History};
ghost use Rattle.log_history.specs.Live.{reset_points};
ghost use Rattle.backup_lines.specs.Chains.{chain_of};
ghost use Rattle.backup_lines.specs.Lines.{Archive, live_archives};
ghost use Rattle.site_worlds.specs.Fitness.{IsFitSite};
ghost use Rattle.site_worlds.specs.Worlds.{Site};
ghost use Rattle.restore_laws.specs.Merged.{BuildUp, merged, top_at};

/// Archives that build on one another, merged in order, give the page at the position of the last.
pub fn merged_archives_give_the_page()
    ensures { (history : History) (space number from : ℕ) (chain : List Archive) → BuildUp history space from chain
        → fold (merged history number) (page_at history from space number) chain ≡ page_at history (top_at from chain) space number }
{}

/// So do those of the chain that is planned for a space of a fit site, from an empty page.
pub fn a_planned_chain_gives_the_page()
    ensures { (site : Site) → IsFitSite site → (space q number : ℕ)
        → fold (merged site.history number) empty_page (chain_of (live_archives site.lines) (reset_points site.history) space q)
        ≡ page_at site.history (top_at 0 (chain_of (live_archives site.lines) (reset_points site.history) space q)) space number }
{}
