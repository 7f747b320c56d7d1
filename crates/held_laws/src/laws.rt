//! The laws, each as the contract of a function.
ghost use Rattle.std.specs.Prelude.{◌≡◌, ◌<◌, ◌==◌, ◌++◌, ℕ, filter, length};
ghost use Rattle.log_history.specs.History.{History};
ghost use Rattle.log_history.specs.Transactions.{InOrder, low, table_of};
ghost use Rattle.lane_ways.specs.Ways.{changes_behind, lane_changes};
ghost use Rattle.held_laws.specs.Reading.{changes_read, resets_read, table_read};

/// Where all transactions that are open began among the last records of a log, a reader of these alone has them: it begins with none, and
/// passes over what it refuses.
#[tactic(auto, using(crate::specs::HeldLaws::held_table))]
pub fn held_records_give_the_open_transactions()
    ensures { (older held : History) → InOrder (older ++ held) → length older < low (older ++ held) → table_read (length older) held ≡ table_of (older ++ held) }
{}

/// Where all that were open at a position began among them, it finds of each space the changes behind that position, by the Resets among
/// them alone.
#[tactic(auto, using(crate::specs::HeldLaws::held_way))]
pub fn held_records_give_the_changes()
    ensures { (older front rest : History) (n space : ℕ) → InOrder (older ++ (front ++ rest)) → length older < low (older ++ front)
        → changes_behind (length (older ++ front)) (filter (λ change. change.patch.space == space)
        (changes_read (resets_read (length older) (front ++ rest)) n (length older) (front ++ rest)))
        ≡ changes_behind (length (older ++ front)) (lane_changes (older ++ (front ++ rest)) n space) }
{}
