//! Laws of the table.
ghost use Rattle.std.specs.Prelude.{◌≡◌, ℕ, suc, ◌∷◌, ◌++◌, length, reverse, None, MatchOption};
ghost use Rattle.log_history.specs.History.{History, commit};
ghost use Rattle.log_history.specs.Effects.{writes};
ghost use Rattle.log_history.specs.Transactions.{InOrder, given, table_of};
ghost use Rattle.txn_table.specs.LowLaws.{NoneOpen, IsOldestOpen};
ghost use Rattle.txn_table.specs.Table.{first_refusal, oldest};

/// The changes that a Commit hands out are the Writes since its transaction's last Begin, none where that isn't open.
#[tactic(auto, using(crate::specs::OrderLaws::given_are_writes))]
pub fn a_commit_gives_its_writes()
    ensures { (front rest : History) (txn time : ℕ)
        → given (commit txn time) (table_of front) ≡ writes (front ++ commit txn time ∷ rest) (suc (length front)) }
{}

/// Records in order are never refused.
#[tactic(auto, using(crate::specs::OrderLaws::in_order_not_refused))]
pub fn an_order_is_not_refused()
    ensures { (history : History) → InOrder history → first_refusal history ≡ None }
{}

/// The first transaction of the table is the one whose Begin is the oldest of those that are open.
#[tactic(auto, using(crate::specs::LowLaws::low_is_oldest))]
pub fn the_first_is_the_oldest()
    ensures { (history : History) → MatchOption (oldest (table_of history)) (NoneOpen (reverse history)) (IsOldestOpen (reverse history)) }
{}
