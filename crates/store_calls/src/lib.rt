//! A transaction of the store, from its first object on to its vote, as a move of the whole site.
#![tactic(auto)]

mod laws;

pub use laws::{
    a_store_agrees_behind_a_transaction, a_store_that_only_sends_makes_no_move,
    a_transaction_is_one_move, an_ended_object_is_sent, sends_are_one_send,
};
