//! The pages of a space, brought forward by the changes that the log brings into effect, and the digest of their bytes.
//!
//! What changes leave of the pages is the definition's fold, whatever order of calls gave them. Laying a change costs as much
//! as its bytes, and no call but `used` and `digest` goes over the pages. The laws say that the changes of a history's
//! records, one after another, make the pages of that history at a position.
#![tactic(auto)]

mod digests;
mod laws;
mod pages;
mod slots;
#[cfg(test)]
mod tests;

pub use laws::{
    a_record_brings_the_pages_further, a_refused_record_gives_nothing,
    all_records_give_the_changes, the_changes_make_the_pages, what_is_given_lies_within,
    without_a_reset_all_is_live,
};
pub use pages::Pages;
