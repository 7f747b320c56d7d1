//! What the bytes of a site's disks refuse: the checks that a form asks before its work, one after another.
//!
//! What checks let pass they don't refuse, and two statuses by which they refuse the same bytes name the same disk.
#![tactic(auto)]

mod laws;

pub use laws::{
    a_refusal_names_one_disk, checks_follow_one_another, what_is_let_pass_is_not_refused,
};
