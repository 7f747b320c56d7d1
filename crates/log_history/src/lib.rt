//! The history of a site's logical log: which transactions are open at a position, which commits are in effect
//! there, and the pages that they give. Definitions alone.
#![tactic(auto)]
