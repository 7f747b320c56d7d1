//! The grammar of the words of `onbar`: which forms of a command there are, and the first word that is refused. Definitions alone.
#![tactic(auto)]
