//! What a script is told where nobody else acts: the line of a command, told as a relation between what the
//! passes show, is then the one that is computed.
#![tactic(auto)]

pub mod laws;
