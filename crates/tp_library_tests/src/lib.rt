//! The tests of the library's public calls: limits, words, the steps of the rule, servers, the manager, desks
//! and workers. They are in a crate of their own, since a crate with tests is proved twice.
#![tactic(auto)]

#[cfg(test)]
mod tests;
