//! The tests of rollovers, as scenes between two managers and with crews. They stand in a crate of their own,
//! since a crate with tests is proved twice.
#![tactic(auto)]

#[cfg(test)]
mod tests;
