//! The request manager as its callers see it: types, definitions over histories, and their laws.
#![tactic(auto)]

pub mod event;
pub mod laws;
pub mod remembered;
pub mod trace;
pub mod types;
