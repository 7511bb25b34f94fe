//! The tests of scripts, of reports and of the manager of one thread, and those that hold the program to the
//! reference.
#![tactic(auto)]

#[cfg(test)]
mod tests;
