//! A module for each crate whose calls are tested.

mod desk;
mod fixture;
mod manager;
mod rule;
mod server;
mod words;
mod workers;
