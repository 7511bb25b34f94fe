//! The manager of queued requests, for callers in C: a static library.
#![tactic(auto)]

mod about;
mod accounting;
mod bare;
mod caller;
mod caller_handle;
mod client;
mod client_calls;
mod codes;
mod counting;
mod fault;
mod going_on;
mod home;
mod home_handle;
mod looking;
mod making;
mod places;
mod rolling;
mod server;
mod server_calls;
mod shapes;
mod telling;
