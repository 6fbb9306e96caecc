//! The definitions of what Smoke's plans, books, scripts and runs mean, in `specs/`, and the laws over them. No program code uses it when it runs.
#![tactic(auto)]

pub mod laws;
pub mod plans;
pub mod runs;
pub mod sessions;
