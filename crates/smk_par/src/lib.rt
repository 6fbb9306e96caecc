//! Pieces: a body around another whose steps are found and made in parts, which may run at the same time.
#![tactic(auto)]

mod pieces;

pub use pieces::Pieces;
