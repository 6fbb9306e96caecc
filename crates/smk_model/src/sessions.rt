//! Laws of sessions: how lines are answered, and what they change.

pub mod append_laws;
pub mod ask_laws;
pub mod conversation_laws;
pub mod expanded_laws;
pub mod fd_laws;
pub mod own_laws;
pub mod reply_laws;
