/// What is told where pieces of work that may run at the same time begin. It changes nothing that a contract sees.
pub trait Gate {
    /// Piece `piece` begins.
    fn arrive(&self, piece: u32);
}

/// A gate that returns at once.
#[derive(Clone, Copy, Drop)]
pub struct Idle;

impl Gate for Idle {
    fn arrive(&self, _piece: u32) {}
}
