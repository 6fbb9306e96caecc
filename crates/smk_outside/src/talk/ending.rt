/// How a conversation ends.
#[derive(Clone, Copy, Drop)]
pub enum Ending {
    /// No line comes any more.
    Ended,
    /// The object failed to hear.
    Unheard,
    /// The object failed to say all.
    Unsaid,
    /// As many lines were answered as can be counted.
    Outlasted,
}
