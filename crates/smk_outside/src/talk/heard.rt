/// What was heard.
#[derive(Drop)]
pub enum Heard {
    /// A line, without its end.
    Line(Vec<u8>),
    /// A line longer than the limit, which was taken and let go.
    Long,
    /// No line comes any more.
    End,
}

/// Why no line was heard.
#[derive(Drop, Clone, Copy)]
pub enum TalkFault {
    /// The object failed.
    Failed,
    /// A line came, but there was no memory for it. It was taken and dropped.
    NoMemory,
}
