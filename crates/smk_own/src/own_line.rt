// Own lines as they are read.
use smk_base::{AskLine, AskSteps, Line, Text};

/// Which rows of an answer are printed: those from one number on and below another.
#[derive(Clone, Copy, Drop)]
pub struct Part {
    pub from: u32,
    pub below: u32,
}

/// An own line of a conversation.
#[derive(Drop)]
pub enum OwnLine {
    /// The schema.
    Schema,
    /// What you can say.
    Help,
    /// The rows of a table that every brush on it selects, through steps, and the part of the answer that is printed.
    Selected {
        part: Option<Part>,
        table: Text,
        steps: AskSteps,
    },
    /// A `show` line, or a `back` line for rows: over the rows that are selected now for its view, and the part of the answer that is printed.
    Narrowed {
        part: Option<Part>,
        now: bool,
        line: Line,
    },
    /// An `ask` line, with the same two choices.
    NarrowedAsk {
        part: Option<Part>,
        now: bool,
        line: AskLine,
    },
    /// A line that changes brushes, answered without rids and marks.
    Brief(Line),
    /// An `fd` line, answered without rows.
    BriefProfile {
        view: Text,
    },
}

/// What an own line says.
#[derive(Drop)]
pub enum OwnReading {
    /// An own line.
    Owns(OwnLine),
    /// It isn't one; this is the place in bytes at which it isn't read.
    Misses(u64),
}
