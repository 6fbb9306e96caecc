ghost use Rattle.std.specs.Prelude.{◌≡◌};

/// How a run ended.
#[derive(Clone, Copy, Debug, PartialEq, Eq)]
pub enum Status {
    /// The report is whole and no line was refused or unread.
    Done = 0,
    /// The report is whole and some line was refused or unread.
    DoneWithRefusals = 1,
    /// The words are not those of a run.
    Usage = 2,
    /// The book has a fault.
    BadBook = 3,
    /// The content of a table's file has a fault.
    BadTable = 4,
    /// A limit is passed.
    Limit = 5,
    /// A file can't be read.
    ReadFault = 6,
    /// The report, or the line that says a fault, can't be written.
    WriteFault = 7,
    /// Memory ran out.
    NoMemory = 8,
}

impl Status {
    ghost use Rattle.smk_top.specs.Statuses.{code_of};

    /// The status as a process reports it.
    pub fn code(self) -> u8
        ensures { result ≡ code_of self }
    {
        self as u8
    }
}
