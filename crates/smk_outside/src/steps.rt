ghost use Rattle.std.specs.Prelude.{◌≡◌, ◌<◌, ◌+◌};

use std::marker::Model;
use std::sync::ledger::{Blank, Book, Ledger, Share};

/// How many looks were made. One step is one look at a base row.
/// The counter has no bytes when the program runs, so only contracts see the number.
#[derive(Drop)]
pub struct Steps<L: Ledger> {
    book: Book<L>,
    share: Share<L>,
}

impl<L: Ledger> Model for Steps<L> {
    ghost use Rattle.std.specs.Prelude.{ℕ, ◌<◌};

    ghost Value = { ℕ };

    ghost view = { λ s. s.book.total };

    ghost invariant = { λ s. 0 < s.share.parts };
}

impl<L: Ledger> Steps<L> {
    /// A counter at 0, over a ledger that nothing was written in. Only `main` and tests have the runtime itself to give, so no library call makes a counter of its own.
    pub fn new(_system: HostRuntime, blank: Blank) -> Steps<L>
        requires name { L.name ≡ blank.name }
        requires parts { L.parts ≡ blank.parts }
        requires some { 0 < blank.parts }
        ensures { result ≡ 0 }
    {
        let (book, share) = Blank::open(blank);
        Steps { book, share }
    }

    /// Counts one look. It does nothing when the program runs.
    pub fn tick(&mut self)
        ensures { self.new ≡ self.old + 1 }
    {
        self.book.add(&mut self.share, 1);
    }
}
