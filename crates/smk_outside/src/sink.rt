ghost use Rattle.std.specs.Prelude.{◌≤◌, ℕ, List, Option, OnOk, OnErr};
ghost use Rattle.smk_outside.specs.Outside.{Rose, Appends, AppendsPart};

pub(crate) mod mem_sink;
pub(crate) mod stream_sink;

/// A write failed.
#[derive(Drop, Clone, Copy)]
pub struct Failed;

/// Where bytes are written, one after the other.
pub trait Sink {
    /// The bytes that were written so far, where the object tells them.
    ghost written: { Self → Option (List ℕ) };

    /// How many calls have failed.
    ghost faults: { Self → ℕ };

    /// Writes all the bytes. It takes no memory, and fails only by a fault that it counts;
    /// some of the bytes, from the first on, are then written.
    fn put(&mut self, bytes: &[u8]) -> Result<(), Failed>
        ensures ok { OnOk result (Appends (written self.old) (written self.new) bytes.now) }
        ensures part { OnErr result (AppendsPart (written self.old) (written self.new) bytes.now) }
        ensures later { faults self.old ≤ faults self.new }
        ensures cause { OnErr result (Rose (faults self.old) (faults self.new)) };
}
