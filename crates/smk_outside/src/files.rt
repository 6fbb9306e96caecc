ghost use Rattle.std.specs.Prelude.{◌≡◌, ◌+◌, ◌≤◌, ◌⊎◌, ℕ, List, Option, length, IfOk, IsErr, IsErrOf};
ghost use Rattle.smk_outside.specs.Outside.{Rose, IsMissing, IsFrontOf};

pub(crate) mod mem_files;
pub(crate) mod real_files;

use smk_base::FilesFault;
use std::alloc::Global;

/// Files by their names. An object may tell what it holds; one that doesn't counts a missing file as a fault.
pub trait Files {
    /// The bytes of the file of a name, or none, where the object tells its files.
    ghost held: { Self → Option (List ℕ → Option (List ℕ)) };

    /// How many calls have failed by a fault of the outside.
    ghost faults: { Self → ℕ };

    /// The seed of the hashes by which what the files hold is found. No answer depends on it.
    fn seed(&self) -> u64 {
        0
    }

    /// From now on only regular files are read, where the object knows others: a name of another is as one that can't be read.
    fn only_regular(&mut self)
        ensures held { held self.new ≡ held self.old }
        ensures faults { faults self.new ≡ faults self.old }
    {}

    /// The first `limit + 1` bytes of the file of this name, or all of them where it has fewer.
    /// It fails only by a fault that it counts, or for a name that the object tells not to hold.
    fn read(&mut self, alloc: Global, name: &[u8], limit: u64) -> Result<Vec<u8>, FilesFault>
        ensures bytes { IfOk result (λ front. IsFrontOf (held self.old) name.now limit front.items) }
        ensures short { IfOk result (λ front. length front.items ≤ limit + 1) }
        ensures held { held self.new ≡ held self.old }
        ensures later { faults self.old ≤ faults self.new }
        ensures failed { IsErrOf result FilesFault.Failed →
            Rose (faults self.old) (faults self.new) ⊎ IsMissing (held self.old) name.now }
        ensures missing { IsMissing (held self.old) name.now → IsErr result }
        ensures uncounted { IsMissing (held self.old) name.now → faults self.new ≡ faults self.old };
}
