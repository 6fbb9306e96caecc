ghost use Rattle.std.specs.Prelude.{None};

use smk_outside::{Failed, Sink};

/// A sink that keeps nothing of what is written to it, and never fails.
#[derive(Drop)]
pub struct Nowhere;

impl Sink for Nowhere {
    ghost written = { λ _. None };

    ghost faults = { λ _. 0 };

    fn put(&mut self, _bytes: &[u8]) -> Result<(), Failed> {
        Ok(())
    }
}
