ghost use Rattle.std.specs.Prelude.{Some};
ghost use Rattle.smk_model.specs.Outcome.{nothing_held};

use smk_base::FilesFault;
use smk_outside::Files;
use std::alloc::Global;

/// Files for a run that reads none: they hold nothing, and tell it.
#[derive(Drop)]
pub struct NoFiles;

impl Files for NoFiles {
    ghost held = { λ _. Some nothing_held };

    ghost faults = { λ _. 0 };

    fn read(&mut self, _alloc: Global, _name: &[u8], _limit: u64) -> Result<Vec<u8>, FilesFault> {
        Err(FilesFault::Failed)
    }
}
