// The content of files.
ghost use Rattle.std.specs.Prelude.{◌≡◌, ◌≤◌};
ghost use Rattle.smk_model.specs.Outcome.{file_bytes};
ghost use Rattle.smk_outside.specs.Outside.{Rose};
ghost use Rattle.smk_inputs.specs.Collecting.{ReadsNamed, IsSayable};

use crate::stop::Stop;
use smk_base::{Fault, FilesFault, Text};
use smk_outside::Files;
use std::alloc::Global;

// The most bytes that a file may have.
const FILE_LIMIT: u64 = 67_108_864;

/// The bytes of a file, which isn't too long.
pub fn content<F: Files>(alloc: Global, files: &mut F, name: &Text) -> Result<Vec<u8>, Stop>
    ensures read { ReadsNamed (F.held files.old) (Rose (F.faults files.old) (F.faults files.new)) name.now
        (λ held answer. file_bytes held name.now ≡ answer) (λ bytes. bytes.items) result }
    ensures said { IsSayable result }
    ensures held { F.held files.new ≡ F.held files.old }
    ensures later { F.faults files.old ≤ F.faults files.new }
{
    match files.read(alloc, name.as_slice(), FILE_LIMIT) {
        Ok(bytes) => {
            if bytes.len() as u64 > FILE_LIMIT {
                let file = name.copy(alloc)?;
                return Err(Stop::At(Fault::FileLong { file }));
            }
            Ok(bytes)
        }
        Err(FilesFault::Failed) => {
            let file = name.copy(alloc)?;
            Err(Stop::At(Fault::Unread { file }))
        }
        Err(FilesFault::NoMemory) => Err(Stop::Exhausted),
    }
}
