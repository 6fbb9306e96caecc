ghost use Rattle.std.specs.Prelude.{◌≡◌, ◌+◌, ◌≤◌, ◌⊎◌, None, take, length, IfOk, OnOk, IfSome, IsErr, IsErrOf, OnErr, MatchResult};
ghost use Rattle.smk_outside.specs.Outside.{Rose, next_count};

use crate::files::Files;
use smk_base::FilesFault;
use std::alloc::Global;
use std::fs::OpenFile;
use std::io::{ErrorKind, Read};
use std::marker::Model;
use std::random::RandomSource;
use std::{fs, io, rt};

/// The files of the system. It tells nothing of them. Contracts see its count of faults.
#[derive(Drop)]
pub struct RealFiles<R> {
    system: R,
    faults: u64,
    seed: u64,
    // Whether only regular files are read.
    only_regular: bool,
}

impl<R> Model for RealFiles<R> {
    ghost use Rattle.std.specs.Prelude.{ℕ};

    ghost Value = { ℕ };

    ghost view = { λ s. s.faults };
}

impl<R: rt::Files + RandomSource> RealFiles<R> {
    /// The files that a runtime reaches, of which none has failed yet. Their seed is drawn from the system.
    pub fn new(system: R) -> RealFiles<R>
        ensures { result ≡ 0 }
    {
        let seed = drawn_seed(&system);
        RealFiles {
            system,
            faults: 0,
            seed,
            only_regular: false,
        }
    }
}

// A number that nobody knows beforehand, or 0 where the system has none to give.
fn drawn_seed<R: RandomSource>(system: &R) -> u64 {
    let mut bytes = [0; 8];
    match system.fill_bytes(&mut bytes) {
        Ok(()) => u64::from_le_bytes(bytes),
        Err(_) => 0,
    }
}

impl<R: rt::Files> Files for RealFiles<R> {
    ghost held = { λ s. None };

    ghost faults = { λ s. s };

    /// A number that nobody knows beforehand, or 0 where the system had none to give.
    fn seed(&self) -> u64 {
        self.seed
    }

    /// From now on a read is `Failed` for what isn't a regular file: a device, a pipe or a folder. It isn't opened, so no read waits for it.
    fn only_regular(&mut self) {
        self.only_regular = true;
    }

    /// The count rises exactly where it is `Failed`, also for a file that is missing, for a name that isn't UTF-8, and after `only_regular` for
    /// what isn't a regular file. At its last value it stays.
    fn read(&mut self, alloc: Global, name: &[u8], limit: u64) -> Result<Vec<u8>, FilesFault>
        ensures short { IfOk result (λ front. length front.items ≤ limit + 1) }
        ensures later { self.old ≤ self.new }
        ensures failed { IsErrOf result FilesFault.Failed → Rose self.old self.new }
        ensures calm { OnOk result (self.new ≡ self.old) }
        ensures counted { IsErrOf result FilesFault.Failed → self.new ≡ next_count self.old }
        ensures no_memory { IsErrOf result FilesFault.NoMemory → self.new ≡ self.old }
    {
        let result = read_file(alloc, &self.system, name, limit, self.only_regular);
        if let Err(FilesFault::Failed) = result {
            self.faults = self.faults.saturating_add(1);
        }
        result
    }
}

// The first `limit + 1` bytes of a file.
fn read_file<R: rt::Files>(
    alloc: Global,
    system: &R,
    name: &[u8],
    limit: u64,
    only_regular: bool,
) -> Result<Vec<u8>, FilesFault>
    ensures { IfOk result (λ front. length front.items ≤ limit + 1) }
{
    let Ok(path) = str::from_utf8(name) else {
        return Err(FilesFault::Failed);
    };
    if only_regular {
        check_regular(system, path)?;
    }
    let most = limit.saturating_add(1) as usize;
    let mut file = match fs::open(system, path) {
        Ok(file) => file,
        Err(e) => return Err(fault_of(&e)),
    };
    let size = match file.metadata() {
        Ok(metadata) => metadata.len() as usize,
        Err(_) => 0,
    };
    match read_front(alloc, &mut file, most, size) {
        Ok(front) => Ok(front),
        Err(e) => Err(fault_of(&e)),
    }
}

// Refuses what isn't a regular file, by its name, since opening a pipe may wait. What takes the name after this call is opened
// whatever it is.
fn check_regular<R: rt::Files>(system: &R, path: &str) -> Result<(), FilesFault> {
    match fs::metadata(system, path) {
        Ok(metadata) if metadata.is_file() => Ok(()),
        Ok(_) => Err(FilesFault::Failed),
        Err(e) => Err(fault_of(&e)),
    }
}

// Whether a call of the system wanted memory or failed otherwise.
fn fault_of(e: &io::Error) -> FilesFault {
    if e.kind() == ErrorKind::OutOfMemory {
        FilesFault::NoMemory
    } else {
        FilesFault::Failed
    }
}

// The first bytes that a reader gives, at most this many. A read of no bytes is the end. Room is reserved first for `size`
// bytes, as far as they are wanted, and for one more, so that the last read meets the end without growing.
fn read_front<F: Read>(alloc: Global, file: &mut F, most: usize, size: usize) -> io::Result<Vec<u8>>
    ensures short { IfOk result (λ front. length front.items ≤ most) }
    ensures bytes { IfOk result (λ front. IfSome (F.remaining file.old) (λ whole. front.items ≡ take most whole)) }
{
    let mut front = Vec::with_capacity(alloc, size.min(most).saturating_add(1))?;
    file.take(most as u64).read_to_end(&mut front)?;
    front.truncate(most);
    Ok(front)
}
