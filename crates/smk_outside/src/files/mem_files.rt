ghost use Rattle.std.specs.{Prelude.{◌≡◌, ◌+◌, ◌≤◌, ◌⊎◌, [], Option, Some, take, length, IfOk, IsErr, IsErrOf, IsTrue, nat_eq}, List.list_any, Option.option_copied};
ghost use Rattle.smk_outside.specs.{Outside.{Rose, IsMissing, IsFrontOf}, MemFiles.{held_of, contents_of, fails_next, after_read}};

use crate::files::Files;
use smk_base::{FilesFault, Text};
use std::alloc::Global;
use std::marker::Model;

/// Files in memory, of which chosen calls fail. It tells its files.
#[derive(Drop)]
pub struct MemFiles {
    files: Vec<(Text, Text)>,
    fails: Vec<u32>,
    calls: u64,
    faults: u64,
}

impl Model for MemFiles {
    ghost use Rattle.smk_outside.specs.MemFiles.{StoredFiles};

    ghost Value = { StoredFiles };

    ghost view = { λ s. record { files = s.files.items; fails = s.fails.items; calls = s.calls; faults = s.faults } };
}

impl MemFiles {
    /// Files with these names and bytes, of which the first of a name counts. Calls of `read` are numbered from 0,
    /// and those with a number of `fails` fail, unless the name isn't there.
    pub fn new(files: Vec<(Text, Text)>, fails: Vec<u32>) -> MemFiles
        ensures files { result.files ≡ files.items }
        ensures fails { result.fails ≡ fails.items }
        ensures calls { result.calls ≡ 0 }
        ensures faults { result.faults ≡ 0 }
    {
        MemFiles {
            files,
            fails,
            calls: 0,
            faults: 0,
        }
    }
}

impl Files for MemFiles {
    ghost held = { held_of };

    ghost faults = { λ s. s.faults };

    /// A name that isn't there is `Failed`, and isn't counted as a fault. Of the other calls exactly
    /// those that are to fail are `Failed`.
    fn read(&mut self, alloc: Global, name: &[u8], limit: u64) -> Result<Vec<u8>, FilesFault>
        ensures bytes { IfOk result (λ front. IsFrontOf (held_of self.old) name.now limit front.items) }
        ensures short { IfOk result (λ front. length front.items ≤ limit + 1) }
        ensures held { held_of self.new ≡ held_of self.old }
        ensures later { self.old.faults ≤ self.new.faults }
        ensures failed { IsErrOf result FilesFault.Failed →
            Rose self.old.faults self.new.faults ⊎ IsMissing (held_of self.old) name.now }
        ensures missing { IsMissing (held_of self.old) name.now → IsErr result }
        ensures uncounted { IsMissing (held_of self.old) name.now → self.new.faults ≡ self.old.faults }
        ensures planned { IsTrue (fails_next self.old) → IsErrOf result FilesFault.Failed }
        ensures unplanned { IsErrOf result FilesFault.Failed →
            IsTrue (fails_next self.old) ⊎ IsMissing (held_of self.old) name.now }
        ensures state { self.new ≡ after_read self.old name.now }
    {
        let call = self.calls;
        self.calls = call.saturating_add(1);
        let Some(bytes) = find_first(&self.files, name) else {
            return Err(FilesFault::Failed);
        };
        if has_number(&self.fails, call) {
            self.faults = self.faults.saturating_add(1);
            return Err(FilesFault::Failed);
        }
        match Vec::from_slice(alloc, front_of(bytes, limit)) {
            Ok(front) => Ok(front),
            Err(_) => Err(FilesFault::NoMemory),
        }
    }
}

// The bytes of the first file of this name.
fn find_first<'a>(files: &'a [(Text, Text)], name: &[u8]) -> Option<&'a [u8]>
    ensures { option_copied result ≡ contents_of files.now name.now }
{
    for (file, bytes) in files {
        if file.as_slice() == name {
            return Some(bytes.as_slice());
        }
    }
    None
}

/// Whether a number is among these.
pub(crate) fn has_number(numbers: &[u32], number: u64) -> bool
    ensures { result ≡ list_any (nat_eq number) numbers.now }
{
    for n in numbers {
        if number == u64::from(*n) {
            return true;
        }
    }
    false
}

// The first `limit + 1` bytes.
fn front_of(bytes: &[u8], limit: u64) -> &[u8]
    ensures { result.now ≡ take (limit + 1) bytes.now }
{
    if bytes.len() as u64 <= limit {
        bytes
    } else {
        &bytes[..limit as usize + 1]
    }
}
