ghost use Rattle.std.specs.Prelude.{◌≡◌, ◌<◌};

use crate::case::{Ending, puts_of};
use crate::section::{Part, Section};
use anyhow::Result;
use smk_outside::{Idle, MemFiles, MemSink, Steps};
use smk_top::Status;
use std::alloc::Global;
use std::marker::Brand;
use std::sync::ledger::{Blank, Ledger};
use std::thread::Threads;

/// How many bytes a sink of a run has room for.
pub const ROOM: u64 = 16_777_216;

/// How many where little is written: to `err` in a conversation, and where a file is cut, of which there are many runs.
pub const SMALL_ROOM: u64 = 65_536;

// A run with a counter of looks over this ledger.
fn counted_run<R: Threads + Sync, L: Ledger>(
    system: HostRuntime,
    rt: &R,
    alloc: Global,
    words: &[&str],
    files: &mut MemFiles,
    out: &mut MemSink,
    err: &mut MemSink,
    blank: Blank,
) -> Status
    requires name { L.name ≡ blank.name }
    requires parts { L.parts ≡ blank.parts }
    requires some { 0 < blank.parts }
{
    let mut steps: Steps<L> = Steps::new(system, blank);
    smk_top::run(rt, alloc, words, files, out, err, &Idle, &mut steps)
}

/// Runs a case with these words over these files, and with sinks of this room.
pub fn run_words<R: Threads + Sync>(
    system: HostRuntime,
    rt: &R,
    alloc: Global,
    words: &[&str],
    mut files: MemFiles,
    case: &[Section<'_>],
    room: u64,
) -> Result<Ending> {
    let mut out = MemSink::new(alloc, puts_of(alloc, case, Part::Out)?, room)?;
    let mut err = MemSink::new(alloc, puts_of(alloc, case, Part::Err)?, room)?;
    let status = counted_run::<_, Brand>(
        system,
        rt,
        alloc,
        words,
        &mut files,
        &mut out,
        &mut err,
        Blank::new(1),
    );
    Ok(Ending {
        status: status.code(),
        out: Vec::from_slice(alloc, out.bytes())?,
        err: Vec::from_slice(alloc, err.bytes())?,
    })
}
