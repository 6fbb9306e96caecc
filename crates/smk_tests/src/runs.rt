//! Runs over files that lie in memory.

ghost use Rattle.std.specs.Prelude.{◌≡◌, ◌<◌};

use smk_base::Text;
use smk_outside::{Gate, MemFiles, MemSink, Steps};
use smk_top::{Status, run};
use std::alloc::{AllocError, Global};
use std::marker::Brand;
use std::sync::ledger::{Blank, Ledger};
use std::thread::Threads;

// These files, each with its name.
fn held(alloc: Global, files: &[(&str, &[u8])]) -> Result<MemFiles, AllocError> {
    let mut held = Vec::new(alloc);
    for (name, bytes) in files {
        let name = Text::from_vec(Vec::from_slice(alloc, name.as_bytes())?);
        held.push((name, Text::from_vec(Vec::from_slice(alloc, bytes)?)))?;
    }
    Ok(MemFiles::new(held, Vec::new(alloc)))
}

// A run with a counter of looks over this ledger.
fn counted_run<R: Threads + Sync, G: Gate + Sync, L: Ledger>(
    system: HostRuntime,
    rt: &R,
    words: &[&str],
    files: &mut MemFiles,
    out: &mut MemSink,
    gate: &G,
    blank: Blank,
) -> Result<Status, AllocError>
    requires name { L.name ≡ blank.name }
    requires parts { L.parts ≡ blank.parts }
    requires some { 0 < blank.parts }
{
    let alloc = system.alloc();
    let mut err = MemSink::new(alloc, Vec::new(alloc), 64)?;
    let mut steps: Steps<L> = Steps::new(system, blank);
    Ok(run(rt, alloc, words, files, out, &mut err, gate, &mut steps))
}

/// How a run with these words over these files ends, and its report.
pub(crate) fn ran_over<R: Threads + Sync, G: Gate + Sync>(
    system: HostRuntime,
    rt: &R,
    words: &[&str],
    files: &[(&str, &[u8])],
    gate: &G,
) -> Result<(Status, Vec<u8>), AllocError> {
    let alloc = system.alloc();
    let mut files = held(alloc, files)?;
    let mut out = MemSink::new(alloc, Vec::new(alloc), 65_536)?;
    let status = counted_run::<R, G, Brand>(
        system,
        rt,
        words,
        &mut files,
        &mut out,
        gate,
        Blank::new(1),
    )?;
    Ok((status, Vec::from_slice(alloc, out.bytes())?))
}
