//! The program: a run of Smoke over the files and streams of the system.
#![tactic(auto)]

ghost use Rattle.std.specs.Prelude.{◌≡◌, ◌<◌};

use smk_outside::{ErrSink, Files, Idle, OutSink, RealFiles, Sink, Steps};
use smk_top::Status;
use std::alloc::Global;
use std::env;
use std::io::{self, ErrorKind};
use std::marker::Brand;
use std::process::ExitCode;
use std::sync::ledger::{Blank, Ledger};
use std::thread::{Builder, Threads};

// How many bytes of stack a run has, four times what the deepest plans and predicates took. They are reserved before anything is read.
const STACK: usize = 1_048_576;

// A run with a counter of looks over this ledger.
fn counted_run<R: Threads + Sync, F: Files, O: Sink, E: Sink, L: Ledger>(
    system: HostRuntime,
    rt: &R,
    alloc: Global,
    words: &[&str],
    files: &mut F,
    out: &mut O,
    err: &mut E,
    blank: Blank,
) -> Status
    requires name { L.name ≡ blank.name }
    requires parts { L.parts ≡ blank.parts }
    requires some { 0 < blank.parts }
{
    let mut steps: Steps<L> = Steps::new(system, blank);
    smk_top::run(rt, alloc, words, files, out, err, &Idle, &mut steps)
}

// A run over the files and streams of the system. An error where its words can't be had.
fn ran<R: Threads + Sync>(system: HostRuntime, rt: &R) -> io::Result<Status> {
    let alloc = system.alloc();
    let all: Vec<String> = env::args(&system)?.skip(1).collect(alloc)?;
    let mut words = Vec::new(alloc);
    for word in all.iter() {
        words.push(word.as_str())?;
    }
    let mut files = RealFiles::new(system);
    let mut out = OutSink::new(system.stdout());
    let mut err = ErrSink::new(system.stderr());
    Ok(counted_run::<_, _, _, _, Brand>(
        system,
        rt,
        alloc,
        words.as_slice(),
        &mut files,
        &mut out,
        &mut err,
        Blank::new(1),
    ))
}

fn main(rt: HostRuntime) -> ExitCode {
    let work = move || match ran(rt, &rt) {
        Ok(status) => status.code(),
        Err(e) => match e.kind() {
            ErrorKind::OutOfMemory => Status::NoMemory.code(),
            _ => Status::Usage.code(),
        },
    };
    match Builder::new().stack_size(STACK).spawn(&rt, work) {
        Ok(thread) => ExitCode::from(thread.join(&rt)),
        Err(_) => ExitCode::from(Status::NoMemory.code()),
    }
}
