//! The program: a conversation of Smoke over the files and streams of the system.
#![tactic(auto)]

ghost use Rattle.std.specs.Prelude.{◌≡◌, ◌<◌};

use smk_outside::{ErrSink, Files, Idle, RealFiles, Sink, Steps, StreamTalk, Talk};
use smk_top::Status;
use std::alloc::Global;
use std::env;
use std::io::{self, BufReader, ErrorKind};
use std::marker::Brand;
use std::process::ExitCode;
use std::sync::ledger::{Blank, Ledger};
use std::thread::{Builder, Threads};

// How many bytes of stack a conversation has, four times what the deepest plans and predicates took. They are reserved before anything is read.
const STACK: usize = 1_048_576;

// A conversation with a counter of looks over this ledger.
fn counted_talk<R: Threads + Sync, F: Files, T: Talk, E: Sink, L: Ledger>(
    system: HostRuntime,
    rt: &R,
    alloc: Global,
    words: &[&str],
    files: &mut F,
    talk: &mut T,
    err: &mut E,
    blank: Blank,
) -> Status
    requires name { L.name ≡ blank.name }
    requires parts { L.parts ≡ blank.parts }
    requires some { 0 < blank.parts }
{
    let mut steps: Steps<L> = Steps::new(system, blank);
    smk_top::converse(rt, alloc, words, files, talk, err, &Idle, &mut steps)
}

// A conversation over the files and streams of the system. An error where its words can't be had.
fn held<R: Threads + Sync>(system: HostRuntime, rt: &R) -> io::Result<Status> {
    let alloc = system.alloc();
    let all: Vec<String> = env::args(&system)?.skip(1).collect(alloc)?;
    let mut words = Vec::new(alloc);
    for word in all.iter() {
        words.push(word.as_str())?;
    }
    let mut files = RealFiles::new(system);
    let mut talk = StreamTalk::new(BufReader::new(alloc, system.stdin())?, system.stdout());
    let mut err = ErrSink::new(system.stderr());
    Ok(counted_talk::<_, _, _, _, Brand>(
        system,
        rt,
        alloc,
        words.as_slice(),
        &mut files,
        &mut talk,
        &mut err,
        Blank::new(1),
    ))
}

fn main(rt: HostRuntime) -> ExitCode {
    let work = move || match held(rt, &rt) {
        Ok(status) => status.code(),
        Err(e) => match e.kind() {
            ErrorKind::OutOfMemory => Status::NoMemory.code(),
            _ => Status::Usage.code(),
        },
    };
    match Builder::new().stack_size(STACK).spawn(&rt, work) {
        Ok(thread) => ExitCode::from(thread.join(&rt)),
        Err(_) => ExitCode::from(Status::NoMemory.code()),
    }
}
