use crate::case::{Ending, cut_files_of, file_of};
use crate::compare::{RUN, print_title};
use crate::running::{SMALL_ROOM, run_words};
use crate::section::{Cut, Head, Section};
use anyhow::Result;
use std::io;
use std::thread::Threads;

/// Runs a case with these words, once for each shorter start of each file that it cuts.
pub fn run_cuts<'a, R: Threads + Sync + Print + AllocGlobal>(
    system: HostRuntime,
    rt: &R,
    archive: &str,
    name: &str,
    words: &[&str],
    shared: &[Section<'a>],
    case: &[Section<'a>],
) -> Result<()> {
    for section in case {
        if let Head::Cut(cut) = section.head {
            run_fronts(system, rt, archive, name, words, shared, case, cut)?;
        }
    }
    Ok(())
}

// Runs a case with these words, once for each shorter start of a file.
fn run_fronts<'a, R: Threads + Sync + Print + AllocGlobal>(
    system: HostRuntime,
    rt: &R,
    archive: &str,
    name: &str,
    words: &[&str],
    shared: &[Section<'a>],
    case: &[Section<'a>],
    cut: Cut<'_>,
) -> Result<()> {
    for len in 0..file_of(rt.alloc(), shared, case, cut.file)?.len() {
        let files = cut_files_of(rt.alloc(), shared, case, cut.file, len)?;
        let ran = run_words(system, rt, rt.alloc(), words, files, case, SMALL_ROOM)?;
        if !is_one_of(&ran, cut.statuses) {
            print_title(rt, archive, name, RUN, words)?;
            print_cut(rt, cut, len, &ran)?;
        }
    }
    Ok(())
}

// Whether a run has one of these statuses, and has said nothing on `out` where it ended by a fault and nothing on `err` where it didn't.
fn is_one_of(ran: &Ending, statuses: &str) -> bool {
    let code = ran.status;
    let silent = if code < 2 { &ran.err } else { &ran.out };
    silent.is_empty() && statuses.split(' ').any(|status| status.parse() == Ok(code))
}

// Prints where a file was cut, and what came of it.
fn print_cut<R: Print>(rt: &R, cut: Cut<'_>, len: usize, ran: &Ending) -> io::Result<()> {
    println!(rt; "  status with {} cut behind {len} bytes", cut.file)?;
    println!(rt; "    wanted one of {}", cut.statuses)?;
    println!(rt; "    got    {}", ran.status)
}
