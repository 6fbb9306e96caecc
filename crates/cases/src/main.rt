//! Carries out the cases of the archives that its words name, through runs and conversations of Smoke over what stands in memory. It prints which cases
//! differ from what they want, how many cases each archive has, and how many conversations said the reports of its runs.
#![tactic(auto)]

mod case;
mod compare;
mod content;
mod conversed;
mod cut;
mod running;
mod section;
mod talking;

use anyhow::{Context, Result};
use case::Ending;
use compare::{RUN, STREAM, TALK, print_differences};
use running::{ROOM, run_words};
use section::{Part, Section};
use std::thread::Threads;
use std::{env, fs};
use talking::{said_in, stream_words, talk_words};

// Carries out a conversation with these words, in memory and, where none of its calls is to fail, over a stream.
fn talk_case<R: Threads + Sync + Print + AllocGlobal>(
    system: HostRuntime,
    rt: &R,
    archive: &str,
    name: &str,
    words: &[&str],
    shared: &[Section<'_>],
    case: &[Section<'_>],
    wanted: &Ending,
) -> Result<()> {
    let alloc = rt.alloc();
    let bytes = talking::input_of(alloc, case)?;
    let files = case::files_of(alloc, shared, case)?;
    let (talk, ending) = talk_words(system, rt, alloc, words, files, case, &bytes)?;
    print_differences(rt, archive, name, TALK, words, wanted, &ending)?;
    if talk.faults() > 0 {
        return Ok(());
    }
    let said = Ending {
        out: said_in(alloc, talk.events())?,
        ..ending
    };
    let files = case::files_of(alloc, shared, case)?;
    let streamed = stream_words(system, rt, alloc, words, files, case, &bytes)?;
    print_differences(rt, archive, name, STREAM, words, &said, &streamed)?;
    Ok(())
}

// Carries out a case with these words. It tells how many conversations said the reports of runs.
fn carry_out<R: Threads + Sync + Print + AllocGlobal>(
    system: HostRuntime,
    rt: &R,
    archive: &str,
    name: &str,
    words: &[&str],
    shared: &[Section<'_>],
    case: &[Section<'_>],
    wanted: &Ending,
) -> Result<u64> {
    if case::has_part(case, Part::Talk) {
        talk_case(system, rt, archive, name, words, shared, case, wanted)?;
        return Ok(0);
    }
    let files = case::files_of(rt.alloc(), shared, case)?;
    let ran = run_words(system, rt, rt.alloc(), words, files, case, ROOM)?;
    print_differences(rt, archive, name, RUN, words, wanted, &ran)?;
    cut::run_cuts(system, rt, archive, name, words, shared, case)?;
    conversed::converse_run(system, rt, archive, name, words, shared, case, &ran)
}

// Carries out a case with each of its lists of words. Its text begins with its name. It tells how many conversations said the reports of runs.
fn run_case<R: Threads + Sync + Print + AllocGlobal>(
    system: HostRuntime,
    rt: &R,
    archive: &str,
    shared: &[Section<'_>],
    text: &str,
) -> Result<u64> {
    let (name, rest) = text.split_once(" --").context("a case has no name")?;
    let case = section::sections(rt.alloc(), rest)?;
    let wanted = case::ending_of(rt.alloc(), &case)?;
    let mut conversed = 0u64;
    for words in case::runs_of(rt.alloc(), shared, &case)?.iter() {
        let held = carry_out(system, rt, archive, name, words, shared, &case, &wanted)?;
        conversed = conversed.saturating_add(held);
    }
    Ok(conversed)
}

// Carries out the cases of an archive. What stands before the first serves them all.
fn run_archive<R: Threads + Sync + Print + AllocGlobal>(
    system: HostRuntime,
    rt: &R,
    archive: &str,
    text: &str,
) -> Result<()> {
    let text = text.strip_suffix('\n').unwrap_or(text);
    let (front, rest) = text.split_once("\n\n-- case ").context("there is no case")?;
    let shared = section::sections(rt.alloc(), front)?;
    let mut cases = 0u64;
    let mut conversed = 0u64;
    for case in rest.split("\n\n-- case ") {
        let held = run_case(system, rt, archive, &shared, case).context(format_args!(
            "-- case {}",
            case.lines().next().unwrap_or("")
        ))?;
        cases = cases.saturating_add(1);
        conversed = conversed.saturating_add(held);
    }
    println!(rt; "{archive}: {cases} cases")?;
    if conversed > 0 {
        println!(rt; "{archive}: {conversed} conversations say the reports of its runs")?;
    }
    Ok(())
}

fn main(rt: HostRuntime) -> Result<()> {
    for name in env::args(&rt)?.skip(1) {
        let text = fs::read_to_string(&rt, &name).context(format_args!("{name}"))?;
        run_archive(rt, &rt, name.as_str(), text.as_str()).context(format_args!("{name}"))?;
    }
    Ok(())
}
