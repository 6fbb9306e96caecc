use crate::case::{Ending, file_of, files_of, is_conversed};
use crate::compare::{CONVERSED, print_differences};
use crate::section::Section;
use crate::talking::{talk_words, texts_in};
use anyhow::Result;
use std::thread::Threads;

/// Holds a conversation in place of a run that came to this, over the run's book and the lines of its script, where the archive or the case asks for it and the
/// run's report is whole. The texts that it says, without the empty lines after them, have to be the report. It tells how many conversations it held.
pub fn converse_run<R: Threads + Sync + Print + AllocGlobal>(
    system: HostRuntime,
    rt: &R,
    archive: &str,
    name: &str,
    words: &[&str],
    shared: &[Section<'_>],
    case: &[Section<'_>],
    ran: &Ending,
) -> Result<u64> {
    if ran.status > 1 || !(is_conversed(shared, words) || is_conversed(case, words)) {
        return Ok(0);
    }
    let alloc = rt.alloc();
    let (words, script) = cut_script(words);
    let bytes = match script {
        Some(script) => file_of(alloc, shared, case, script)?,
        None => Vec::new(alloc),
    };
    let files = files_of(alloc, shared, case)?;
    let (talk, ending) = talk_words(system, rt, alloc, words, files, case, &bytes)?;
    let Ending { status, out, err } = ending;
    let said = Ending {
        status,
        out: texts_in(alloc, talk.events())?.unwrap_or(out),
        err,
    };
    print_differences(rt, archive, name, CONVERSED, words, ran, &said)?;
    Ok(1)
}

// The words of a run without the name of its script, and that name. Each option has a value, so that there is one where the words are even in number.
fn cut_script<'w, 'a>(words: &'w [&'a str]) -> (&'w [&'a str], Option<&'a str>) {
    match words {
        [front @ .., script] if front.len() % 2 == 1 => (front, Some(*script)),
        _ => (words, None),
    }
}
