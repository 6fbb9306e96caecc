use crate::section::{Head, Part, Section};
use anyhow::{Context, Result, bail};
use smk_base::Text;
use smk_outside::MemFiles;
use std::alloc::{AllocError, Global};

/// How a run or a conversation ended. For a conversation `out` is what happened in it.
#[derive(Drop)]
pub struct Ending {
    pub status: u8,
    pub out: Vec<u8>,
    pub err: Vec<u8>,
}

/// What a case wants. It has to name a status.
pub fn ending_of(alloc: Global, case: &[Section<'_>]) -> Result<Ending> {
    Ok(Ending {
        status: status_of(case).context("the case wants no status")?,
        out: bytes_of(alloc, case, said_in(case))?,
        err: bytes_of(alloc, case, Part::Err)?,
    })
}

// The part of what is said.
fn said_in(case: &[Section<'_>]) -> Part<'static> {
    if has_part(case, Part::Talk) {
        Part::Talk
    } else {
        Part::Out
    }
}

/// Whether a case has a section of this part. One with a `talk` is a conversation.
pub fn has_part(case: &[Section<'_>], wanted: Part<'_>) -> bool {
    for section in case {
        if let Head::Bytes(part, _) = section.head
            && part.is(wanted)
        {
            return true;
        }
    }
    false
}

fn status_of(case: &[Section<'_>]) -> Option<u8> {
    for section in case {
        if let Head::Status(status) = section.head {
            return Some(status);
        }
    }
    None
}

/// The bytes of all sections of a part, one after the other.
pub fn bytes_of(alloc: Global, sections: &[Section<'_>], wanted: Part<'_>) -> Result<Vec<u8>> {
    let mut bytes = Vec::new(alloc);
    for section in sections {
        if let Head::Bytes(part, form) = section.head
            && part.is(wanted)
        {
            let piece = form
                .bytes(alloc, section.body)?
                .context("an escape isn't one")?;
            bytes.extend_from_slice(&piece)?;
        }
    }
    Ok(bytes)
}

// The values of the options with which each run is made, with blanks between them.
#[derive(Clone, Copy)]
struct Options<'a> {
    modes: &'a str,
    workers: &'a str,
}

/// The words of each run of a case. A case that names none has one run, with the word `book.smk`. Each is made once with each mode and each
/// number of workers that the case names, or else its archive; where neither names any, it is made as it stands.
pub fn runs_of<'a>(
    alloc: Global,
    shared: &[Section<'a>],
    case: &[Section<'a>],
) -> Result<Vec<Vec<&'a str>>, AllocError> {
    let options = Options {
        modes: values_of("--mode", shared, case),
        workers: values_of("--workers", shared, case),
    };
    let mut runs = Vec::new(alloc);
    for section in case {
        if let Head::Words(first) = section.head {
            add_runs(alloc, &mut runs, options, first, section.body)?;
        }
    }
    if runs.is_empty() {
        add_runs(alloc, &mut runs, options, "book.smk", None)?;
    }
    Ok(runs)
}

// The values of an option that a case names, or else its archive.
fn values_of<'a>(option: &str, shared: &[Section<'a>], case: &[Section<'a>]) -> &'a str {
    named_values(option, case)
        .or(named_values(option, shared))
        .unwrap_or("")
}

fn named_values<'a>(option: &str, sections: &[Section<'a>]) -> Option<&'a str> {
    for section in sections {
        if let Head::Each(name, values) = section.head
            && name == option
        {
            return Some(values);
        }
    }
    None
}

// Adds the words of a run for each mode and each number of workers.
fn add_runs<'a>(
    alloc: Global,
    runs: &mut Vec<Vec<&'a str>>,
    options: Options<'a>,
    first: &'a str,
    body: Option<&'a str>,
) -> Result<(), AllocError> {
    for mode in options.modes.split(' ') {
        for workers in options.workers.split(' ') {
            let mut words = Vec::new(alloc);
            add_option(&mut words, "--mode", mode)?;
            add_option(&mut words, "--workers", workers)?;
            add_words(&mut words, first, body)?;
            runs.push(words)?;
        }
    }
    Ok(())
}

// Adds an option with its value, where there is one.
fn add_option<'a>(
    words: &mut Vec<&'a str>,
    option: &'a str,
    value: &'a str,
) -> Result<(), AllocError> {
    if !value.is_empty() {
        words.push(option)?;
        words.push(value)?;
    }
    Ok(())
}

// Adds the words of a head, and one for each line.
fn add_words<'a>(
    words: &mut Vec<&'a str>,
    first: &'a str,
    body: Option<&'a str>,
) -> Result<(), AllocError> {
    if !first.is_empty() {
        for word in first.split(' ') {
            words.push(word)?;
        }
    }
    if let Some(body) = body {
        for word in body.split('\n') {
            words.push(word)?;
        }
    }
    Ok(())
}

/// The files of a case: its own, and those shared ones that it has not and that it is not without.
pub fn files_of<'a>(
    alloc: Global,
    shared: &[Section<'a>],
    case: &[Section<'a>],
) -> Result<MemFiles> {
    let files = named_files(alloc, shared, case)?;
    Ok(MemFiles::new(files, reads_of(alloc, case)?))
}

/// The files of a case, where that of a name is cut after so many bytes.
pub fn cut_files_of<'a>(
    alloc: Global,
    shared: &[Section<'a>],
    case: &[Section<'a>],
    name: &str,
    len: usize,
) -> Result<MemFiles> {
    let mut files = Vec::new(alloc);
    for (other, bytes) in named_files(alloc, shared, case)? {
        let mut bytes = bytes.into_vec();
        if other.as_slice() == name.as_bytes() {
            bytes.truncate(len);
        }
        files.push((other, Text::from_vec(bytes)))?;
    }
    Ok(MemFiles::new(files, reads_of(alloc, case)?))
}

/// The bytes of a file of a case. It has to be there.
pub fn file_of<'a>(
    alloc: Global,
    shared: &[Section<'a>],
    case: &[Section<'a>],
    name: &str,
) -> Result<Vec<u8>> {
    for (other, bytes) in named_files(alloc, shared, case)? {
        if other.as_slice() == name.as_bytes() {
            return Ok(bytes.into_vec());
        }
    }
    bail!("there is no file {name}")
}

fn named_files<'a>(
    alloc: Global,
    shared: &[Section<'a>],
    case: &[Section<'a>],
) -> Result<Vec<(Text, Text)>> {
    let mut files = Vec::new(alloc);
    add_files(alloc, &mut files, case, case)?;
    add_files(alloc, &mut files, shared, case)?;
    Ok(files)
}

fn add_files<'a>(
    alloc: Global,
    files: &mut Vec<(Text, Text)>,
    sections: &[Section<'a>],
    case: &[Section<'a>],
) -> Result<()> {
    for section in sections {
        if let Head::Bytes(Part::File(name), _) = section.head
            && !is_without(case, name)
            && !is_there(files, name)
        {
            let bytes = bytes_of(alloc, sections, Part::File(name))?;
            let name = Vec::from_slice(alloc, name.as_bytes())?;
            files.push((Text::from_vec(name), Text::from_vec(bytes)))?;
        }
    }
    Ok(())
}

fn is_without(case: &[Section<'_>], name: &str) -> bool {
    for section in case {
        if let Head::Without(other) = section.head
            && other == name
        {
            return true;
        }
    }
    false
}

fn is_there(files: &[(Text, Text)], name: &str) -> bool {
    for (other, _) in files {
        if other.as_slice() == name.as_bytes() {
            return true;
        }
    }
    false
}

// The numbers of the reads that are to fail.
fn reads_of(alloc: Global, case: &[Section<'_>]) -> Result<Vec<u32>, AllocError> {
    let mut reads = Vec::new(alloc);
    for section in case {
        if let Head::FailingRead(call) = section.head {
            reads.push(call)?;
        }
    }
    Ok(reads)
}

/// The numbers of the lines that can't be heard.
pub fn hears_of(alloc: Global, case: &[Section<'_>]) -> Result<Vec<u32>, AllocError> {
    let mut hears = Vec::new(alloc);
    for section in case {
        if let Head::FailingHear(call) = section.head {
            hears.push(call)?;
        }
    }
    Ok(hears)
}

/// The numbers of the puts to `out` or to `err`, or of the texts that are said, that are to fail, and after how many bytes.
pub fn puts_of(
    alloc: Global,
    case: &[Section<'_>],
    sink: Part<'_>,
) -> Result<Vec<(u32, u64)>, AllocError> {
    let mut puts = Vec::new(alloc);
    for section in case {
        if let Head::FailingPut(part, call, count) = section.head
            && part.is(sink)
        {
            puts.push((call, count))?;
        }
    }
    Ok(puts)
}

/// Whether a run with these words is to be held as a conversation, too, by the sections of an archive or of a case.
pub fn is_conversed(sections: &[Section<'_>], words: &[&str]) -> bool {
    let workers = workers_in(words);
    for section in sections {
        if let Head::Conversed(numbers) = section.head
            && numbers.split(' ').any(|number| number == workers)
        {
            return true;
        }
    }
    false
}

// The number of workers that words name.
fn workers_in<'a>(words: &[&'a str]) -> &'a str {
    let mut is_next = false;
    for word in words {
        if is_next {
            return *word;
        }
        is_next = *word == "--workers";
    }
    ""
}
