use crate::content::Form;
use anyhow::{Result, bail};
use std::alloc::Global;

/// What the bytes of a section are.
#[derive(Clone, Copy)]
pub enum Part<'a> {
    File(&'a str),
    In,
    Talk,
    Out,
    Err,
}

impl Part<'_> {
    pub fn is(self, other: Part<'_>) -> bool {
        match (self, other) {
            (Part::File(name), Part::File(other)) => name == other,
            (Part::In, Part::In) | (Part::Talk, Part::Talk) => true,
            (Part::Out, Part::Out) | (Part::Err, Part::Err) => true,
            _ => false,
        }
    }
}

/// What stands between the dashes of a section's head.
#[derive(Clone, Copy)]
pub enum Head<'a> {
    /// A run with these words, and with one more for each line.
    Words(&'a str),
    /// Each run is made with each of these values of an option, which have blanks between them.
    Each(&'a str, &'a str),
    /// The shared file of this name isn't there.
    Without(&'a str),
    /// Bytes of a file or of the lines of a conversation, or wanted bytes.
    Bytes(Part<'a>, Form),
    /// The wanted status.
    Status(u8),
    /// The read of this number fails.
    FailingRead(u32),
    /// The line of this number can't be heard.
    FailingHear(u32),
    /// The put of this number to `out` or `err`, or the text of this number that is said, fails after so many bytes.
    FailingPut(Part<'a>, u32, u64),
    /// Each run is made with each shorter start of a file, too.
    Cut(Cut<'a>),
    /// Each run with one of these numbers of workers that writes a whole report is held as a conversation, too.
    Conversed(&'a str),
}

/// The name of a file that is cut, and the statuses that the runs over its shorter starts may have, with blanks between them.
#[derive(Clone, Copy)]
pub struct Cut<'a> {
    pub file: &'a str,
    pub statuses: &'a str,
}

/// A section: its head, and its lines without the last line feed, or None where it has no line.
#[derive(Clone, Copy)]
pub struct Section<'a> {
    pub head: Head<'a>,
    pub body: Option<&'a str>,
}

/// The sections of a text. What stands before the first of them is a comment.
pub fn sections<'a>(alloc: Global, text: &'a str) -> Result<Vec<Section<'a>>> {
    let mut read = Vec::new(alloc);
    for section in text.split("\n-- ").skip(1) {
        let (line, body) = match section.split_once('\n') {
            Some((line, body)) => (line, Some(body)),
            None => (section, None),
        };
        match head_of(line) {
            Some(head) => read.push(Section { head, body })?,
            None => bail!("no section is headed -- {line}"),
        }
    }
    Ok(read)
}

// The head after its first dashes.
fn head_of(line: &str) -> Option<Head<'_>> {
    let head = line.strip_suffix(" --")?;
    let (word, rest) = head.split_once(' ').unwrap_or((head, ""));
    match word {
        "words" => Some(Head::Words(rest)),
        "modes" => Some(Head::Each("--mode", rest)),
        "workers" => Some(Head::Each("--workers", rest)),
        "without" => Some(Head::Without(rest)),
        "file" => {
            let (name, form) = rest.split_once(' ').unwrap_or((rest, ""));
            Some(Head::Bytes(Part::File(name), Form::read(form)?))
        }
        "in" => Some(Head::Bytes(Part::In, Form::read(rest)?)),
        "talk" => Some(Head::Bytes(Part::Talk, Form::read(rest)?)),
        "out" => Some(Head::Bytes(Part::Out, Form::read(rest)?)),
        "err" => Some(Head::Bytes(Part::Err, Form::read(rest)?)),
        "status" => Some(Head::Status(rest.parse().ok()?)),
        "fails" => failure_of(rest),
        "conversed" => Some(Head::Conversed(rest)),
        "cut" => {
            let (file, statuses) = rest.split_once(": ")?;
            Some(Head::Cut(Cut { file, statuses }))
        }
        _ => None,
    }
}

// The failure after `fails`: `read K`, `hear K`, `say K after N`, `out K after N` or `err K after N`.
fn failure_of(failure: &str) -> Option<Head<'_>> {
    let (what, rest) = failure.split_once(' ')?;
    let part = match what {
        "read" => return Some(Head::FailingRead(rest.parse().ok()?)),
        "hear" => return Some(Head::FailingHear(rest.parse().ok()?)),
        "say" => Part::Talk,
        "out" => Part::Out,
        "err" => Part::Err,
        _ => return None,
    };
    let (call, count) = rest.split_once(" after ")?;
    Some(Head::FailingPut(part, call.parse().ok()?, count.parse().ok()?))
}
