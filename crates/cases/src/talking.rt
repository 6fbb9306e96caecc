ghost use Rattle.std.specs.Prelude.{◌≡◌, ◌<◌};

use crate::case::{Ending, bytes_of, has_part, hears_of, puts_of};
use crate::running::SMALL_ROOM;
use crate::section::{Part, Section};
use anyhow::Result;
use smk_base::Text;
use smk_outside::{Event, Heard, Idle, MemFiles, MemSink, MemTalk, Steps, StreamTalk, Talk};
use smk_top::Status;
use std::alloc::{AllocError, Global};
use std::collections::VecDeque;
use std::marker::Brand;
use std::sync::ledger::{Blank, Ledger};
use std::thread::Threads;

// A conversation with a counter of looks over this ledger.
fn counted_talk<R: Threads + Sync, T: Talk, L: Ledger>(
    system: HostRuntime,
    rt: &R,
    alloc: Global,
    words: &[&str],
    files: &mut MemFiles,
    talk: &mut T,
    err: &mut MemSink,
    blank: Blank,
) -> Status
    requires name { L.name ≡ blank.name }
    requires parts { L.parts ≡ blank.parts }
    requires some { 0 < blank.parts }
{
    let mut steps: Steps<L> = Steps::new(system, blank);
    smk_top::converse(rt, alloc, words, files, talk, err, &Idle, &mut steps)
}

// Holds a conversation with these words over these files. It tells the status, and what was written to `err`.
fn hold_talk<R: Threads + Sync, T: Talk>(
    system: HostRuntime,
    rt: &R,
    alloc: Global,
    words: &[&str],
    mut files: MemFiles,
    case: &[Section<'_>],
    talk: &mut T,
) -> Result<(u8, Vec<u8>)> {
    let mut err = MemSink::new(alloc, puts_of(alloc, case, Part::Err)?, SMALL_ROOM)?;
    let status = counted_talk::<_, _, Brand>(
        system,
        rt,
        alloc,
        words,
        &mut files,
        talk,
        &mut err,
        Blank::new(1),
    );
    Ok((status.code(), Vec::from_slice(alloc, err.bytes())?))
}

/// A conversation with these words over these files, in which the lines of these bytes are heard. It tells what happened.
pub fn talk_words<R: Threads + Sync>(
    system: HostRuntime,
    rt: &R,
    alloc: Global,
    words: &[&str],
    files: MemFiles,
    case: &[Section<'_>],
    bytes: &[u8],
) -> Result<(MemTalk, Ending)> {
    let mut talk = MemTalk::new(
        alloc,
        lines_of(alloc, bytes)?,
        hears_of(alloc, case)?,
        puts_of(alloc, case, Part::Talk)?,
    );
    let (status, err) = hold_talk(system, rt, alloc, words, files, case, &mut talk)?;
    let out = transcript_of(alloc, talk.events())?;
    Ok((talk, Ending { status, out, err }))
}

/// Such a conversation over a reader of these bytes and a writer. Its ending has what was written.
pub fn stream_words<R: Threads + Sync>(
    system: HostRuntime,
    rt: &R,
    alloc: Global,
    words: &[&str],
    files: MemFiles,
    case: &[Section<'_>],
    bytes: &[u8],
) -> Result<Ending> {
    let mut out = Vec::new(alloc);
    let mut talk = StreamTalk::new(bytes, &mut out);
    let (status, err) = hold_talk(system, rt, alloc, words, files, case, &mut talk)?;
    drop(talk);
    Ok(Ending { status, out, err })
}

// The lines of bytes, as they are heard of a stream.
fn lines_of(alloc: Global, bytes: &[u8]) -> Result<VecDeque<Text>> {
    let mut lines = VecDeque::new(alloc);
    let mut talk = StreamTalk::new(bytes, Vec::new(alloc));
    for _ in 0..u64::MAX {
        match talk.hear(alloc, u64::MAX) {
            Ok(Heard::Line(line)) => lines.push_back(Text::from_vec(line))?,
            Ok(Heard::Long | Heard::End) | Err(_) => break,
        }
    }
    Ok(lines)
}

/// The bytes that come from standard input in a conversation: those of the sections `in`, or without one the lines that are heard in its `talk`.
pub fn input_of(alloc: Global, case: &[Section<'_>]) -> Result<Vec<u8>> {
    if has_part(case, Part::In) {
        return bytes_of(alloc, case, Part::In);
    }
    let mut bytes = Vec::new(alloc);
    for line in bytes_of(alloc, case, Part::Talk)?.split(|byte| *byte == b'\n') {
        if let Some(heard) = heard_in(line) {
            bytes.extend_from_slice(heard)?;
            bytes.push(b'\n')?;
        }
    }
    Ok(bytes)
}

// The line that is heard in a line of a `talk`.
fn heard_in(line: &[u8]) -> Option<&[u8]> {
    match line {
        [b'>'] => Some(&[]),
        [b'>', b' ', heard @ ..] => Some(heard),
        _ => None,
    }
}

// What happened in a conversation, as a `talk` has it: what was said as it stands, and after a `>` each line that was heard.
fn transcript_of(alloc: Global, events: &[Event]) -> Result<Vec<u8>, AllocError> {
    let mut bytes = Vec::new(alloc);
    for event in events {
        match event {
            Event::Said(piece) => bytes.extend_from_slice(piece.as_slice())?,
            Event::Heard(line) => add_heard(&mut bytes, line.as_slice())?,
            Event::End => {}
        }
    }
    Ok(bytes)
}

fn add_heard(bytes: &mut Vec<u8>, line: &[u8]) -> Result<(), AllocError> {
    bytes.push(b'>')?;
    if !line.is_empty() {
        bytes.push(b' ')?;
    }
    bytes.extend_from_slice(line)?;
    bytes.push(b'\n')?;
    Ok(())
}

/// All that was said in a conversation.
pub fn said_in(alloc: Global, events: &[Event]) -> Result<Vec<u8>, AllocError> {
    let mut bytes = Vec::new(alloc);
    for event in events {
        if let Event::Said(piece) = event {
            bytes.extend_from_slice(piece.as_slice())?;
        }
    }
    Ok(bytes)
}

/// The texts that were said in a conversation, without the empty lines. None where something else happened than that texts and an empty line are said, and then a
/// line or the end is heard, and so on.
pub fn texts_in(alloc: Global, events: &[Event]) -> Result<Option<Vec<u8>>, AllocError> {
    let mut texts = Vec::new(alloc);
    let mut ended = false;
    for event in events {
        match event {
            Event::Said(text) if !ended => {
                if text.as_slice() == b"\n".as_slice() {
                    ended = true;
                } else {
                    texts.extend_from_slice(text.as_slice())?;
                }
            }
            Event::Heard(_) | Event::End if ended => ended = false,
            _ => return Ok(None),
        }
    }
    Ok(Some(texts))
}
