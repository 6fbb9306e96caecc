use crate::case::Ending;
use std::io;

/// The first line in which bytes differ from those that are wanted, and its number, from 1. A line is nothing where the bytes have ended.
#[derive(Clone, Copy)]
struct Difference<'a> {
    number: u64,
    want: &'a [u8],
    got: &'a [u8],
}

fn first_difference<'a>(want: &'a [u8], got: &'a [u8]) -> Option<Difference<'a>> {
    if want == got {
        return None;
    }
    let mut wanted = want.split_inclusive(|byte| *byte == b'\n');
    let mut gotten = got.split_inclusive(|byte| *byte == b'\n');
    for number in 1..u64::MAX {
        let want = wanted.next().unwrap_or(&[]);
        let got = gotten.next().unwrap_or(&[]);
        if want != got {
            return Some(Difference { number, want, got });
        }
    }
    None
}

/// How a case is carried out: its name, and that of what is said.
#[derive(Clone, Copy)]
pub struct Way<'a> {
    name: &'a str,
    said: &'a str,
}

/// A run of the program `smoke`.
pub const RUN: Way<'static> = Way {
    name: "run",
    said: "out",
};

/// A conversation of the program `smoke_live`, line by line.
pub const TALK: Way<'static> = Way {
    name: "conversation",
    said: "talk",
};

/// A conversation over the bytes of a reader and a writer, which has to say what was said line by line.
pub const STREAM: Way<'static> = Way {
    name: "conversation over a stream",
    said: "said",
};

/// A conversation over a run's book and the lines of its script, which has to say the run's report.
pub const CONVERSED: Way<'static> = Way {
    name: "conversation in place of the run",
    said: "texts",
};

// Prints the first difference in what was said or written, if there is any.
fn print_difference<R: Print>(rt: &R, what: &str, want: &[u8], got: &[u8]) -> io::Result<()> {
    let Some(Difference { number, want, got }) = first_difference(want, got) else {
        return Ok(());
    };
    println!(rt; "  {what} line {number}")?;
    println!(rt; "    wanted {}", want.escape_ascii())?;
    println!(rt; "    got    {}", got.escape_ascii())
}

/// Prints which run or conversation it is.
pub fn print_title<R: Print>(
    rt: &R,
    archive: &str,
    case: &str,
    way: Way<'_>,
    words: &[&str],
) -> io::Result<()> {
    print!(rt; "{archive}: {case}, {} with", way.name)?;
    for word in words {
        print!(rt; " {word}")?;
    }
    println!(rt; "")
}

/// Prints what a case that was carried out this way differs in, if there is anything.
pub fn print_differences<R: Print>(
    rt: &R,
    archive: &str,
    case: &str,
    way: Way<'_>,
    words: &[&str],
    wanted: &Ending,
    came: &Ending,
) -> io::Result<()> {
    let (want, got) = (wanted.status, came.status);
    if want == got && wanted.out == came.out && wanted.err == came.err {
        return Ok(());
    }
    print_title(rt, archive, case, way, words)?;
    if want != got {
        println!(rt; "  status\n    wanted {want}\n    got    {got}")?;
    }
    print_difference(rt, way.said, &wanted.out, &came.out)?;
    print_difference(rt, "err", &wanted.err, &came.err)
}
