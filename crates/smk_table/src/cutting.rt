// Where the text of a table may be cut, so that each piece can be read by itself.
ghost use Rattle.std.specs.{Prelude.{◌≡◌, ◌<◌, ◌≤◌, All, take, drop, length, flat_map, IfOk, IfSome, IsFalse}, Bool.OnTrue, List.list_all};
ghost use Rattle.csv.specs.Reading.{records, default_config};
ghost use Rattle.smk_base.specs.Marks.{begins_with_mark};
ghost use Rattle.smk_table.specs.Cuts.{AreLines, is_unquoted, read_of};

use std::alloc::{AllocError, Global};

// Whether a text has no quote. It looks at every byte, since a loop that may end early takes a byte at a time.
fn is_unquoted_text(text: &[u8]) -> bool
    ensures { result ≡ list_all is_unquoted text.now }
{
    let mut unquoted = true;
    for b in text {
        unquoted &= *b != b'"';
    }
    unquoted
}

// Whether a text has no quote and is empty or ends a line.
fn are_lines(text: &[u8]) -> bool
    ensures { OnTrue result (AreLines text.now) }
{
    if text.is_empty() {
        return true;
    }
    text[text.len() - 1] == b'\n' && is_unquoted_text(text)
}

// Whether bytes begin with a byte order mark, which a reader of the text would drop.
fn is_marked(text: &[u8]) -> bool
    ensures { result ≡ begins_with_mark text.now }
{
    matches!(text, [0xEF, 0xBB, 0xBF, ..])
}

// How many bytes of a text, `size` and those up to the end of a line, may be read by themselves, with at least `least` bytes after them.
fn next_cut(text: &[u8], size: usize, least: usize) -> Option<usize>
    requires { 0 < size }
    ensures within { IfSome result (λ n. n ≤ length text.now) }
    ensures lines { IfSome result (λ n. AreLines (take n text.now)) }
    ensures unmarked { IfSome result (λ n. IsFalse (begins_with_mark (drop n text.now))) }
{
    if size >= text.len() {
        return None;
    }
    let from = size - 1;
    let place = text[from..].iter().position(|b| *b == b'\n')?;
    let n = size + place;
    let (piece, more) = text.split_at(n);
    if more.len() >= least && are_lines(piece) && !is_marked(more) {
        Some(n)
    } else {
        None
    }
}

/// The pieces of a text, at most `count`, and each of at least `least` bytes if there are two; each can be read by itself. After the last cut before a quote, or before a byte order mark at the start of a line, there is one piece.
pub(crate) fn pieces<'a>(
    alloc: Global,
    text: &'a [u8],
    count: u32,
    least: u32,
) -> Result<Vec<&'a [u8]>, AllocError>
    requires unmarked { IsFalse (begins_with_mark text.now) }
    requires some { 0 < count }
    ensures records { IfOk result (λ parts. records default_config text.now ≡ flat_map read_of parts.items) }
    ensures some { IfOk result (λ parts. 0 < length parts.items) }
    ensures few { IfOk result (λ parts. length parts.items ≤ count) }
    ensures unmarked { IfOk result (λ parts. All (λ part. IsFalse (begins_with_mark part.now)) parts.items) }
{
    let size = (text.len() / count as usize + 1).max(least as usize);
    let mut parts = Vec::new(alloc);
    let mut rest = text;
    for _ in 1..count {
        let Some(n) = next_cut(rest, size, least as usize) else {
            break;
        };
        let (piece, more) = rest.split_at(n);
        parts.push(piece)?;
        rest = more;
    }
    parts.push(rest)?;
    Ok(parts)
}
