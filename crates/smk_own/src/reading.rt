// How an own line is read: the words before a line of a script, and that line by its own rules.
ghost use Rattle.std.specs.Prelude.{◌≡◌, ◌≤◌, cond, Some, None, length, take_while, option_map, IfOk};
ghost use Rattle.smk_base.specs.TreeImage.{any_image};
ghost use Rattle.smk_model.specs.OwnLines as owns;
ghost use Rattle.smk_model.specs.Tokens as tokens;
ghost use Rattle.smk_own.specs.{Image.{own_image, own_reading_image, part_image}, Keeping.KeepsOwnReading, Leads.{lead_image, line_behind}};

use crate::own_line::{OwnLine, OwnReading, Part};
use smk_base::{AnyLine, Line, LineFault, Then, read_int};
use smk_parse::{parse_any, parse_selected};
use std::alloc::{AllocError, Global};

// The words that own lines begin with.
const SCHEMA: &[u8] = b".schema";

const HELP: &[u8] = b".help";

const PART: &[u8] = b".part";

const NOW: &[u8] = b".now";

const SELECTED: &[u8] = b".selected";

const BRIEF: &[u8] = b".brief";

// Whether a byte is a blank.
fn is_gap(b: u8) -> bool
    ensures { result ≡ tokens.is_gap b }
{
    b == b' ' || b == b'\t' || b == b'\n' || b == b'\r'
}

// How many blanks come first.
fn gap_len(text: &[u8]) -> usize
    ensures is { result ≡ length (take_while tokens.is_gap text.now) }
    ensures within { result ≤ length text.now }
{
    text.iter().take_while(|b| is_gap(**b)).count()
}

// How many bytes come before the first blank.
fn solid_len(text: &[u8]) -> usize
    ensures is { result ≡ length (take_while owns.is_solid text.now) }
    ensures within { result ≤ length text.now }
{
    text.iter().take_while(|b| !is_gap(**b)).count()
}

// The bytes after the blanks at the start.
fn past_blanks(text: &[u8]) -> &[u8]
    ensures { result.now ≡ owns.past_blanks text.now }
{
    &text[gap_len(text)..]
}

// The first word, and the bytes after it.
fn next_word(text: &[u8]) -> (&[u8], &[u8])
    ensures word { result.0.now ≡ owns.first_word text.now }
    ensures rest { result.1.now ≡ owns.past_word text.now }
{
    past_blanks(text).split_at(solid_len(past_blanks(text)))
}

/// Whether a line is an own line: its first byte after blanks is a dot.
pub fn is_own(text: &[u8]) -> bool
    ensures { result ≡ owns.is_own text.now }
{
    matches!(past_blanks(text), [b'.', ..])
}

// The number that a word writes, if it is one of 32 bits.
fn bound_of(word: &[u8]) -> Option<u32>
    ensures { result ≡ owns.bound_of word.now }
{
    if let [b'+', ..] = word {
        return None;
    }
    u32::try_from(read_int(word)?).ok()
}

// Words before a line of a script.
#[derive(Clone, Copy, Drop)]
enum Words {
    Narrowed(Option<Part>, bool),
    Brief,
}

// What an own line begins with.
#[derive(Clone, Copy, Drop)]
enum Lead {
    Schema,
    Help,
    Selected(Option<Part>),
    Before(Words),
}

// `.selected` or `.now`, and the bytes after it.
fn narrowing(part: Option<Part>, text: &[u8]) -> Option<(Lead, &[u8])>
    ensures { option_map (λ led. (lead_image led.0, led.1.now)) result ≡ owns.narrowing (part_image part) text.now None }
{
    let (word, rest) = next_word(text);
    if word == SELECTED {
        Some((Lead::Selected(part), rest))
    } else if word == NOW {
        Some((Lead::Before(Words::Narrowed(part, true)), rest))
    } else {
        None
    }
}

// What begins with the two numbers of a part.
fn parting(text: &[u8]) -> Option<(Lead, &[u8])>
    ensures { option_map (λ led. (lead_image led.0, led.1.now)) result ≡ owns.parting (owns.bound_of (owns.first_word text.now)) (owns.bound_of (owns.first_word (owns.past_word text.now))) (owns.past_word (owns.past_word text.now)) }
{
    let (from, behind) = next_word(text);
    let (below, rest) = next_word(behind);
    let part = Part {
        from: bound_of(from)?,
        below: bound_of(below)?,
    };
    match narrowing(Some(part), rest) {
        Some(led) => Some(led),
        None => Some((Lead::Before(Words::Narrowed(Some(part), false)), rest)),
    }
}

// The first words of a line, and the bytes after them.
fn lead_of(text: &[u8]) -> Option<(Lead, &[u8])>
    ensures { option_map (λ led. (lead_image led.0, led.1.now)) result ≡ owns.lead_of text.now }
{
    let (word, rest) = next_word(text);
    if word == SCHEMA {
        Some((Lead::Schema, rest))
    } else if word == HELP {
        Some((Lead::Help, rest))
    } else if word == BRIEF {
        Some((Lead::Before(Words::Brief), rest))
    } else if word == PART {
        parting(rest)
    } else {
        narrowing(None, text)
    }
}

// The bytes at the end of a line, with blanks in place of those before them.
fn in_place(alloc: Global, text: &[u8], rest: &[u8]) -> Result<Vec<u8>, AllocError>
    requires { length rest.now ≤ length text.now }
    ensures { IfOk result (λ line. line.items ≡ owns.in_place text.now rest.now) }
{
    let mut line = vec![in alloc; b' '; text.len() - rest.len()]?;
    line.extend_from_slice(rest)?;
    Ok(line)
}

// The line that is not read at its first dot.
fn at_first_dot(text: &[u8]) -> OwnReading
    ensures { own_reading_image result ≡ owns.Misses (owns.first_dot text.now) }
{
    OwnReading::Misses(gap_len(text) as u64)
}

// What a form makes of a line, or that the line is not read at its first dot.
fn or_first_dot(text: &[u8], own: Option<OwnLine>) -> OwnReading
    ensures { own_reading_image result ≡ owns.or_first_dot text.now (option_map own_image own) }
{
    match own {
        Some(own) => OwnReading::Owns(own),
        None => at_first_dot(text),
    }
}

// Whether a text has no token.
fn is_blank(alloc: Global, text: &[u8]) -> Result<bool, AllocError>
    ensures { IfOk result (λ blank. cond blank (tokens.HasNoToken text.now) (tokens.HasNoToken text.now → ⊥)) }
{
    match parse_any(alloc, text) {
        Ok(line) => Ok(line.is_none()),
        Err(LineFault::NotALine { .. }) => Ok(false),
        Err(LineFault::NoMemory) => Err(AllocError),
    }
}

// A table and steps after `.selected`.
fn before_table(
    alloc: Global,
    text: &[u8],
    part: Option<Part>,
    rest: &[u8],
) -> Result<OwnReading, AllocError>
    requires { owns.lead_of text.now ≡ Some (owns.BeforeTable (part_image part), rest.now) }
    ensures { IfOk result (λ reading. owns.IsOwnReading text.now (own_reading_image reading)) }
{
    let line = in_place(alloc, text, rest)?;
    match parse_selected(alloc, line.as_slice()) {
        Ok((table, steps)) => Ok(OwnReading::Owns(OwnLine::Selected { part, table, steps })),
        Err(LineFault::NotALine { at }) => Ok(OwnReading::Misses(at)),
        Err(LineFault::NoMemory) => Err(AllocError),
    }
}

// Whether a line has rows of which a part can be printed.
fn has_rows(line: &Line) -> bool
    ensures { result ≡ owns.has_rows line.now }
{
    match line {
        Line::Show { .. } => true,
        Line::Back { then, .. } => match then {
            Then::Plain | Then::Matching { .. } => true,
            Then::Grouped => false,
        },
        Line::Fwd { .. } | Line::Brush { .. } | Line::Clear | Line::ClearOne { .. } => false,
    }
}

// Whether a line has all the rows that its marks came from.
fn has_rows_behind(line: &Line) -> bool
    ensures { result ≡ owns.has_rows_behind line.now }
{
    matches!(
        line,
        Line::Back {
            then: Then::Plain,
            ..
        }
    )
}

// Whether a line changes which brushes are in force.
fn moves_brushes(line: &Line) -> bool
    ensures { result ≡ owns.moves_brushes line.now }
{
    matches!(
        line,
        Line::Brush { .. } | Line::Clear | Line::ClearOne { .. }
    )
}

// The own line that a line becomes whose rows are narrowed.
fn narrowed(part: Option<Part>, now: bool, line: AnyLine) -> Option<OwnLine>
    ensures { option_map own_image result ≡ owns.narrowed (part_image part) now (any_image line) }
{
    match line {
        AnyLine::Plain(line) => {
            let may = if now {
                has_rows_behind(&line)
            } else {
                has_rows(&line)
            };
            if may {
                Some(OwnLine::Narrowed { part, now, line })
            } else {
                None
            }
        }
        AnyLine::Ask(line) => Some(OwnLine::NarrowedAsk { part, now, line }),
        AnyLine::Profile { .. } | AnyLine::Append { .. } => None,
    }
}

// The own line that a line becomes that is answered without its lists.
fn briefly(line: AnyLine) -> Option<OwnLine>
    ensures { option_map own_image result ≡ owns.brief (any_image line) }
{
    match line {
        AnyLine::Plain(line) => {
            if moves_brushes(&line) {
                Some(OwnLine::Brief(line))
            } else {
                None
            }
        }
        AnyLine::Profile { view } => Some(OwnLine::BriefProfile { view }),
        AnyLine::Ask(_) | AnyLine::Append { .. } => None,
    }
}

// The own line that a line of any kind becomes after such words.
fn becomes(words: Words, line: AnyLine) -> Option<OwnLine>
    ensures { option_map own_image result ≡ line_behind words (any_image line) }
{
    match words {
        Words::Narrowed(part, now) => narrowed(part, now, line),
        Words::Brief => briefly(line),
    }
}

// A line of a script after words.
fn before_line(
    alloc: Global,
    text: &[u8],
    words: Words,
    rest: &[u8],
) -> Result<OwnReading, AllocError>
    requires { owns.lead_of text.now ≡ Some (owns.BeforeLine (line_behind words), rest.now) }
    ensures { IfOk result (λ reading. owns.IsOwnReading text.now (own_reading_image reading)) }
{
    let placed = in_place(alloc, text, rest)?;
    match parse_any(alloc, placed.as_slice()) {
        Ok(Some(line)) => Ok(or_first_dot(text, becomes(words, line))),
        Ok(None) => Ok(OwnReading::Misses(text.len() as u64)),
        Err(LineFault::NotALine { at }) => Ok(OwnReading::Misses(at)),
        Err(LineFault::NoMemory) => Err(AllocError),
    }
}

/// What an own line says, or the place at which it isn't read: its first dot if the fault comes before the script's line in it, or is the form of that line; else the place at which that line isn't read.
pub fn read_own(alloc: Global, text: &[u8]) -> Result<OwnReading, AllocError>
    ensures says { IfOk result (λ own. owns.IsOwnReading text.now (own_reading_image own)) }
    ensures kept { IfOk result (λ own. KeepsOwnReading (own_reading_image own)) }
{
    let Some((lead, rest)) = lead_of(text) else {
        return Ok(at_first_dot(text));
    };
    match lead {
        Lead::Schema => {
            if is_blank(alloc, rest)? {
                Ok(OwnReading::Owns(OwnLine::Schema))
            } else {
                Ok(at_first_dot(text))
            }
        }
        Lead::Help => {
            if is_blank(alloc, rest)? {
                Ok(OwnReading::Owns(OwnLine::Help))
            } else {
                Ok(at_first_dot(text))
            }
        }
        Lead::Selected(part) => before_table(alloc, text, part, rest),
        Lead::Before(words) => before_line(alloc, text, words, rest),
    }
}
