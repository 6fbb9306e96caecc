use std::alloc::{AllocError, Global};

/// How the lines of a section are read as bytes.
#[derive(Clone, Copy)]
pub struct Form {
    escaped: bool,
    times: Option<u64>,
}

impl Form {
    /// The form that these words name: nothing, `escaped`, `repeated N`, or `escaped repeated N`.
    pub fn read(words: &str) -> Option<Form> {
        let (escaped, rest) = match words.strip_prefix("escaped") {
            Some(rest) => (true, rest.strip_prefix(' ').unwrap_or(rest)),
            None => (false, words),
        };
        if rest.is_empty() {
            return Some(Form {
                escaped,
                times: None,
            });
        }
        let times = rest.strip_prefix("repeated ")?.parse().ok()?;
        Some(Form {
            escaped,
            times: Some(times),
        })
    }

    /// The bytes of a section's lines in this form, or None where an escape in them isn't one.
    pub fn bytes(self, alloc: Global, body: Option<&str>) -> Result<Option<Vec<u8>>, AllocError> {
        let piece = if self.escaped {
            unescaped(alloc, body)?
        } else {
            Some(plain(alloc, body)?)
        };
        match (piece, self.times) {
            (Some(piece), Some(times)) => Ok(Some(repeated(alloc, &piece, times)?)),
            (piece, _) => Ok(piece),
        }
    }
}

// The lines as they stand, each with its line feed.
fn plain(alloc: Global, body: Option<&str>) -> Result<Vec<u8>, AllocError> {
    let mut bytes = Vec::new(alloc);
    if let Some(body) = body {
        bytes.extend_from_slice(body.as_bytes())?;
        bytes.push(b'\n')?;
    }
    Ok(bytes)
}

// Adds a piece, in which `@` stands for a number.
fn add_numbered(
    alloc: Global,
    bytes: &mut Vec<u8>,
    piece: &[u8],
    number: u64,
) -> Result<(), AllocError> {
    for (place, part) in piece.split(|byte| *byte == b'@').enumerate() {
        if place > 0 {
            let number = format!(in alloc; "{number}")?;
            bytes.extend_from_slice(number.as_bytes())?;
        }
        bytes.extend_from_slice(part)?;
    }
    Ok(())
}

// A piece so many times, in which `@` stands for the number of the time, from 0.
fn repeated(alloc: Global, piece: &[u8], times: u64) -> Result<Vec<u8>, AllocError> {
    let mut bytes = Vec::new(alloc);
    let is_numbered = piece.contains(&b'@');
    for number in 0..times {
        if is_numbered {
            add_numbered(alloc, &mut bytes, piece, number)?;
        } else {
            bytes.extend_from_slice(piece)?;
        }
    }
    Ok(bytes)
}

// What the last byte of a text with escapes was.
#[derive(Clone, Copy)]
enum Escape {
    Skipped,
    Read(u8),
    Begun,
    Hex,
    HexDigit(u8),
    Wrong,
}

// The lines without their line feeds, and with `\n`, `\r`, `\t`, `\\`, `\'`, `\"` and `\x` with two hex digits for one byte each.
fn unescaped(alloc: Global, body: Option<&str>) -> Result<Option<Vec<u8>>, AllocError> {
    let mut bytes = Vec::new(alloc);
    let mut escape = Escape::Skipped;
    for byte in body.unwrap_or("").bytes() {
        escape = after(escape, byte);
        if let Escape::Read(read) = escape {
            bytes.push(read)?;
        }
    }
    match escape {
        Escape::Skipped | Escape::Read(_) => Ok(Some(bytes)),
        _ => Ok(None),
    }
}

fn after(escape: Escape, byte: u8) -> Escape {
    match (escape, byte) {
        (Escape::Skipped | Escape::Read(_), b'\n') => Escape::Skipped,
        (Escape::Skipped | Escape::Read(_), b'\\') => Escape::Begun,
        (Escape::Skipped | Escape::Read(_), _) => Escape::Read(byte),
        (Escape::Begun, _) => escaped(byte),
        (Escape::Hex, _) => hex_digit(byte).map_or(Escape::Wrong, Escape::HexDigit),
        (Escape::HexDigit(high), _) => match hex_digit(byte) {
            Some(low) => Escape::Read(high.wrapping_mul(16).wrapping_add(low)),
            None => Escape::Wrong,
        },
        (Escape::Wrong, _) => Escape::Wrong,
    }
}

// What the byte after a backslash makes.
fn escaped(byte: u8) -> Escape {
    match byte {
        b'x' => Escape::Hex,
        b'n' => Escape::Read(b'\n'),
        b'r' => Escape::Read(b'\r'),
        b't' => Escape::Read(b'\t'),
        b'\\' | b'\'' | b'"' => Escape::Read(byte),
        _ => Escape::Wrong,
    }
}

fn hex_digit(byte: u8) -> Option<u8> {
    match byte {
        b'0'..=b'9' => Some(byte - b'0'),
        b'a'..=b'f' => Some(byte - b'a' + 10),
        _ => None,
    }
}
