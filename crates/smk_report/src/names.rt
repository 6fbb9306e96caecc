ghost use Rattle.std.specs.{Prelude.{◌≡◌, nat_eq, IfOk}, List.{list_any, list_all}, Cmp.Lexicographic.pointwise};
ghost use Rattle.smk_model.specs.ShownNames as names;
ghost use Rattle.smk_model.specs.Tokens.{is_letter, is_word_byte};

use crate::lines::add_parts;
use smk_base::{KEYWORDS, TokenKind};
use std::alloc::{AllocError, Global};

// Whether a word begins with this byte.
fn is_letter_byte(b: u8) -> bool
    ensures { result ≡ is_letter b }
{
    b.is_ascii_alphabetic() || b == b'_'
}

// Whether a word goes on with these bytes.
fn goes_on(bytes: &[u8]) -> bool
    ensures { result ≡ list_all is_word_byte bytes.now }
{
    for b in bytes {
        if !is_letter_byte(*b) && !b.is_ascii_digit() {
            return false;
        }
    }
    true
}

// Whether the bytes are a word.
fn is_word(bytes: &[u8]) -> bool
    ensures { result ≡ names.is_word bytes.now }
{
    match bytes {
        [] => false,
        [first, rest @ ..] => is_letter_byte(*first) && goes_on(rest),
    }
}

// Whether the bytes are one of the table's words.
fn is_among(table: &[(&[u8], TokenKind)], bytes: &[u8]) -> bool
    ensures { result ≡ list_any (λ entry. pointwise nat_eq bytes.now entry.0.now) table.now }
{
    for entry in table {
        if bytes == entry.0 {
            return true;
        }
    }
    false
}

// Whether the bytes are a keyword.
fn is_keyword(bytes: &[u8]) -> bool
    ensures { result ≡ names.is_keyword bytes.now }
{
    is_among(&KEYWORDS, bytes)
}

// Whether the bytes are a word that is no keyword.
fn is_plain_name(bytes: &[u8]) -> bool
    ensures { result ≡ names.is_plain_name bytes.now }
{
    is_word(bytes) && !is_keyword(bytes)
}

/// A name as a book writes it: between backquotes if it needs them.
pub fn shown(alloc: Global, name: &[u8]) -> Result<Vec<u8>, AllocError>
    ensures { IfOk result (λ text. text.items ≡ names.shown name.now) }
{
    if is_plain_name(name) {
        return Vec::from_slice(alloc, name);
    }
    let mut text = Vec::new(alloc);
    add_parts(&mut text, &[b"`", name, b"`"])?;
    Ok(text)
}
