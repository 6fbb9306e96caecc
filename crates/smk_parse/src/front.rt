ghost use Rattle.std.specs.Prelude.{◌≡◌, ◌+◌, ◌<◌, ◌≤◌, length, map, take_while, FitsSigned, IfSome, true, false, drop, None, min};
ghost use Rattle.smk_parse.specs.{Vocabulary.{is_ascii_digit, minus_front, is_word_byte, is_quoted_byte, no_line_end, kind_in, string_len, front, quoted_front, or_equal, unequal_front, digits_value, number_kind, int_value, w64}, Texts.{front_of, Within}};
ghost use Rattle.smk_base.specs.declared.book.token.TokenKind.TheVariants.{Name};

use smk_base::{KEYWORDS, TokenKind};

/// What a text starts with: bytes that mean nothing, or a token, with their number.
#[derive(Clone, Copy)]
pub enum Front {
    Between(usize),
    Begins(TokenKind, usize),
}

/// One more than the greatest size of a number.
const BEYOND: u128 = 9_223_372_036_854_775_809;

/// The number of the digits, unless it is beyond every number.
#[tactic(auto, using(crate::proofs::Texts::one_digit))]
fn size(digits: &[u8]) -> u128
    ensures { result ≡ min (digits_value 0 digits.now) 9223372036854775809 }
{
    let mut value: u128 = 0;
    for digit in digits {
        value = (value * 10 + u128::from(digit.saturating_sub(b'0'))).min(BEYOND);
    }
    value
}

/// The kind of a number with this sign and these digits.
fn kind_of_number(minus: bool, digits: &[u8]) -> TokenKind
    ensures { result ≡ number_kind minus (digits_value 0 digits.now) }
{
    let beyond = if minus { BEYOND } else { BEYOND - 1 };
    if size(digits) < beyond {
        TokenKind::Number
    } else {
        TokenKind::Huge
    }
}

/// The value of a number in the range of i64.
#[tactic(auto, using(crate::proofs::Texts::minus_whole))]
pub fn int_of(text: &[u8]) -> i64
    requires { FitsSigned w64 (int_value text.now) }
    ensures { result ≡ int_value text.now }
{
    match text {
        [b'-', digits @ ..] => -(size(digits) as i128) as i64,
        _ => size(text) as i64,
    }
}

/// The number of bytes at the start that a word may have.
fn word_len(bytes: &[u8]) -> usize
    ensures is { result ≡ length (take_while is_word_byte bytes.now) }
    ensures within { result ≤ length bytes.now }
{
    bytes
        .iter()
        .take_while(|b| b.is_ascii_alphabetic() || **b == b'_' || b.is_ascii_digit())
        .count()
}

/// The number of digits at the start.
fn digits_len(bytes: &[u8]) -> usize
    ensures is { result ≡ length (take_while is_ascii_digit bytes.now) }
    ensures within { result ≤ length bytes.now }
{
    bytes.iter().take_while(|b| b.is_ascii_digit()).count()
}

/// The number of bytes before the first line feed.
pub fn line_len(bytes: &[u8]) -> usize
    ensures is { result ≡ length (take_while no_line_end bytes.now) }
    ensures within { result ≤ length bytes.now }
{
    bytes.iter().take_while(|b| **b != b'\n').count()
}

/// The number of bytes before the first backquote or line feed.
fn quoted_len(bytes: &[u8]) -> usize
    ensures is { result ≡ length (take_while is_quoted_byte bytes.now) }
    ensures within { result ≤ length bytes.now }
{
    bytes
        .iter()
        .take_while(|b| **b != b'`' && **b != b'\n')
        .count()
}

/// The kind that a table gives a word, or a name.
fn kind_among(table: &[(&[u8], TokenKind)], word: &[u8]) -> TokenKind
    ensures { result ≡ kind_in (map (λ k. record { word = k.0.now; kind = k.1 }) table.entry.now) Name word.now }
{
    for entry in table {
        if word == entry.0 {
            return entry.1;
        }
    }
    TokenKind::Name
}

/// How far a text between quotes goes, after its first quote.
fn string_end(bytes: &[u8]) -> Option<usize>
    ensures is { result ≡ string_len None false 0 bytes.now }
    ensures within { IfSome result (λ n. n ≤ length bytes.now) }
{
    let mut kept = None;
    let mut closed = false;
    for (i, b) in bytes.iter().enumerate() {
        if closed {
            if *b != b'"' {
                return Some(i);
            }
            kept = Some(i);
            closed = false;
        } else if *b == b'"' {
            closed = true;
        } else if *b == b'\n' {
            return kept;
        }
    }
    if closed { Some(bytes.len()) } else { kept }
}

/// A name between backquotes, after its first backquote.
fn quoted_begins(rest: &[u8]) -> Front
    ensures is { front_of result ≡ quoted_front (length (take_while is_quoted_byte rest.now)) (drop (length (take_while is_quoted_byte rest.now)) rest.now) }
    ensures within { Within result (length rest.now + 1) }
{
    let len = quoted_len(rest);
    match &rest[len..] {
        [b'`', ..] if len > 0 => Front::Begins(TokenKind::Quoted, len + 2),
        _ => Front::Begins(TokenKind::Bad, 0),
    }
}

/// One kind, or the other if `=` follows.
fn equal_or(short: TokenKind, long: TokenKind, rest: &[u8]) -> Front
    ensures is { front_of result ≡ or_equal short long rest.now }
    ensures within { Within result (length rest.now + 1) }
{
    match rest {
        [b'=', ..] => Front::Begins(long, 2),
        _ => Front::Begins(short, 1),
    }
}

/// What begins with a `!`, from the bytes after it.
fn unequal_begins(rest: &[u8]) -> Front
    ensures is { front_of result ≡ unequal_front rest.now }
    ensures within { Within result (length rest.now + 1) }
{
    match rest {
        [b'=', ..] => Front::Begins(TokenKind::NotEqual, 2),
        _ => Front::Begins(TokenKind::Bad, 0),
    }
}

/// What begins with a minus sign, from the bytes after it.
fn minus_begins(rest: &[u8]) -> Front
    ensures is { front_of result ≡ minus_front rest.now (length (take_while is_ascii_digit rest.now)) }
    ensures within { Within result (length rest.now + 1) }
{
    let len = digits_len(rest);
    if len == 0 {
        return Front::Begins(TokenKind::Bad, 0);
    }
    Front::Begins(kind_of_number(true, &rest[..len]), len + 1)
}

/// What the bytes start with.
pub fn front_at(bytes: &[u8]) -> Front
    ensures is { front_of result ≡ front bytes.now }
    ensures within { Within result (length bytes.now) }
{
    match bytes {
        [] => Front::Begins(TokenKind::End, 0),
        [b' ' | b'\t' | b'\n' | b'\r', ..] => Front::Between(1),
        [b'#', rest @ ..] => Front::Between(line_len(rest) + 1),
        [b'-', rest @ ..] => minus_begins(rest),
        [b'"', rest @ ..] => match string_end(rest) {
            Some(len) => Front::Begins(TokenKind::Str, len + 1),
            None => Front::Begins(TokenKind::Bad, 0),
        },
        [b'`', rest @ ..] => quoted_begins(rest),
        [b'<', rest @ ..] => equal_or(TokenKind::Less, TokenKind::LessEqual, rest),
        [b'>', rest @ ..] => equal_or(TokenKind::Greater, TokenKind::GreaterEqual, rest),
        [b'!', rest @ ..] => unequal_begins(rest),
        [b',', ..] => Front::Begins(TokenKind::Comma, 1),
        [b'(', ..] => Front::Begins(TokenKind::Open, 1),
        [b')', ..] => Front::Begins(TokenKind::Close, 1),
        [b'{', ..] => Front::Begins(TokenKind::OpenBrace, 1),
        [b'}', ..] => Front::Begins(TokenKind::CloseBrace, 1),
        [b'|', ..] => Front::Begins(TokenKind::Bar, 1),
        [b'=', ..] => Front::Begins(TokenKind::Equal, 1),
        [first, rest @ ..] => {
            if first.is_ascii_alphabetic() || *first == b'_' {
                let len = word_len(rest) + 1;
                Front::Begins(kind_among(&KEYWORDS, &bytes[..len]), len)
            } else if first.is_ascii_digit() {
                let len = digits_len(rest) + 1;
                Front::Begins(kind_of_number(false, &bytes[..len]), len)
            } else {
                Front::Begins(TokenKind::Bad, 0)
            }
        }
    }
}
