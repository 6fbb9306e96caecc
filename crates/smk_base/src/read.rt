//! What files are read by: the ints of fields, and the byte order marks at a file's front.
ghost use Rattle.std.specs.{Prelude.{◌≡◌, ◌<◌, ◌^◌, Some, None, IfSome, IfNone, IsTrue, IsFalse, ℤ, pos, neg_ℤ, if◌then◌else◌}, Str.Parse.{digits_value, starts_with_minus, without_leading_sign}};
ghost use Rattle.smk_base.specs.{Ints.{after_blanks, before_blanks, int_of, is_blank, is_i64, is_numeral, numeral_int, IsIntText}, Marks.{after_marks, begins_with_mark}};

// A number from here on takes no further digit in the range of i64.
const LEAST_FULL: u64 = 1_000_000_000_000_000_000;

/// The int that the bytes write: spaces or tabs, an optional plus or minus, one or more digits, spaces or tabs, of a value in the range of i64. None exactly where they write none.
pub fn read_int(bytes: &[u8]) -> Option<i64>
    ensures value { result ≡ int_of bytes.now }
    ensures some { IfSome result (λ n. IsIntText bytes.now n) }
    ensures none { IfNone result ((n : ℤ) → ¬ (IsIntText bytes.now n)) }
{
    match read_numeral(bytes) {
        Some(number) => Some(number),
        None => read_among_blanks(bytes),
    }
}

// The int of bytes that begin or end by blanks, or write none. Few do, so this stays out of the way of the others.
#[cold]
#[inline(never)]
fn read_among_blanks(bytes: &[u8]) -> Option<i64>
    ensures { result ≡ int_of bytes.now }
{
    read_numeral(without_blanks_behind(without_blanks_before(bytes)))
}

// The number that an optional sign and digits write, if it is in the range of i64.
#[inline(always)]
fn read_numeral(numeral: &[u8]) -> Option<i64>
    ensures { result ≡ numeral_int numeral.now }
{
    let size = read_digits(without_sign(numeral))?;
    with_sign(has_minus(numeral), size)
}

// Whether a minus stands first.
fn has_minus(numeral: &[u8]) -> bool
    ensures { result ≡ starts_with_minus numeral.now }
{
    matches!(numeral, [b'-', ..])
}

// The bytes behind a sign that stands first, and all where there is none.
fn without_sign(numeral: &[u8]) -> &[u8]
    ensures { result.now ≡ without_leading_sign numeral.now }
{
    match numeral {
        [b'-' | b'+', digits @ ..] => digits,
        digits => digits,
    }
}

// The number that the digits write. None where there is no digit or another byte, and where the number is past the range of i64.
#[inline(always)]
fn read_digits(digits: &[u8]) -> Option<u64>
    ensures some { IfSome result (λ n. IsTrue (is_numeral digits.now) × (n ≡ digits_value 10 digits.now)) }
    ensures none { IfNone result (IsTrue (is_numeral digits.now) → 2 ^ 63 < digits_value 10 digits.now) }
{
    if digits.is_empty() {
        return None;
    }
    let mut number: u64 = 0;
    for digit in digits {
        if !digit.is_ascii_digit() {
            return None;
        }
        if number >= LEAST_FULL {
            return None;
        }
        number = number * 10 + u64::from(*digit - b'0');
    }
    Some(number)
}

// The number of this sign and size, if it is in the range of i64.
#[inline(always)]
fn with_sign(is_negative: bool, size: u64) -> Option<i64>
    ensures { result ≡ (let n = if is_negative then neg_ℤ (pos size) else pos size in if is_i64 n then Some n else None) }
{
    if is_negative {
        i64::try_from(-i128::from(size)).ok()
    } else {
        i64::try_from(size).ok()
    }
}

/// The bytes after every byte order mark at their front.
pub fn without_mark(bytes: &[u8]) -> &[u8]
    ensures rest { result.now ≡ after_marks bytes.now }
    ensures none_left { IsFalse (begins_with_mark result.now) }
{
    let mut rest = bytes;
    while let [0xEF, 0xBB, 0xBF, more @ ..] = rest {
        rest = more;
    }
    rest
}

/// The bytes after the spaces and tabs at their front.
fn without_blanks_before(bytes: &[u8]) -> &[u8]
    ensures { result.now ≡ after_blanks bytes.now }
{
    let mut rest = bytes;
    while let [b' ' | b'\t', more @ ..] = rest {
        rest = more;
    }
    rest
}

/// The bytes before the spaces and tabs at their end.
fn without_blanks_behind(bytes: &[u8]) -> &[u8]
    ensures { result.now ≡ before_blanks bytes.now }
{
    let mut rest = bytes;
    while let [more @ .., last] = rest {
        if !is_blank_byte(*last) {
            break;
        }
        rest = more;
    }
    rest
}

/// Whether a byte is a space or a tab.
fn is_blank_byte(byte: u8) -> bool
    ensures { result ≡ is_blank byte }
{
    byte == b' ' || byte == b'\t'
}
