#![tactic(auto, using(crate::proofs::Steps::in_order))]

ghost use Rattle.std.specs.Prelude.{◌≡◌, ◌<◌, IsTrue, true, false, IfOk, IfErr, OnOk};
ghost use Rattle.smk_parse.specs.{Vocabulary.{NoMemory, TooMany, head_of, is_more, inner, string_value, token_fault, is_short, AToken, ALiteral, AName, AColumn, AFirst, ALineName, ALineColumn}, Texts.Advances, Reads.{IsRead, IsPassed, is_column, column_name, column_word}};

use crate::reader::Reader;
use smk_base::{BookFault, COLUMN_LIMIT, Lit, Many, NAME_LIMIT, Text, TokenKind, Value, Word};
use std::alloc::Global;

/// The fault at a token that may not be here.
#[tactic(auto)]
pub fn wrong(reader: &Reader) -> BookFault
    ensures { result ≡ token_fault (head_of reader.now.rest) }
{
    let at = reader.at();
    match reader.kind() {
        TokenKind::Bad => BookFault::BadToken { at },
        TokenKind::Huge => BookFault::BadNumber { at },
        _ => BookFault::Unexpected { at },
    }
}

/// That the token in hand begins no more of these than there may be.
pub fn within(reader: &Reader, few: bool, what: Many) -> Result<(), BookFault>
    ensures few { OnOk result (few ≡ true) }
    ensures many { IfErr result (λ fault. few ≡ false) }
    ensures fault { IfErr result (λ fault. fault ≡ TooMany (head_of reader.now.rest).at what) }
{
    if few {
        Ok(())
    } else {
        let at = reader.at();
        Err(BookFault::TooMany { at, what })
    }
}

/// A token of this kind.
pub fn expect(reader: &mut Reader, kind: TokenKind) -> Result<(), BookFault>
    requires { IsTrue (is_more kind) }
    ensures { IsPassed (AToken kind) (head_of reader.old.rest) reader.old reader.new result }
{
    if kind == reader.kind() {
        reader.advance();
        Ok(())
    } else {
        Err(wrong(reader))
    }
}

/// The bytes between the first and the last.
#[tactic(auto)]
fn inner(bytes: &[u8]) -> &[u8]
    ensures { result.now ≡ inner bytes.now }
{
    match bytes {
        [_, inner @ .., _] => inner,
        _ => &[],
    }
}

/// The value of the string in hand, with each pair of quotes as one.
#[tactic(auto, using(crate::proofs::Texts::kept_byte, crate::proofs::Texts::second_byte))]
pub fn string_in_hand(alloc: Global, reader: &Reader) -> Result<Text, BookFault>
    ensures ok { IfOk result (λ text. text ≡ string_value (head_of reader.now.rest).text) }
    ensures memory { IfErr result (λ fault. fault ≡ NoMemory) }
{
    let mut value = Text::new(alloc);
    let mut second = false;
    for b in inner(reader.bytes()) {
        if second {
            second = false;
            continue;
        }
        value.push(*b)?;
        second = *b == b'"';
    }
    Ok(value)
}

/// A literal.
pub fn literal(alloc: Global, reader: &mut Reader) -> Result<Lit, BookFault>
    ensures { IsRead ALiteral (λ lit. lit) reader.old reader.new result }
{
    let at = reader.at();
    match reader.kind() {
        TokenKind::Number => {
            let value = Value::Int(reader.int().into());
            Ok(reader.took(Lit { value, at }))
        }
        TokenKind::Str => {
            let value = Value::Text(string_in_hand(alloc, reader)?);
            Ok(reader.took(Lit { value, at }))
        }
        _ => Err(wrong(reader)),
    }
}

/// Whether a token of this kind is a column.
pub fn is_column(kind: TokenKind) -> bool
    ensures { result ≡ is_column kind }
{
    matches!(kind, TokenKind::Name | TokenKind::Quoted)
}

/// The bytes of the column in hand, without backquotes.
#[tactic(auto)]
fn name_in_hand<'t>(reader: &Reader<'t>) -> &'t [u8]
    ensures { result.now ≡ column_name (head_of reader.now.rest) }
{
    match reader.kind() {
        TokenKind::Quoted => inner(reader.bytes()),
        _ => reader.bytes(),
    }
}

/// Whether the name in hand has at most 64 bytes.
#[tactic(auto)]
pub fn is_short(reader: &Reader) -> bool
    ensures { result ≡ is_short (head_of reader.now.rest) }
{
    name_in_hand(reader).len() <= NAME_LIMIT as usize
}

/// The word of the column in hand.
pub fn column_in_hand(alloc: Global, reader: &Reader) -> Result<Word, BookFault>
    ensures ok { IfOk result (λ word. word ≡ column_word (head_of reader.now.rest)) }
    ensures memory { IfErr result (λ fault. fault ≡ NoMemory) }
{
    let name = Text::from_vec(Vec::from_slice(alloc, name_in_hand(reader))?);
    let at = reader.at();
    Ok(Word { name, at })
}

/// The column in hand is taken.
pub fn take_column(alloc: Global, reader: &mut Reader) -> Result<Word, BookFault>
    requires { IsTrue (is_column (head_of reader.old.rest).kind) }
    ensures taken { OnOk result (Advances reader.old.counts reader.old reader.new) }
    ensures ok { IfOk result (λ word. word ≡ column_word (head_of reader.old.rest)) }
    ensures memory { IfErr result (λ fault. fault ≡ NoMemory) }
{
    let word = column_in_hand(alloc, reader)?;
    reader.advance();
    Ok(word)
}

/// A name of at most 64 bytes.
pub fn name(alloc: Global, reader: &mut Reader) -> Result<Word, BookFault>
    ensures { IsRead AName (λ word. word) reader.old reader.new result }
{
    match reader.kind() {
        TokenKind::Name => {
            within(reader, is_short(reader), Many::NameBytes)?;
            take_column(alloc, reader)
        }
        _ => Err(wrong(reader)),
    }
}

/// A name of any length.
pub fn line_name(alloc: Global, reader: &mut Reader) -> Result<Word, BookFault>
    ensures { IsRead ALineName (λ word. word) reader.old reader.new result }
{
    match reader.kind() {
        TokenKind::Name => take_column(alloc, reader),
        _ => Err(wrong(reader)),
    }
}

/// A column of at most 64 bytes.
pub fn column(alloc: Global, reader: &mut Reader) -> Result<Word, BookFault>
    ensures { IsRead AColumn (λ word. word) reader.old reader.new result }
{
    if !is_column(reader.kind()) {
        return Err(wrong(reader));
    }
    within(reader, is_short(reader), Many::NameBytes)?;
    take_column(alloc, reader)
}

/// The column that begins a member of a list, after so many others.
pub fn first_column(alloc: Global, reader: &mut Reader, before: usize) -> Result<Word, BookFault>
    ensures { IsRead (AFirst before) (λ word. word) reader.old reader.new result }
{
    if !is_column(reader.kind()) {
        return Err(wrong(reader));
    }
    within(reader, before < COLUMN_LIMIT as usize, Many::Columns)?;
    within(reader, is_short(reader), Many::NameBytes)?;
    take_column(alloc, reader)
}

/// A column of any length.
pub fn line_column(alloc: Global, reader: &mut Reader) -> Result<Word, BookFault>
    ensures { IsRead ALineColumn (λ word. word) reader.old reader.new result }
{
    if !is_column(reader.kind()) {
        return Err(wrong(reader));
    }
    take_column(alloc, reader)
}
