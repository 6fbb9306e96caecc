#![tactic(auto, using(crate::proofs::Steps::in_order))]

ghost use Rattle.std.specs.Prelude.{◌≡◌};
ghost use Rattle.smk_parse.specs.{Vocabulary.{head_of, tail_of, joint, AToken, AMarks, AThen, ACleared, AMarked, ALine, AWholeLine, reads}, Reads.{of, Answers, IsRead, IsWhole}, Answers.{IsLineAnswer, as_line_fault}};
ghost use Rattle.smk_model.specs.Rules as rules;
ghost use Rattle.smk_base.specs.declared.book.token.TokenKind.TheVariants as kinds;

use crate::lists::{Member, listed};
use crate::reader::Reader;
use crate::tokens::{expect, line_column, line_name, literal, take_column, wrong};
use smk_base::{BookFault, Line, LineFault, Marks, Then, TokenKind, Word};
use std::alloc::Global;

/// A mark.
struct Mark;

impl Member for Mark {
    type Tree = u32;

    ghost rule = { of rules.Mark };

    fn read(_alloc: Global, reader: &mut Reader, _before: usize) -> Result<u32, BookFault> {
        match reader.kind() {
            TokenKind::Number => {
                let value = reader.int();
                if value < 0 || value >= 4_294_967_296 {
                    return Err(BookFault::BadNumber { at: reader.at() });
                }
                Ok(reader.took(value as u32))
            }
            _ => Err(wrong(reader)),
        }
    }
}

/// The marks of a line.
#[tactic(auto, using(crate::proofs::Steps::in_order, crate::proofs::Steps::marks_begin))]
fn marks(alloc: Global, reader: &mut Reader) -> Result<Marks, BookFault>
    ensures { IsRead AMarks (λ marks. marks) reader.old reader.new result }
{
    match reader.kind() {
        TokenKind::All => Ok(reader.took(Marks::All)),
        _ => Ok(Marks::Listed(listed::<Mark>(alloc, reader)?)),
    }
}

/// What a `back` line asks for besides the rows.
fn then(alloc: Global, reader: &mut Reader) -> Result<Then, BookFault>
    ensures { IsRead AThen (λ then. then) reader.old reader.new result }
{
    match reader.kind() {
        TokenKind::Where => {
            reader.advance();
            let col = line_column(alloc, reader)?;
            expect(reader, TokenKind::Equal)?;
            let lit = literal(alloc, reader)?;
            Ok(Then::Matching {
                col: col.name,
                value: lit.value,
            })
        }
        TokenKind::Group => Ok(reader.took(Then::Grouped)),
        _ => Ok(Then::Plain),
    }
}

/// What a `clear` line clears: every brush, or the one of a view on a table.
fn cleared(alloc: Global, reader: &mut Reader) -> Result<Line, BookFault>
    ensures { IsRead ACleared (λ line. line) reader.old reader.new result }
{
    match reader.kind() {
        TokenKind::Name => {
            let view = take_column(alloc, reader)?;
            expect(reader, TokenKind::On)?;
            let table = line_name(alloc, reader)?;
            Ok(Line::ClearOne {
                view: view.name,
                table: table.name,
            })
        }
        _ => Ok(Line::Clear),
    }
}

/// A name, marks, this keyword, and another name.
pub fn marked(
    alloc: Global,
    reader: &mut Reader,
    between: TokenKind,
) -> Result<(Word, Marks, Word), BookFault>
    requires { joint between ≡ between }
    ensures { IsRead (AMarked between) (λ marked. marked) reader.old reader.new result }
{
    let from = line_name(alloc, reader)?;
    let marks = marks(alloc, reader)?;
    expect(reader, between)?;
    let to = line_name(alloc, reader)?;
    Ok((from, marks, to))
}

/// A line without steps.
pub fn line(alloc: Global, reader: &mut Reader) -> Result<Line, BookFault>
    ensures { IsRead ALine (λ line. line) reader.old reader.new result }
{
    match reader.kind() {
        TokenKind::Show => {
            reader.advance();
            let view = line_name(alloc, reader)?;
            Ok(Line::Show { view: view.name })
        }
        TokenKind::Back => {
            reader.advance();
            let (view, marks, table) = marked(alloc, reader, TokenKind::To)?;
            let then = then(alloc, reader)?;
            Ok(Line::Back {
                view: view.name,
                marks,
                table: table.name,
                then,
            })
        }
        TokenKind::Fwd => {
            reader.advance();
            let (table, rows, view) = marked(alloc, reader, TokenKind::To)?;
            Ok(Line::Fwd {
                table: table.name,
                rows,
                view: view.name,
            })
        }
        TokenKind::Brush => {
            reader.advance();
            let (view, marks, table) = marked(alloc, reader, TokenKind::On)?;
            Ok(Line::Brush {
                view: view.name,
                marks,
                table: table.name,
            })
        }
        TokenKind::Clear => {
            reader.advance();
            cleared(alloc, reader)
        }
        _ => Err(wrong(reader)),
    }
}

/// That the text ends here.
pub fn end(reader: &Reader) -> Result<(), BookFault>
    ensures { Answers (reads (AToken kinds.End) reader.now) (λ u. head_of reader.now.rest) (record { rest = tail_of reader.now.rest; counts = reader.now.counts }) result }
{
    match reader.kind() {
        TokenKind::End => Ok(()),
        _ => Err(wrong(reader)),
    }
}

/// A line up to its end.
fn whole_line(alloc: Global, reader: &mut Reader) -> Result<Line, BookFault>
    ensures { IsWhole AWholeLine (λ line. line) reader.old result }
{
    let line = line(alloc, reader)?;
    end(reader)?;
    Ok(line)
}

/// A line's fault by that of its reader.
#[tactic(auto)]
pub fn as_line_fault(fault: BookFault) -> LineFault
    ensures { result ≡ as_line_fault fault }
{
    match fault {
        BookFault::NoMemory => LineFault::NoMemory,
        BookFault::BadToken { at }
        | BookFault::Unexpected { at }
        | BookFault::BadNumber { at }
        | BookFault::TooMany { at, what: _ } => LineFault::NotALine { at },
    }
}

/// The line of a script as a tree: None if it has no token, and the place of its first fault if it isn't a line.
pub fn parse_line(alloc: Global, line: &[u8]) -> Result<Option<Line>, LineFault>
    ensures { IsLineAnswer line.now result }
{
    let mut reader = Reader::new(line);
    match reader.kind() {
        TokenKind::End => Ok(None),
        _ => match whole_line(alloc, &mut reader) {
            Ok(line) => Ok(Some(line)),
            Err(fault) => Err(as_line_fault(fault)),
        },
    }
}
