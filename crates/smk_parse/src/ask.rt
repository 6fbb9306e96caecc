#![tactic(auto, using(crate::proofs::Steps::in_order))]

ghost use Rattle.std.specs.Prelude.{map};
ghost use Rattle.smk_parse.specs.{Vocabulary.{ask_step_image, any_image, ask_rule, append_rule, APiped, AskSteps, ASelected, AWholeAnyLine}, Reads.{IsRead, IsRun, IsWhole}, Answers.{IsAnyAnswer, IsSelectedAnswer}};
ghost use Rattle.smk_model.specs.Rules as rules;

use crate::line::{as_line_fault, end, line, marked};
use crate::plan::ask_step;
use crate::reader::Reader;
use crate::tokens::{expect, line_name, string_in_hand};
use smk_base::{AnyLine, AskLine, AskSteps, BookFault, LineFault, Text, TokenKind};
use std::alloc::Global;

/// One or more steps of an `ask` line with bars between.
#[tactic(auto, using(crate::proofs::Steps::in_pipe))]
fn ask_steps(alloc: Global, reader: &mut Reader) -> Result<AskSteps, BookFault>
    ensures { IsRead APiped (λ steps. map ask_step_image steps) reader.old reader.new result }
{
    let mut steps = AskSteps::new(alloc);
    'steps: loop {
        let next = ask_step(alloc, reader)?;
        steps.push(next)?;
        match reader.kind() {
            TokenKind::Bar => reader.advance(),
            _ => return Ok(steps),
        }
    }
}

/// Steps of an `ask` line, each after a bar; there may be none.
fn piped_steps(alloc: Global, reader: &mut Reader) -> Result<AskSteps, BookFault>
    ensures { IsRead AskSteps (λ steps. map ask_step_image steps) reader.old reader.new result }
{
    match reader.kind() {
        TokenKind::Bar => {
            reader.advance();
            ask_steps(alloc, reader)
        }
        _ => Ok(AskSteps::new(alloc)),
    }
}

/// A table and steps over its rows, up to the end.
fn whole_selected(alloc: Global, reader: &mut Reader) -> Result<(Text, AskSteps), BookFault>
    ensures { IsWhole ASelected (λ read. (read.0, map ask_step_image read.1)) reader.old result }
{
    let table = line_name(alloc, reader)?.name;
    let steps = piped_steps(alloc, reader)?;
    end(reader)?;
    Ok((table, steps))
}

/// An `ask` line after its keyword.
fn ask_line(alloc: Global, reader: &mut Reader) -> Result<AnyLine, BookFault>
    ensures { IsRun ask_rule any_image reader.old reader.new result }
{
    expect(reader, TokenKind::Back)?;
    let (view, marks, table) = marked(alloc, reader, TokenKind::To)?;
    expect(reader, TokenKind::Bar)?;
    let steps = ask_steps(alloc, reader)?;
    Ok(AnyLine::Ask(AskLine {
        view: view.name,
        marks,
        table: table.name,
        steps,
    }))
}

/// An `append` line after its keyword.
fn append_line(alloc: Global, reader: &mut Reader) -> Result<AnyLine, BookFault>
    ensures { IsRun append_rule any_image reader.old reader.new result }
{
    let table = line_name(alloc, reader)?.name;
    let file = string_in_hand(alloc, reader)?;
    expect(reader, TokenKind::Str)?;
    Ok(AnyLine::Append { table, file })
}

/// A line of any kind.
#[tactic(auto, using(crate::proofs::Steps::in_order, crate::proofs::Steps::plain_begins))]
fn any_line(alloc: Global, reader: &mut Reader) -> Result<AnyLine, BookFault>
    ensures { IsRead rules.AnyLine any_image reader.old reader.new result }
{
    match reader.kind() {
        TokenKind::Ask => {
            reader.advance();
            ask_line(alloc, reader)
        }
        TokenKind::Fd => {
            reader.advance();
            let view = line_name(alloc, reader)?.name;
            Ok(AnyLine::Profile { view })
        }
        TokenKind::Append => {
            reader.advance();
            append_line(alloc, reader)
        }
        _ => Ok(AnyLine::Plain(line(alloc, reader)?)),
    }
}

/// A line of any kind up to its end.
fn whole_any_line(alloc: Global, reader: &mut Reader) -> Result<AnyLine, BookFault>
    ensures { IsWhole AWholeAnyLine any_image reader.old result }
{
    let line = any_line(alloc, reader)?;
    end(reader)?;
    Ok(line)
}

/// The line of a script, of any kind, as a tree: None if it has no token, and the place of its first fault if it isn't a line.
pub fn parse_any(alloc: Global, line: &[u8]) -> Result<Option<AnyLine>, LineFault>
    ensures { IsAnyAnswer line.now result }
{
    let mut reader = Reader::new(line);
    match reader.kind() {
        TokenKind::End => Ok(None),
        _ => match whole_any_line(alloc, &mut reader) {
            Ok(line) => Ok(Some(line)),
            Err(fault) => Err(as_line_fault(fault)),
        },
    }
}

/// A table and the steps over its rows that a text spells, or the place of its first fault.
pub fn parse_selected(alloc: Global, text: &[u8]) -> Result<(Text, AskSteps), LineFault>
    ensures { IsSelectedAnswer text.now result }
{
    let mut reader = Reader::new(text);
    match whole_selected(alloc, &mut reader) {
        Ok(read) => Ok(read),
        Err(fault) => Err(as_line_fault(fault)),
    }
}
