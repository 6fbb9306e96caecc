#![tactic(auto, using(crate::proofs::Steps::in_order))]

ghost use Rattle.std.specs.Prelude.{◌≡◌, map};
ghost use Rattle.smk_parse.specs.{Vocabulary.{stmt_image, head_of, joint, table_rule, view_rule, link_rule, depends_rule, ANames, ALineage, AnExtra, AStmts, no_tally}, Reads.{IsRead, IsRun, IsWhole, StmtReads}, Answers.IsBookAnswer};
ghost use Rattle.smk_base.specs.declared.book.token.TokenKind.TheVariants as kinds;

use crate::lists::{LinkedView, aggs, keys, listed};
use crate::plan::plan;
use crate::reader::Reader;
use crate::tokens::{column, expect, name, string_in_hand, within, wrong};
use smk_base::{
    Book, BookFault, Decl, Extra, LINEAGE_LIMIT, LINK_LIMIT, Many, Stmt, Stmts, TABLE_LIMIT,
    TokenKind, VIEW_LIMIT, Word,
};
use std::alloc::Global;

/// The statements of each kind so far.
#[derive(Clone, Copy, Default)]
pub struct Tally {
    pub tables: u32,
    pub views: u32,
    pub lineages: u32,
    pub links: u32,
}

/// A table statement after its keyword.
fn table_stmt(alloc: Global, reader: &mut Reader) -> Result<Stmt, BookFault>
    ensures { IsRun table_rule stmt_image reader.old reader.new result }
{
    let name = name(alloc, reader)?;
    expect(reader, TokenKind::From)?;
    let file = string_in_hand(alloc, reader)?;
    expect(reader, TokenKind::Str)?;
    expect(reader, TokenKind::Open)?;
    let cols = listed::<Decl>(alloc, reader)?;
    expect(reader, TokenKind::Close)?;
    Ok(Stmt::Table { name, file, cols })
}

/// A view statement after its keyword.
fn view_stmt(alloc: Global, reader: &mut Reader) -> Result<Stmt, BookFault>
    ensures { IsRun view_rule stmt_image reader.old reader.new result }
{
    let name = name(alloc, reader)?;
    expect(reader, TokenKind::Equal)?;
    let plan = Box::into_inner(plan(alloc, reader, 0)?);
    Ok(Stmt::View { name, plan })
}

/// What a backward declaration asks for besides the rows.
fn extra(alloc: Global, reader: &mut Reader) -> Result<Extra, BookFault>
    ensures { IsRead AnExtra (λ extra. extra) reader.old reader.new result }
{
    let at = reader.at();
    match reader.kind() {
        TokenKind::By => {
            reader.advance();
            Ok(Extra::By(column(alloc, reader)?))
        }
        TokenKind::Group => {
            reader.advance();
            let keys = keys(alloc, reader)?;
            let aggs = aggs(alloc, reader)?;
            Ok(Extra::Grouped { at, keys, aggs })
        }
        _ => Ok(Extra::Plain),
    }
}

/// A name, this keyword, and another name.
fn names(alloc: Global, reader: &mut Reader, between: TokenKind) -> Result<(Word, Word), BookFault>
    requires { joint between ≡ between }
    ensures { IsRead (ANames between) (λ names. names) reader.old reader.new result }
{
    let first = name(alloc, reader)?;
    expect(reader, between)?;
    let second = name(alloc, reader)?;
    Ok((first, second))
}

/// A lineage declaration after `lineage`, which is at this place.
fn lineage_stmt(alloc: Global, reader: &mut Reader, at: u64) -> Result<Stmt, BookFault>
    ensures { IsRead (ALineage at) stmt_image reader.old reader.new result }
{
    match reader.kind() {
        TokenKind::Back => {
            reader.advance();
            let (view, table) = names(alloc, reader, TokenKind::To)?;
            let extra = extra(alloc, reader)?;
            Ok(Stmt::Back {
                at,
                view,
                table,
                extra,
            })
        }
        TokenKind::Fwd => {
            reader.advance();
            let (table, view) = names(alloc, reader, TokenKind::To)?;
            Ok(Stmt::Fwd { at, table, view })
        }
        _ => Err(wrong(reader)),
    }
}

/// A link statement after its keyword.
fn link_stmt(alloc: Global, reader: &mut Reader) -> Result<Stmt, BookFault>
    ensures { IsRun link_rule stmt_image reader.old reader.new result }
{
    let (view, table) = names(alloc, reader, TokenKind::On)?;
    expect(reader, TokenKind::To)?;
    let to = listed::<LinkedView>(alloc, reader)?;
    Ok(Stmt::Link { view, table, to })
}

/// A dependency after `fd`, which is at this place.
fn depends_stmt(alloc: Global, reader: &mut Reader, at: u64) -> Result<Stmt, BookFault>
    ensures { IsRun (depends_rule at) stmt_image reader.old reader.new result }
{
    let (name, table) = names(alloc, reader, TokenKind::On)?;
    let keys = listed::<Word>(alloc, reader)?;
    expect(reader, TokenKind::To)?;
    let col = column(alloc, reader)?;
    Ok(Stmt::Depends {
        at,
        name,
        table,
        keys,
        col,
    })
}

/// A statement, which is counted.
#[tactic(auto, using(crate::proofs::Steps::in_loop))]
fn stmt(alloc: Global, reader: &mut Reader, tally: &mut Tally) -> Result<Stmt, BookFault>
    requires { (head_of reader.old.rest).kind ≡ kinds.End → ⊥ }
    ensures { StmtReads stmt_image tally.old tally.new reader.old reader.new result }
{
    let at = reader.at();
    match reader.kind() {
        TokenKind::Table => {
            within(reader, tally.tables < TABLE_LIMIT, Many::Tables)?;
            reader.advance_to(0, 0);
            tally.tables += 1;
            table_stmt(alloc, reader)
        }
        TokenKind::View => {
            within(reader, tally.views < VIEW_LIMIT, Many::Views)?;
            reader.advance_to(0, 0);
            tally.views += 1;
            view_stmt(alloc, reader)
        }
        TokenKind::Lineage => {
            within(reader, tally.lineages < LINEAGE_LIMIT, Many::Lineages)?;
            reader.advance_to(0, 0);
            tally.lineages += 1;
            lineage_stmt(alloc, reader, at)
        }
        TokenKind::Link => {
            within(reader, tally.links < LINK_LIMIT, Many::Links)?;
            reader.advance_to(0, 0);
            tally.links += 1;
            link_stmt(alloc, reader)
        }
        TokenKind::Fd => {
            within(reader, tally.views < VIEW_LIMIT, Many::Views)?;
            within(reader, tally.lineages < LINEAGE_LIMIT, Many::Lineages)?;
            reader.advance_to(0, 0);
            tally.views += 1;
            tally.lineages += 1;
            depends_stmt(alloc, reader, at)
        }
        _ => Err(wrong(reader)),
    }
}

/// The statements up to the end.
#[tactic(auto, using(crate::proofs::Steps::in_pipe))]
fn stmts(alloc: Global, reader: &mut Reader) -> Result<Stmts, BookFault>
    ensures { IsWhole (AStmts no_tally) (λ stmts. map stmt_image stmts) reader.old result }
{
    let mut stmts = Stmts::new(alloc);
    let mut tally = Tally::default();
    'stmts: loop {
        match reader.kind() {
            TokenKind::End => return Ok(stmts),
            _ => stmts.push(stmt(alloc, reader, &mut tally)?)?,
        }
    }
}

/// The tree of a book, or the first fault of its text.
#[tactic(auto, using(crate::proofs::Whole::book_unread))]
pub fn parse_book(alloc: Global, text: &[u8]) -> Result<Book, BookFault>
    ensures { IsBookAnswer text.now result }
{
    let mut reader = Reader::new(text);
    let stmts = stmts(alloc, &mut reader)?;
    Ok(Book { stmts })
}
