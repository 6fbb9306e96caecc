#![tactic(auto, using(crate::proofs::Steps::in_order, crate::proofs::Steps::members))]

ghost use Rattle.std.specs.Prelude.{◌≡◌, ◌<◌, ◌≤◌, pos, ◌≤ℤ◌, IfOk};
ghost use Rattle.smk_parse.specs.{Vocabulary.{head_of, Declaration, OutputItem, KeyColumn, Aggregation, ColumnPair, LinkedView, AType, ADefault, AnAs, AWidth, AWhat, AKeys, AnAggs, One}, Reads.{MemberRule, of, Answers, IsRead, reads_one, reads_list}};
ghost use Rattle.smk_base.specs.declared.book.token.TokenKind.TheVariants as kinds;

use crate::reader::Reader;
use crate::tokens::{
    column, expect, first_column, is_column, is_short, literal, take_column, within, wrong,
};
use smk_base::{
    AggTree, AggTrees, AggWhat, BookFault, COLUMN_LIMIT, Decl, ItemTree, LINK_LIMIT, ListOf, Lit,
    Many, PairTree, TokenKind, Word, Words,
};
use std::alloc::Global;

/// What may be between commas.
pub trait Member {
    type Tree: Drop;

    /// The grammar's rule for a member.
    ghost rule: { MemberRule Self.Tree };

    /// A member, after so many others.
    fn read(alloc: Global, reader: &mut Reader, before: usize) -> Result<Self::Tree, BookFault>
        ensures { Answers (reads_one rule before reader.old) (λ tree. tree) reader.new result };
}

/// One or more members with commas between.
pub fn listed<M: Member>(alloc: Global, reader: &mut Reader) -> Result<ListOf<M::Tree>, BookFault>
    ensures { Answers (reads_list M.rule reader.old) (λ list. list) reader.new result }
{
    let mut list = ListOf::new(alloc);
    'members: loop {
        let before = list.as_slice().len();
        let next = M::read(alloc, reader, before)?;
        list.push(next)?;
        match reader.kind() {
            TokenKind::Comma => reader.advance(),
            _ => return Ok(list),
        }
    }
}

/// Whether a declared column is a text.
fn is_text(reader: &mut Reader) -> Result<bool, BookFault>
    ensures { IsRead AType (λ text. text) reader.old reader.new result }
{
    match reader.kind() {
        TokenKind::Int => Ok(reader.took(false)),
        TokenKind::Text => Ok(reader.took(true)),
        _ => Err(wrong(reader)),
    }
}

/// The default of a declared column.
fn default(alloc: Global, reader: &mut Reader) -> Result<Option<Lit>, BookFault>
    ensures { IsRead ADefault (λ lit. lit) reader.old reader.new result }
{
    match reader.kind() {
        TokenKind::Default => {
            reader.advance();
            Ok(Some(literal(alloc, reader)?))
        }
        _ => Ok(None),
    }
}

// A declared column.
impl Member for Decl {
    type Tree = Decl;

    ghost rule = { of Declaration };

    fn read(alloc: Global, reader: &mut Reader, before: usize) -> Result<Decl, BookFault> {
        let name = first_column(alloc, reader, before)?;
        let text = is_text(reader)?;
        let def = default(alloc, reader)?;
        Ok(Decl { name, text, def })
    }
}

/// The output name of a column: its own, unless `as` gives another.
fn named(alloc: Global, reader: &mut Reader, col: &Word) -> Result<Word, BookFault>
    ensures { IsRead (AnAs col.now) (λ name. name) reader.old reader.new result }
{
    match reader.kind() {
        TokenKind::As => {
            reader.advance();
            column(alloc, reader)
        }
        _ => {
            let name = col.name.copy(alloc)?;
            Ok(Word { name, at: col.at })
        }
    }
}

/// The second part of `bin`.
fn width(reader: &mut Reader) -> Result<i64, BookFault>
    ensures reads { IsRead AWidth (λ width. width) reader.old reader.new result }
    ensures low { IfOk result (λ width. pos 1 ≤ℤ width) }
    ensures high { IfOk result (λ width. width ≤ℤ pos 9223372036854775807) }
{
    match reader.kind() {
        TokenKind::Number => {
            let value = reader.int();
            if value < 1 {
                return Err(BookFault::BadNumber { at: reader.at() });
            }
            Ok(reader.took(value))
        }
        _ => Err(wrong(reader)),
    }
}

/// An output column of bins.
fn bin_item(alloc: Global, reader: &mut Reader, before: usize) -> Result<ItemTree, BookFault>
    requires { (head_of reader.old.rest).kind ≡ kinds.Bin }
    ensures { IsRead (One OutputItem before) (λ item. item) reader.old reader.new result }
{
    within(reader, before < COLUMN_LIMIT as usize, Many::Columns)?;
    let _kind = reader.kind();
    reader.advance();
    expect(reader, TokenKind::Open)?;
    let col = column(alloc, reader)?;
    expect(reader, TokenKind::Comma)?;
    let width = width(reader)?;
    expect(reader, TokenKind::Close)?;
    expect(reader, TokenKind::As)?;
    let name = column(alloc, reader)?;
    Ok(ItemTree::Bin { col, width, name })
}

/// An output column that is a column of the input.
fn column_item(alloc: Global, reader: &mut Reader, before: usize) -> Result<ItemTree, BookFault>
    requires { (head_of reader.old.rest).kind ≡ kinds.Bin → ⊥ }
    ensures { IsRead (One OutputItem before) (λ item. item) reader.old reader.new result }
{
    let col = first_column(alloc, reader, before)?;
    let name = named(alloc, reader, &col)?;
    Ok(ItemTree::Col { col, name })
}

// An output column.
impl Member for ItemTree {
    type Tree = ItemTree;

    ghost rule = { of OutputItem };

    fn read(alloc: Global, reader: &mut Reader, before: usize) -> Result<ItemTree, BookFault> {
        match reader.kind() {
            TokenKind::Bin => bin_item(alloc, reader, before),
            _ => column_item(alloc, reader, before),
        }
    }
}

/// What an aggregate computes.
fn what(alloc: Global, reader: &mut Reader) -> Result<AggWhat, BookFault>
    ensures { IsRead AWhat (λ what. what) reader.old reader.new result }
{
    match reader.kind() {
        TokenKind::Count => Ok(reader.took(AggWhat::Count)),
        TokenKind::Sum => {
            reader.advance();
            Ok(AggWhat::Sum(column(alloc, reader)?))
        }
        TokenKind::Min => {
            reader.advance();
            Ok(AggWhat::Min(column(alloc, reader)?))
        }
        TokenKind::Max => {
            reader.advance();
            Ok(AggWhat::Max(column(alloc, reader)?))
        }
        _ => Err(wrong(reader)),
    }
}

// An aggregate.
impl Member for AggTree {
    type Tree = AggTree;

    ghost rule = { of Aggregation };

    fn read(alloc: Global, reader: &mut Reader, before: usize) -> Result<AggTree, BookFault> {
        let name = first_column(alloc, reader, before)?;
        expect(reader, TokenKind::Equal)?;
        let what = what(alloc, reader)?;
        Ok(AggTree { name, what })
    }
}

// A pair of a join.
impl Member for PairTree {
    type Tree = PairTree;

    ghost rule = { of ColumnPair };

    fn read(alloc: Global, reader: &mut Reader, before: usize) -> Result<PairTree, BookFault> {
        let left = first_column(alloc, reader, before)?;
        expect(reader, TokenKind::Equal)?;
        let right = column(alloc, reader)?;
        Ok(PairTree { left, right })
    }
}

// A key of a grouping.
impl Member for Word {
    type Tree = Word;

    ghost rule = { of KeyColumn };

    fn read(alloc: Global, reader: &mut Reader, before: usize) -> Result<Word, BookFault> {
        first_column(alloc, reader, before)
    }
}

/// A linked view.
pub struct LinkedView;

impl Member for LinkedView {
    type Tree = Word;

    ghost rule = { of LinkedView };

    fn read(alloc: Global, reader: &mut Reader, before: usize) -> Result<Word, BookFault> {
        match reader.kind() {
            TokenKind::Name => {
                within(reader, before < LINK_LIMIT as usize, Many::Links)?;
                within(reader, is_short(reader), Many::NameBytes)?;
                take_column(alloc, reader)
            }
            _ => Err(wrong(reader)),
        }
    }
}

/// The keys of a grouping.
pub fn keys(alloc: Global, reader: &mut Reader) -> Result<Words, BookFault>
    ensures { IsRead AKeys (λ list. list) reader.old reader.new result }
{
    if !is_column(reader.kind()) {
        return Ok(Words::new(alloc));
    }
    Ok(listed::<Word>(alloc, reader)?)
}

/// The aggregates of a grouping.
pub fn aggs(alloc: Global, reader: &mut Reader) -> Result<AggTrees, BookFault>
    ensures { IsRead AnAggs (λ list. list) reader.old reader.new result }
{
    match reader.kind() {
        TokenKind::OpenBrace => {
            reader.advance();
            let list = listed::<AggTree>(alloc, reader)?;
            expect(reader, TokenKind::CloseBrace)?;
            Ok(list)
        }
        _ => Ok(AggTrees::new(alloc)),
    }
}
