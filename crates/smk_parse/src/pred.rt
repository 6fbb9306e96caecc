#![tactic(auto, using(crate::proofs::Steps::in_order))]

ghost use Rattle.std.specs.Prelude.{◌≡◌, ◌+◌, ◌<◌, ℕ};
ghost use Rattle.smk_parse.specs.{Vocabulary.{pred_image, head_of, AnOn, AnOp, ATerm, APrim, AConj, APred}, Reads.{IsRead, IsPassed}};
ghost use Rattle.smk_base.specs.declared.book.token.TokenKind.TheVariants as kinds;

use crate::reader::Reader;
use crate::tokens::{column, column_in_hand, expect, is_column, is_short, literal, within, wrong};
use smk_base::{BookFault, COMPARE_LIMIT, CmpOp, DEPTH_LIMIT, Many, PredTree, Term, TokenKind};
use std::alloc::Global;

/// The `on` before a predicate, whose comparisons are counted from none.
pub fn on(reader: &mut Reader) -> Result<(), BookFault>
    ensures { IsPassed AnOn (head_of reader.old.rest) reader.old reader.new result }
{
    match reader.kind() {
        TokenKind::On => {
            let nodes = reader.nodes();
            reader.advance_to(nodes, 0);
            Ok(())
        }
        _ => Err(wrong(reader)),
    }
}

/// A comparison's operator.
fn op(reader: &mut Reader) -> Result<CmpOp, BookFault>
    ensures { IsRead AnOp (λ op. op) reader.old reader.new result }
{
    match reader.kind() {
        TokenKind::Equal => Ok(reader.took(CmpOp::Eq)),
        TokenKind::NotEqual => Ok(reader.took(CmpOp::Ne)),
        TokenKind::Less => Ok(reader.took(CmpOp::Lt)),
        TokenKind::LessEqual => Ok(reader.took(CmpOp::Le)),
        TokenKind::Greater => Ok(reader.took(CmpOp::Gt)),
        TokenKind::GreaterEqual => Ok(reader.took(CmpOp::Ge)),
        _ => Err(wrong(reader)),
    }
}

/// The right side of a comparison.
fn term(alloc: Global, reader: &mut Reader) -> Result<Term, BookFault>
    ensures { IsRead ATerm (λ term. term) reader.old reader.new result }
{
    if is_column(reader.kind()) {
        Ok(Term::Col(column(alloc, reader)?))
    } else {
        Ok(Term::Lit(literal(alloc, reader)?))
    }
}

/// A comparison.
fn compare(alloc: Global, reader: &mut Reader) -> Result<Box<PredTree>, BookFault>
    requires negates { (head_of reader.old.rest).kind ≡ kinds.Not → ⊥ }
    requires opens { (head_of reader.old.rest).kind ≡ kinds.Open → ⊥ }
    ensures { (depth : ℕ) → IsRead (APrim depth) (λ pred. pred_image pred.value) reader.old reader.new result }
{
    if !is_column(reader.kind()) {
        return Err(wrong(reader));
    }
    let compares = reader.compares();
    within(reader, compares < COMPARE_LIMIT, Many::Compares)?;
    within(reader, is_short(reader), Many::NameBytes)?;
    let left = column_in_hand(alloc, reader)?;
    reader.advance_to(reader.nodes(), compares + 1);
    let op = op(reader)?;
    let right = term(alloc, reader)?;
    Ok(Box::new(alloc, PredTree::Cmp(left, op, right))?)
}

/// A predicate without `and` and `or` of its own.
#[cycle(pred)]
fn prim(alloc: Global, reader: &mut Reader, depth: u32) -> Result<Box<PredTree>, BookFault>
    ensures { IsRead (APrim depth) (λ pred. pred_image pred.value) reader.old reader.new result }
{
    match reader.kind() {
        TokenKind::Not => {
            within(reader, depth < DEPTH_LIMIT, Many::Depth)?;
            reader.advance();
            let inner = prim(alloc, reader, depth + 1)?;
            Ok(Box::new(alloc, PredTree::Not(inner))?)
        }
        TokenKind::Open => {
            within(reader, depth < DEPTH_LIMIT, Many::Depth)?;
            reader.advance();
            let inner = pred(alloc, reader, depth + 1)?;
            expect(reader, TokenKind::Close)?;
            Ok(inner)
        }
        _ => compare(alloc, reader),
    }
}

/// Predicates joined by `and`.
#[tactic(auto, using(crate::proofs::Steps::in_loop))]
#[cycle(pred)]
fn conj(alloc: Global, reader: &mut Reader, depth: u32) -> Result<Box<PredTree>, BookFault>
    ensures { IsRead (AConj depth) (λ pred. pred_image pred.value) reader.old reader.new result }
{
    let mut left = prim(alloc, reader, depth)?;
    'ands: while let TokenKind::And = reader.kind() {
        reader.advance();
        let right = prim(alloc, reader, depth)?;
        left = Box::new(alloc, PredTree::And(left, right))?;
    }
    Ok(left)
}

/// Predicates joined by `or`.
#[tactic(auto, using(crate::proofs::Steps::in_loop))]
#[cycle(pred)]
pub fn pred(alloc: Global, reader: &mut Reader, depth: u32) -> Result<Box<PredTree>, BookFault>
    ensures { IsRead (APred depth) (λ pred. pred_image pred.value) reader.old reader.new result }
{
    let mut left = conj(alloc, reader, depth)?;
    'ors: while let TokenKind::Or = reader.kind() {
        reader.advance();
        let right = conj(alloc, reader, depth)?;
        left = Box::new(alloc, PredTree::Or(left, right))?;
    }
    Ok(left)
}
