#![tactic(auto, using(crate::proofs::Steps::in_order))]

ghost use Rattle.std.specs.Prelude.{◌≡◌, ◌∷◌, ◌+◌, ◌<◌, ◌≤◌, ℕ, is_some, true, IsTrue, IfErr, OnOk};
ghost use Rattle.smk_parse.specs.{Vocabulary.{TooMany, Nodes, tree_image, step_image, ask_step_image, head_of, tail_of, is_more, step_rule, one_input, node_more, ASource, APlan, AStep, AnAskStep}, Texts.Advances, Reads.{Answers, IsRead, ran}};
ghost use Rattle.smk_base.specs.declared.book.limits.TheConstants.{NODE_LIMIT};
ghost use Rattle.smk_base.specs.declared.book.token.TokenKind.TheVariants as kinds;

use crate::lists::{aggs, keys, listed};
use crate::pred::{on, pred};
use crate::reader::Reader;
use crate::tokens::{expect, name, within, wrong};
use smk_base::TokenKind::{Distinct, Group, Join, Product, Project, Theta, Union, Where};
use smk_base::{
    AskStep, BookFault, DEPTH_LIMIT, ItemTree, Many, NODE_LIMIT, PairTree, StepTree, TokenKind,
    Tree,
};
use std::alloc::Global;

/// The token in hand is taken, and makes a node of the plan.
fn take_node(reader: &mut Reader) -> Result<(), BookFault>
    requires { IsTrue (is_more (head_of reader.old.rest).kind) }
    ensures taken { OnOk result (Advances (node_more reader.old.counts) reader.old reader.new) }
    ensures few { OnOk result (reader.old.counts.nodes < NODE_LIMIT) }
    ensures many { IfErr result (λ fault. NODE_LIMIT ≤ reader.old.counts.nodes) }
    ensures fault { IfErr result (λ fault. fault ≡ TooMany (head_of reader.old.rest).at Nodes) }
    ensures here { reader.old.rest ≡ head_of reader.old.rest ∷ tail_of reader.old.rest }
{
    let _kind = reader.kind();
    let nodes = reader.nodes();
    within(reader, nodes < NODE_LIMIT, Many::Nodes)?;
    reader.advance_to(nodes + 1, 0);
    Ok(())
}

/// Whether a token of this kind begins a step.
fn is_step(kind: TokenKind) -> bool
    ensures step { (depth : ℕ) → result ≡ is_some (step_rule depth kind) }
    ensures more { result ≡ true → IsTrue (is_more kind) }
{
    matches!(
        kind,
        Where | Project | Distinct | Group | Join | Theta | Product | Union
    )
}

/// A table after its keyword.
fn scan(alloc: Global, reader: &mut Reader) -> Result<Box<Tree>, BookFault>
    requires { (head_of reader.old.rest).kind ≡ kinds.Scan }
    ensures { (depth : ℕ) → IsRead (ASource depth) (λ tree. tree_image tree.value) reader.old reader.new result }
{
    take_node(reader)?;
    let table = name(alloc, reader)?;
    Ok(Box::new(alloc, Tree::Scan(table))?)
}

/// A table, or a plan in parentheses.
#[cycle(plan)]
fn source(alloc: Global, reader: &mut Reader, depth: u32) -> Result<Box<Tree>, BookFault>
    ensures { IsRead (ASource depth) (λ tree. tree_image tree.value) reader.old reader.new result }
{
    match reader.kind() {
        TokenKind::Scan => scan(alloc, reader),
        TokenKind::Open => {
            within(reader, depth < DEPTH_LIMIT, Many::Depth)?;
            reader.advance();
            let inner = plan(alloc, reader, depth + 1)?;
            expect(reader, TokenKind::Close)?;
            Ok(inner)
        }
        _ => Err(wrong(reader)),
    }
}

/// What follows the keyword of a step.
#[tactic(auto, using(crate::proofs::Steps::in_step))]
#[cycle(plan)]
fn operands(
    alloc: Global,
    reader: &mut Reader,
    kind: TokenKind,
    depth: u32,
) -> Result<StepTree, BookFault>
    ensures { Answers (ran (step_rule depth kind) reader.old) step_image reader.new result }
{
    match kind {
        Where => Ok(StepTree::Select(Box::into_inner(pred(alloc, reader, depth)?))),
        Project => Ok(StepTree::Project(listed::<ItemTree>(alloc, reader)?)),
        Distinct => Ok(StepTree::Distinct(listed::<ItemTree>(alloc, reader)?)),
        Group => {
            let keys = keys(alloc, reader)?;
            Ok(StepTree::Group(keys, aggs(alloc, reader)?))
        }
        Join => {
            let right = source(alloc, reader, depth)?;
            expect(reader, TokenKind::On)?;
            Ok(StepTree::Join(right, listed::<PairTree>(alloc, reader)?))
        }
        Theta => {
            let right = source(alloc, reader, depth)?;
            on(reader)?;
            let pred = Box::into_inner(pred(alloc, reader, depth)?);
            Ok(StepTree::Theta(right, pred))
        }
        Product => Ok(StepTree::Product(source(alloc, reader, depth)?)),
        Union => match reader.kind() {
            TokenKind::All => {
                reader.advance();
                Ok(StepTree::UnionAll(source(alloc, reader, depth)?))
            }
            _ => Ok(StepTree::Union(source(alloc, reader, depth)?)),
        },
        _ => Err(wrong(reader)),
    }
}

/// A step.
#[cycle(plan)]
fn step(alloc: Global, reader: &mut Reader, depth: u32) -> Result<StepTree, BookFault>
    ensures { IsRead (AStep depth) (λ step. ((head_of reader.old.rest).at, step_image step)) reader.old reader.new result }
{
    let kind = reader.kind();
    if !is_step(kind) {
        return Err(wrong(reader));
    }
    take_node(reader)?;
    operands(alloc, reader, kind, depth)
}

/// A source with its steps.
#[tactic(auto, using(crate::proofs::Steps::in_loop))]
#[cycle(plan)]
pub fn plan(alloc: Global, reader: &mut Reader, depth: u32) -> Result<Box<Tree>, BookFault>
    ensures { IsRead (APlan depth) (λ tree. tree_image tree.value) reader.old reader.new result }
{
    let mut input = source(alloc, reader, depth)?;
    'steps: while let TokenKind::Bar = reader.kind() {
        reader.advance();
        let at = reader.at();
        let what = step(alloc, reader, depth)?;
        input = Box::new(alloc, Tree::Step { at, input, what })?;
    }
    Ok(input)
}

/// Whether a token of this kind begins a step with one input.
fn has_one_input(kind: TokenKind) -> bool
    ensures one { result ≡ is_some (one_input kind) }
    ensures more { result ≡ true → IsTrue (is_more kind) }
{
    matches!(kind, Where | Project | Distinct | Group)
}

/// A step of an `ask` line.
#[tactic(auto, using(crate::proofs::Steps::in_order, crate::proofs::Steps::asked_reads))]
pub fn ask_step(alloc: Global, reader: &mut Reader) -> Result<AskStep, BookFault>
    ensures { IsRead AnAskStep ask_step_image reader.old reader.new result }
{
    let at = reader.at();
    let kind = reader.kind();
    if !has_one_input(kind) {
        return Err(wrong(reader));
    }
    take_node(reader)?;
    let what = operands(alloc, reader, kind, 0)?;
    Ok(AskStep { at, what })
}
