ghost use Rattle.std.specs.Prelude.{◌≡◌, ◌+◌, ◌<◌, ◌≤◌, [], length, IfOk, Ok};
ghost use Rattle.smk_base.specs.{CatalogImage.view_image, PlanImage.expr_of, TreeImage.{stmt_image, tree_image}, declared.book.limits.TheConstants.{TABLE_LIMIT, VIEW_LIMIT}, declared.rel.TheConstants.COLUMN_LIMIT};
ghost use Rattle.smk_model.specs.{Expanded.IsNoDependency, Limits.{KeepsStmt, KeepsTree, is_table, is_view}, Names.{in_turn, names_of, column_kinds}};
ghost use Rattle.smk_model.specs.Typing as typing;
ghost use Rattle.smk_typing.specs.{Answers.Finds, Drafts.draft_image, Rest.one_if};
ghost use Rattle.smk_typing.specs.Drafts as drafts;

use crate::book::declared::{declared, names_and_kinds, typed_extra};
use crate::book::links::Links;
use crate::draft::form::Form;
use crate::draft::indexed::Indexed;
use crate::draft::{Draft, columns_at, table_by_word, view_by_word};
use crate::plan::places::put;
use crate::plan::typed::Typed;
use crate::plan::{blank, put_plan};
use smk_base::{
    Back, BackExtra, Decl, Extra, Fwd, Stmt, TableInfo, Text, Tree, TypeFault, ViewInfo, Word,
};
use std::alloc::Global;
use std::mem;

/// The catalog after one more statement.
pub fn stmt_after(alloc: Global, draft: &mut Draft, stmt: &Stmt) -> Result<(), TypeFault>
    requires tables { length draft.old.tables + one_if (is_table (stmt_image stmt.now)) ≤ TABLE_LIMIT }
    requires views { length draft.old.views + one_if (is_view (stmt_image stmt.now)) ≤ VIEW_LIMIT }
    requires kept { KeepsStmt (stmt_image stmt.now) }
    requires replaced { IsNoDependency (stmt_image stmt.now) }
    ensures { Finds result (typing.stmt_after (draft_image draft.old) (stmt_image stmt.now)) (λ _. draft_image draft.new) }
{
    match stmt {
        Stmt::Table { name, file, cols } => table_after(alloc, draft, name, file, cols.as_slice()),
        Stmt::View { name, plan } => view_after(alloc, draft, name, plan),
        Stmt::Back {
            at,
            view,
            table,
            extra,
        } => back_after(alloc, draft, *at, view, table, extra),
        Stmt::Fwd { at, table, view } => fwd_after(draft, *at, table, view),
        Stmt::Link { view, table, to } => link_after(alloc, draft, view, table, to.as_slice()),
        Stmt::Depends { .. } => unreachable!(),
    }
}

/// A table under a name, from its file.
fn typed_table(
    alloc: Global,
    name: &Word,
    file: &Text,
    decls: &[Decl],
) -> Result<TableInfo, TypeFault>
    ensures columns { Finds result (in_turn typing.decl_after [] decls.now) (λ table. table.cols) }
    ensures width { IfOk result (λ table. length table.cols ≡ length decls.now) }
    ensures made { IfOk result (λ table. table ≡ record { name = name.now.name; file = file.now; cols = table.cols }) }
{
    let name = name.name.copy(alloc)?;
    let file = file.copy(alloc)?;
    let cols = declared(alloc, decls)?;
    Ok(TableInfo { name, file, cols })
}

/// The catalog after a `table` statement.
fn table_after(
    alloc: Global,
    draft: &mut Draft,
    name: &Word,
    file: &Text,
    decls: &[Decl],
) -> Result<(), TypeFault>
    requires room { length draft.old.tables < TABLE_LIMIT }
    requires few { length decls.now ≤ COLUMN_LIMIT }
    ensures { Finds result (typing.table_after (draft_image draft.old) name.now file.now decls.now) (λ _. draft_image draft.new) }
{
    if draft.tables.has(&name.name) {
        return Err(TypeFault::DuplicateName { at: name.at });
    }
    let key = name.name.copy(alloc)?;
    let table = typed_table(alloc, name, file, decls)?;
    draft.tables.push(key, table)?;
    Ok(())
}

/// A view under a name, over the tables so far.
fn typed_view(
    alloc: Global,
    tables: &Indexed<TableInfo>,
    word: &Word,
    tree: &Tree,
) -> Result<ViewInfo, TypeFault>
    requires { KeepsTree (tree_image tree.now) }
    ensures { Finds result (drafts.typed_view tables.now word.now (tree_image tree.now)) view_image }
{
    let name = word.name.copy(alloc)?;
    let mut typed = blank(alloc);
    match put_plan(alloc, tables, tree, &mut typed) {
        Ok(()) => named_view(alloc, name, typed),
        Err(fault) => {
            drop(name);
            drop(typed);
            Err(fault)
        }
    }
}

/// A typed plan as a view under a name.
fn named_view(alloc: Global, name: Text, typed: Typed) -> Result<ViewInfo, TypeFault>
    ensures { Finds result (Ok (record { name = name; plan = expr_of typed.plan; names = names_of typed.columns; kinds = column_kinds typed.columns })) view_image }
{
    match names_and_kinds(alloc, typed.columns.as_slice()) {
        Ok((names, kinds)) => Ok(ViewInfo {
            name,
            plan: typed.plan,
            names,
            kinds,
        }),
        Err(fault) => {
            drop(name);
            drop(typed);
            Err(fault)
        }
    }
}

/// The catalog after a `view` statement.
fn view_after(alloc: Global, draft: &mut Draft, name: &Word, tree: &Tree) -> Result<(), TypeFault>
    requires room { length draft.old.views < VIEW_LIMIT }
    requires kept { KeepsTree (tree_image tree.now) }
    ensures { Finds result (typing.view_after (draft_image draft.old) name.now (tree_image tree.now)) (λ _. draft_image draft.new) }
{
    if draft.views.has(&name.name) {
        return Err(TypeFault::DuplicateName { at: name.at });
    }
    let key = name.name.copy(alloc)?;
    let view = typed_view(alloc, &draft.tables, name, tree)?;
    draft.views.push(key, view)?;
    Ok(())
}

/// The catalog after a `lineage back` statement.
fn back_after(
    alloc: Global,
    draft: &mut Draft,
    at: u64,
    view: &Word,
    table: &Word,
    extra: &Extra,
) -> Result<(), TypeFault>
    ensures { Finds result (typing.back_after (draft_image draft.old) at view.now table.now extra.now) (λ _. draft_image draft.new) }
{
    let view = view_by_word(&draft.views, view)?;
    let table = table_by_word(&draft.tables, table)?;
    let extra = extra_at(alloc, &draft.tables, table, extra)?;
    new_back(draft, at, Back { view, table, extra })
}

/// What a backward declaration asks for over the columns of the table with this number.
fn extra_at(
    alloc: Global,
    tables: &Indexed<TableInfo>,
    table: u32,
    extra: &Extra,
) -> Result<BackExtra, TypeFault>
    requires { table < length tables.now }
    ensures { Finds result (typing.typed_extra (typing.columns_of (typing.info_at tables.now table)) extra.now) (λ asked. asked) }
{
    let columns = columns_at(alloc, tables, table)?;
    typed_extra(alloc, columns.as_slice(), extra)
}

/// The catalog with one more backward declaration.
fn new_back(draft: &mut Draft, at: u64, back: Back) -> Result<(), TypeFault>
    ensures { Finds result (typing.new_back (draft_image draft.old) at back) (λ _. draft_image draft.new) }
{
    let form = Form::of(&back.extra);
    let key = (back.view, back.table, form);
    if draft.backs.has(&key) {
        drop(back);
        return Err(TypeFault::RepeatedDeclaration { at });
    }
    draft.backs.push(key, back)?;
    Ok(())
}

/// The catalog after a `lineage fwd` statement.
fn fwd_after(draft: &mut Draft, at: u64, table: &Word, view: &Word) -> Result<(), TypeFault>
    ensures { Finds result (typing.fwd_after (draft_image draft.old) at table.now view.now) (λ _. draft_image draft.new) }
{
    let table = table_by_word(&draft.tables, table)?;
    let view = view_by_word(&draft.views, view)?;
    new_fwd(draft, at, Fwd { table, view })
}

/// The catalog with one more forward declaration.
fn new_fwd(draft: &mut Draft, at: u64, fwd: Fwd) -> Result<(), TypeFault>
    ensures { Finds result (typing.new_fwd (draft_image draft.old) at fwd) (λ _. draft_image draft.new) }
{
    let key = (fwd.table, fwd.view);
    if draft.fwds.has(&key) {
        return Err(TypeFault::RepeatedDeclaration { at });
    }
    draft.fwds.push(key, fwd)?;
    Ok(())
}

/// The catalog after a link of a view on a table to other views.
fn link_after(
    alloc: Global,
    draft: &mut Draft,
    view: &Word,
    table: &Word,
    words: &[Word],
) -> Result<(), TypeFault>
    ensures { Finds result (typing.link_after (draft_image draft.old) view.now table.now words.now) (λ _. draft_image draft.new) }
{
    let view = view_by_word(&draft.views, view)?;
    let table = table_by_word(&draft.tables, table)?;
    let links = mem::replace(&mut draft.links, Links::new(alloc));
    match links.with(alloc, &draft.views, view, table, words) {
        Ok(links) => {
            put(&mut draft.links, links);
            Ok(())
        }
        Err(fault) => Err(fault),
    }
}
