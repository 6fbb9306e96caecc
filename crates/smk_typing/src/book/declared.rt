ghost use Rattle.std.specs.{Prelude.{◌≡◌, ◌+◌, ◌≤◌, [], length, Ok, IfOk, OnOk}, List.list_any};
ghost use Rattle.smk_base.specs.{declared.book.catalog.BackExtra.TheVariants.Grouped, declared.rel.TheConstants.COLUMN_LIMIT};
ghost use Rattle.smk_model.specs.Names.{in_turn, same_name, names_of, column_kinds};
ghost use Rattle.smk_model.specs.Typing as typing;
ghost use Rattle.smk_typing.specs.Answers.{Finds};

use crate::plan::columns::{column_named, is_same_sort, kind_of_value};
use crate::plan::lists::typed_group;
use crate::plan::typed::TypedGrouping;
use smk_base::{
    BackExtra, ColDecl, ColDecls, ColNames, Column, Decl, Extra, Kind, Kinds, TypeFault, Value,
    Word,
};
use std::alloc::Global;

/// The kind that a declaration gives its column.
fn declared_kind(text: bool) -> Kind
    ensures { result ≡ typing.declared_kind text }
{
    if text {
        Kind::Text
    } else {
        Kind::Int { level: 0 }
    }
}

/// The default of a declared column, unless it has another kind.
fn declared_default(alloc: Global, decl: &Decl, kind: Kind) -> Result<Option<Value>, TypeFault>
    requires { kind ≡ typing.declared_kind decl.now.text }
    ensures { Finds result (typing.declared_column decl.now decl.now.def) (λ def. record { name = decl.now.name.name; kind = kind; def = def }) }
{
    match &decl.def {
        None => Ok(None),
        Some(literal) => {
            if !is_same_sort(kind, kind_of_value(&literal.value)) {
                return Err(TypeFault::KindMismatch { at: literal.at });
            }
            Ok(Some(literal.value.copy(alloc)?))
        }
    }
}

/// A declared column, unless its default has another kind.
fn declared_column(alloc: Global, decl: &Decl) -> Result<ColDecl, TypeFault>
    ensures { Finds result (typing.declared_column decl.now decl.now.def) (λ col. col) }
{
    let kind = declared_kind(decl.text);
    let name = decl.name.name.copy(alloc)?;
    let def = declared_default(alloc, decl, kind)?;
    Ok(ColDecl { name, kind, def })
}

/// Whether a column is declared under this name. A declaration has at most 16 columns.
fn is_declared(cols: &[ColDecl], word: &Word) -> bool
    ensures { result ≡ list_any (λ col. same_name word.now.name col.name) cols.now }
{
    cols.iter().any(|col| word.name == col.name)
}

/// Appends a declared column.
fn add_decl(alloc: Global, cols: &mut ColDecls, decl: &Decl) -> Result<(), TypeFault>
    ensures after { Finds result (typing.decl_after cols.old decl.now) (λ _. cols.new) }
    ensures longer { OnOk result (length cols.new ≡ length cols.old + 1) }
{
    if is_declared(cols.as_slice(), &decl.name) {
        return Err(TypeFault::DuplicateName { at: decl.name.at });
    }
    let col = declared_column(alloc, decl)?;
    cols.push(col)?;
    Ok(())
}

/// The columns of a declaration.
pub fn declared(alloc: Global, decls: &[Decl]) -> Result<ColDecls, TypeFault>
    ensures columns { Finds result (in_turn typing.decl_after [] decls.now) (λ cols. cols) }
    ensures width { IfOk result (λ cols. length cols ≡ length decls.now) }
{
    let mut cols = ColDecls::new(alloc);
    for decl in decls {
        add_decl(alloc, &mut cols, decl)?;
    }
    Ok(cols)
}

/// Appends the names and the kinds of columns. On an error some of them are appended.
fn add_names_and_kinds(
    alloc: Global,
    columns: &[Column],
    names: &mut ColNames,
    kinds: &mut Kinds,
) -> Result<(), TypeFault>
    requires unnamed { names.old ≡ [] }
    requires unsorted { kinds.old ≡ [] }
    ensures named { Finds result (Ok (names_of columns.now)) (λ _. names.new) }
    ensures sorted { OnOk result (kinds.new ≡ column_kinds columns.now) }
{
    for column in columns {
        let name = column.name.copy(alloc)?;
        names.push(name)?;
        kinds.push(column.kind)?;
    }
    Ok(())
}

/// The names and the kinds of columns.
pub fn names_and_kinds(alloc: Global, columns: &[Column]) -> Result<(ColNames, Kinds), TypeFault>
    ensures { Finds result (Ok (names_of columns.now, column_kinds columns.now)) (λ made. made) }
{
    let mut names = ColNames::new(alloc);
    let mut kinds = Kinds::new(alloc);
    match add_names_and_kinds(alloc, columns, &mut names, &mut kinds) {
        Ok(()) => Ok((names, kinds)),
        Err(fault) => {
            drop(names);
            drop(kinds);
            Err(fault)
        }
    }
}

/// What a backward declaration with a grouping asks for.
fn grouped_extra(alloc: Global, group: TypedGrouping) -> Result<BackExtra, TypeFault>
    ensures { Finds result (Ok (Grouped group.keys group.aggs (names_of group.columns) (column_kinds group.columns))) (λ asked. asked) }
{
    match names_and_kinds(alloc, group.columns.as_slice()) {
        Ok((names, kinds)) => Ok(BackExtra::Grouped {
            keys: group.keys,
            aggs: group.aggs,
            names,
            kinds,
        }),
        Err(fault) => {
            drop(group);
            Err(fault)
        }
    }
}

/// What a backward declaration asks for over the columns of its table.
pub fn typed_extra(alloc: Global, columns: &[Column], extra: &Extra) -> Result<BackExtra, TypeFault>
    requires { length columns.now ≤ COLUMN_LIMIT }
    ensures { Finds result (typing.typed_extra columns.now extra.now) (λ asked. asked) }
{
    match extra {
        Extra::Plain => Ok(BackExtra::Plain),
        Extra::By(word) => {
            let (number, _) = column_named(columns, word)?;
            Ok(BackExtra::By(number))
        }
        Extra::Grouped { at, keys, aggs } => {
            let group = typed_group(alloc, columns, *at, keys.as_slice(), aggs.as_slice())?;
            grouped_extra(alloc, group)
        }
    }
}
