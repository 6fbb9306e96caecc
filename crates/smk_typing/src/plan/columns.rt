ghost use Rattle.std.specs.{Prelude.{◌≡◌, ◌≤◌, length, position}, List.list_any};
ghost use Rattle.smk_base.specs.declared.rel.TheConstants.{COLUMN_LIMIT};
ghost use Rattle.smk_model.specs.Kinds as kinds;
ghost use Rattle.smk_model.specs.Names as names;
ghost use Rattle.smk_model.specs.TypedSteps as steps;
ghost use Rattle.smk_typing.specs.Answers.{Finds};

use smk_base::{Column, Kind, Operand, Term, Text, TypeFault, Value, Word};
use std::alloc::Global;

/// The place of the column with this name. A row has at most 16 columns, so they are searched in order.
fn place_of(columns: &[Column], word: &Word) -> Option<usize>
    ensures { result ≡ position (names.has_name word.now.name) columns.now }
{
    columns.iter().position(|column| word.name == column.name)
}

/// The number and the kind of the column that a word names.
#[tactic(auto, using(crate::proofs::Lookups::column_found, crate::proofs::Lookups::column_missing))]
pub fn column_named(columns: &[Column], word: &Word) -> Result<(u32, Kind), TypeFault>
    requires { length columns.now ≤ COLUMN_LIMIT }
    ensures { Finds result (names.column_named columns.now word.now) (λ found. found) }
{
    match place_of(columns, word) {
        Some(place) => Ok((place as u32, columns[place].kind)),
        None => Err(TypeFault::UnknownColumn { at: word.at }),
    }
}

/// Whether a column has this name.
pub fn has_column(columns: &[Column], name: &Text) -> bool
    ensures { result ≡ list_any (names.has_name name.now) columns.now }
{
    columns.iter().any(|column| *name == column.name)
}

/// Whether two kinds are both ints, of any levels, or both texts.
pub fn is_same_sort(left: Kind, right: Kind) -> bool
    ensures { result ≡ names.same_sort left right }
{
    match (left, right) {
        (Kind::Int { .. }, Kind::Int { .. }) => true,
        (Kind::Text, Kind::Text) => true,
        _ => false,
    }
}

/// The kind of a literal.
pub fn kind_of_value(value: &Value) -> Kind
    ensures { result ≡ kinds.kind_of value.now }
{
    match value {
        Value::Int(_) => Kind::Int { level: 0 },
        Value::Text(_) => Kind::Text,
    }
}

/// The right side of a comparison with its kind.
pub fn typed_term(
    alloc: Global,
    columns: &[Column],
    term: &Term,
) -> Result<(Operand, Kind), TypeFault>
    requires { length columns.now ≤ COLUMN_LIMIT }
    ensures { Finds result (steps.typed_term columns.now term.now) (λ found. found) }
{
    match term {
        Term::Col(word) => {
            let (number, kind) = column_named(columns, word)?;
            Ok((Operand::Col(number), kind))
        }
        Term::Lit(literal) => {
            let value = literal.value.copy(alloc)?;
            let kind = kind_of_value(&literal.value);
            Ok((Operand::Lit(value), kind))
        }
    }
}

/// The place of the right side of a comparison.
pub fn term_place(term: &Term) -> u64
    ensures { result ≡ steps.term_place term.now }
{
    match term {
        Term::Col(word) => word.at,
        Term::Lit(literal) => literal.at,
    }
}
