// The answers to backward queries: rows, those of them with a value, and the groups of them.
ghost use Rattle.std.specs.{Prelude.{◌≡◌, ◌<◌, ◌≤◌, ◌+◌, Ok, nat_eq, length, IfOk, IfSome, MatchResult}, List.list_all};
ghost use Rattle.smk_base.specs.{CatalogImage.catalog_image, Places.IsPlaces};
ghost use Rattle.smk_base.specs.declared.book.tree.Then.TheVariants as thens;
ghost use Rattle.smk_model.specs.Replies as replies;
ghost use Rattle.smk_model.specs.{ReplyTexts.AsksRows, Typing.info_at};
ghost use Rattle.smk_model.specs.Workload as workload;
ghost use Rattle.smk_session.specs.{Answers.{Gives, Turns, BacksFit, IsLent, book_of, looks_of_asked}, Extras.{split_place, cubes_place}, BackAnswers.{IsPairNamed, SplitsFit, CubesFit, split_asked, cubes_asked, one_asked, sort_asked, with_value_asked, rids_by, rows_by, grouped_by}, Told.HasNoLists};

use crate::answer::lineage::back_map;
use crate::answer::marks::{check_marks, marked_members};
use crate::answer::names::known_pair;
use crate::answer::no_answer::Turned;
use crate::lent::Lent;
use smk_base::{
    Back, BackExtra, Catalog, ColDecl, Kind, Marks, Refusal, Reply, Rids, Text, Then, Value,
    numbers_below,
};
use smk_compose::{Run, fetch_rids};
use smk_outside::Steps;
use smk_push::Cubes;
use smk_skip::Split;
use smk_table::Table;
use std::alloc::Global;
use std::sync::ledger::Ledger;

// A view and a table by their numbers, and what a session holds of them.
#[derive(Drop)]
pub(crate) struct Pair<'a> {
    pub(crate) view: usize,
    pub(crate) table: usize,
    pub(crate) catalog: &'a Catalog,
    pub(crate) run: &'a Run,
    pub(crate) rows: &'a Table,
    pub(crate) splits: &'a [Split],
    pub(crate) cubes: &'a [Cubes],
}

// What is held of the view and the table of these names.
pub(crate) fn pair_of<'a>(held: &'a Lent<'_>, view: &Text, table: &Text) -> Result<Pair<'a>, Turned>
    requires { IsLent held.now }
    ensures { MatchResult result (IsPairNamed held.now view.now table.now) (λ turned. Turns turned (replies.known_pair (book_of held.now) view.now table.now)) }
{
    let (v, t) = known_pair(held.catalog, view, table)?;
    Ok(Pair {
        view: v,
        table: t,
        catalog: held.catalog,
        run: &held.views[v],
        rows: &held.tables[t],
        splits: held.splits,
        cubes: held.cubes,
    })
}

// The columns of a table.
fn columns(catalog: &Catalog, t: usize) -> &[ColDecl]
    requires { t < length catalog.now.tables }
    ensures { result.now ≡ (info_at catalog.now.tables t).cols }
{
    catalog.tables.as_slice()[t].cols.as_slice()
}

// The column of this name.
fn column_place(catalog: &Catalog, t: usize, name: &Text) -> Option<usize>
    requires { t < length catalog.now.tables }
    ensures place { result ≡ replies.column_place (catalog_image catalog.now) t name.now }
    ensures within { IfSome result (λ c. c < length (info_at catalog.now.tables t).cols) }
{
    columns(catalog, t)
        .iter()
        .position(|column| column.name == *name)
}

// Whether a value is an int or a text as the kind is.
fn is_of_sort(kind: Kind, value: &Value) -> bool
    ensures { result ≡ replies.is_of_sort kind value.now }
{
    match (kind, value) {
        (Kind::Int { .. }, Value::Int(_)) => true,
        (Kind::Text, Value::Text(_)) => true,
        _ => false,
    }
}

// Whether a value is of the kind of a table's column.
fn is_of_column(catalog: &Catalog, t: usize, c: usize, value: &Value) -> bool
    requires table { t < length catalog.now.tables }
    requires column { c < length (info_at catalog.now.tables t).cols }
    ensures { result ≡ replies.is_of_column (catalog_image catalog.now) t c value.now }
{
    is_of_sort(columns(catalog, t)[c].kind, value)
}

// Whether a declaration is of a view's backward query to a table.
fn is_back(declared: &Back, v: usize, t: usize) -> bool
    ensures { result ≡ workload.is_back v t declared.now }
{
    declared.view as usize == v && declared.table as usize == t
}

// How many splits come before that of a view's backward query by a column, or how many there are.
fn split_place(declarations: &[Back], v: usize, t: usize, c: usize) -> usize
    ensures { result ≡ split_place v t c declarations.now }
{
    let mut place = 0usize;
    for declared in declarations {
        if let BackExtra::By(col) = &declared.extra {
            if is_back(declared, v, t) && *col as usize == c {
                return place;
            }
            place += 1;
        }
    }
    place
}

// How many groupings come before the first of a view's backward query, or how many there are.
fn cubes_place(declarations: &[Back], v: usize, t: usize) -> usize
    ensures { result ≡ cubes_place v t declarations.now }
{
    let mut place = 0usize;
    for declared in declarations {
        if let BackExtra::Grouped { .. } = &declared.extra {
            if is_back(declared, v, t) {
                return place;
            }
            place += 1;
        }
    }
    place
}

// The column of this name, and the split by it. It is kept exactly if it is declared.
fn split_named<'a>(pair: &'a Pair<'_>, name: &Text) -> Result<(usize, &'a Split), Turned>
    requires { pair.now.table < length pair.now.catalog.now.tables }
    ensures gives { MatchResult result (λ found. split_asked pair.now name.now ≡ Ok (found.0, found.1.now)) (λ turned. Turns turned (split_asked pair.now name.now)) }
    ensures column { IfOk result (λ found. found.0 < length (info_at pair.now.catalog.now.tables pair.now.table).cols) }
{
    match column_place(pair.catalog, pair.table, name) {
        Some(c) => {
            let declarations = pair.catalog.backs.as_slice();
            match pair
                .splits
                .get(split_place(declarations, pair.view, pair.table, c))
            {
                Some(split) => Ok((c, split)),
                None => Err(Turned::Refused(Refusal::NoSplit)),
            }
        }
        None => Err(Turned::Refused(Refusal::NoSplit)),
    }
}

// The declared groups. They are kept exactly if a grouping is declared.
fn cubes_declared<'a>(pair: &'a Pair<'_>) -> Result<&'a Cubes, Turned>
    ensures { MatchResult result (λ cubes. cubes_asked pair.now ≡ Ok cubes.now) (λ turned. Turns turned (cubes_asked pair.now)) }
{
    let declarations = pair.catalog.backs.as_slice();
    match pair
        .cubes
        .get(cubes_place(declarations, pair.view, pair.table))
    {
        Some(cubes) => Ok(cubes),
        None => Err(Turned::Refused(Refusal::NoGroup)),
    }
}

// Refuses a value that is an int where the column holds texts, or the other way round.
fn check_sort(catalog: &Catalog, t: usize, c: usize, value: &Value) -> Result<(), Turned>
    requires table { t < length catalog.now.tables }
    requires column { c < length (info_at catalog.now.tables t).cols }
    ensures { Gives result (sort_asked (catalog_image catalog.now) t c value.now) }
{
    if is_of_column(catalog, t, c, value) {
        Ok(())
    } else {
        Err(Turned::Refused(Refusal::ValueKind))
    }
}

// The members with a value of the lists at the marked places, ascending and without repeats.
fn marked_with(
    alloc: Global,
    split: &Split,
    count: u32,
    marks: &Marks,
    value: &Value,
) -> Result<Rids, Turned>
    requires { count ≡ length split.now.map.lists }
    ensures gives { Gives result (with_value_asked split.now marks.now value.now) }
    ensures set { IfOk result (λ rids. IsPlaces split.now.map.bound rids) }
{
    check_marks(marks, count)?;
    match marks {
        Marks::All => {
            let places = numbers_below(alloc, count)?;
            Ok(split.rows(alloc, places.as_slice(), value)?)
        }
        Marks::Listed(listed) => Ok(split.rows(alloc, listed.as_slice(), value)?),
    }
}

// The rids of a table that the marked rows of a view came from and whose row has a value in the column of this name.
fn matching_rids(
    alloc: Global,
    pair: &Pair<'_>,
    marks: &Marks,
    name: &Text,
    value: &Value,
) -> Result<Rids, Turned>
    requires table { pair.now.table < length pair.now.catalog.now.tables }
    requires backs { BacksFit pair.now.run.now.kept pair.now.table (length pair.now.rows.now.rows) }
    requires splits { SplitsFit pair.now }
    ensures gives { Gives result (rids_by pair.now marks.now (thens.Matching name.now value.now)) }
    ensures set { IfOk result (IsPlaces (length pair.now.rows.now.rows)) }
{
    let map = back_map(pair.run, pair.table)?;
    let (column, split) = split_named(pair, name)?;
    check_sort(pair.catalog, pair.table, column, value)?;
    marked_with(alloc, split, map.len(), marks, value)
}

// The rids of a table that the marked rows of a view came from, by the kept lineage, or those of them whose row has a value. No row is looked at.
pub(crate) fn rids_of(
    alloc: Global,
    pair: &Pair<'_>,
    marks: &Marks,
    then: &Then,
) -> Result<Rids, Turned>
    requires rows { AsksRows then.now }
    requires table { pair.now.table < length pair.now.catalog.now.tables }
    requires backs { BacksFit pair.now.run.now.kept pair.now.table (length pair.now.rows.now.rows) }
    requires splits { SplitsFit pair.now }
    ensures gives { Gives result (rids_by pair.now marks.now then.now) }
    ensures set { IfOk result (IsPlaces (length pair.now.rows.now.rows)) }
{
    match then {
        Then::Plain => marked_members(alloc, back_map(pair.run, pair.table)?, marks),
        Then::Matching { col, value } => matching_rids(alloc, pair, marks, col, value),
        Then::Grouped => unreachable!(),
    }
}

// These rows, with their rids. No others are looked at.
pub(crate) fn rows_of<L: Ledger>(
    alloc: Global,
    pair: &Pair<'_>,
    marks: &Marks,
    then: &Then,
    steps: &mut Steps<L>,
) -> Result<Reply, Turned>
    requires rows { AsksRows then.now }
    requires table { pair.now.table < length pair.now.catalog.now.tables }
    requires backs { BacksFit pair.now.run.now.kept pair.now.table (length pair.now.rows.now.rows) }
    requires splits { SplitsFit pair.now }
    ensures gives { Gives result (rows_by pair.now marks.now then.now) }
    ensures lists { IfOk result HasNoLists }
    ensures looks { steps.new ≤ steps.old + looks_of_asked (rows_by pair.now marks.now then.now) }
{
    let rids = rids_of(alloc, pair, marks, then)?;
    let rows = fetch_rids(alloc, pair.rows, rids.as_slice(), steps)?;
    Ok(Reply::Back { rids, rows })
}

// Whether a mark is each of these.
fn is_each(mark: u32, marks: &[u32]) -> bool
    ensures { result ≡ list_all (nat_eq mark) marks.now }
{
    marks.iter().all(|other| mark == *other)
}

// The one mark of a line, however often it is written.
fn one_mark(marks: &Marks) -> Result<u32, Turned>
    ensures { Gives result (one_asked marks.now) }
{
    if let Marks::Listed(listed) = marks {
        if let [mark, more @ ..] = listed.as_slice() {
            if is_each(*mark, more) {
                return Ok(*mark);
            }
        }
    }
    Err(Turned::Refused(Refusal::ManyMarks))
}

// The groups of the rows of a table that the one marked row of a view came from. They are read off.
pub(crate) fn groups(alloc: Global, pair: &Pair<'_>, marks: &Marks) -> Result<Reply, Turned>
    requires { CubesFit pair.now }
    ensures gives { Gives result (grouped_by pair.now marks.now) }
    ensures lists { IfOk result HasNoLists }
{
    let map = back_map(pair.run, pair.table)?;
    let kept = cubes_declared(pair)?;
    let mark = one_mark(marks)?;
    check_marks(marks, map.len())?;
    let rel = kept.groups(mark).copy(alloc)?;
    Ok(Reply::Grouped { rel })
}
