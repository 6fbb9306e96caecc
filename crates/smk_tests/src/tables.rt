ghost use Rattle.std.specs.Prelude.{◌≡◌, ◌<◌, length, IfOk};

use crate::opened::{open_book, rows_shown};
use crate::shop::shop;
use smk_base::{Agg, Aggs, CellRef, Keys, Kind, Row, Text, Value};
use smk_outside::Steps;
use smk_push::Cubes;
use smk_rid::RidMap;
use smk_skip::Split;
use smk_table::{Table, read_table_in_pieces};
use smk_test_bodies::Meeting;
use std::alloc::{AllocError, Global};
use std::marker::Brand;
use std::sync::ledger::{Blank, Ledger};
use std::test::Fail;

// Whether the table of the regions gives the first cell of its second row, a copy of this row, and the codes of its second column.
fn gives<L: Ledger>(
    system: HostRuntime,
    alloc: Global,
    table: &Table,
    blank: Blank,
) -> Result<bool, AllocError>
    requires name { L.name ≡ blank.name }
    requires parts { L.parts ≡ blank.parts }
    requires some { 0 < blank.parts }
    requires rows { length table.now.rows ≡ 3 }
    requires columns { length table.now.kinds ≡ 2 }
{
    let mut steps: Steps<L> = Steps::new(system, blank);
    let cell = table.cell(1, 0, &mut steps);
    let of_cell = matches!(cell, CellRef::Text(name) if name == b"south".as_slice());
    let mut row = Row::new(alloc);
    table.fetch(alloc, 1, &mut row, &mut steps)?;
    let of_row = match row.copy(alloc)?.as_slice() {
        [Value::Text(name), Value::Text(zone)] => {
            name.as_slice() == b"south".as_slice() && zone.as_slice() == b"B".as_slice()
        }
        _ => false,
    };
    let rel = table.whole(alloc, &mut steps)?;
    let Kind::Text = rel.kind(1) else {
        return Ok(false);
    };
    let dict = rel.dict(1);
    let of_dict = dict.len() == 2
        && dict.text(0) == b"A".as_slice()
        && dict.text(1) == b"B".as_slice();
    let codes = [rel.code(0, 1), rel.code(1, 1), rel.code(2, 1)];
    Ok(of_cell && of_row && of_dict && codes == [0, 1, 0])
}

// The lists of two marks to the rows of the table of the regions.
fn two_marks(alloc: Global) -> Result<RidMap, Fail>
    ensures bound { IfOk result (λ lists. lists.bound ≡ 3) }
    ensures marks { IfOk result (λ lists. length lists.lists ≡ 2) }
{
    let of = [Some(0), Some(1), Some(0)];
    Ok(RidMap::from_array(alloc, of.as_slice(), 2)?.invert(alloc)?)
}

// Whether a split that is built over the table of the regions gives the rids of a mark and a zone.
fn a_split_gives<L: Ledger>(
    alloc: Global,
    lists: &RidMap,
    table: &Table,
    steps: &mut Steps<L>,
) -> Result<bool, Fail>
    requires bound { lists.now.bound ≡ length table.now.rows }
    requires marks { 0 < length lists.now.lists }
    requires columns { length table.now.kinds ≡ 2 }
{
    let split = Split::build(alloc, lists, table, 1, steps)?;
    let zone = Value::Text(Text::from_vec(Vec::from_slice(alloc, b"A")?));
    let rids = split.rows(alloc, [0].as_slice(), &zone)?;
    Ok(rids.as_slice() == [0u32, 2].as_slice())
}

// Whether groupings that are built over it give the groups of a mark.
fn cubes_give<L: Ledger>(
    alloc: Global,
    lists: &RidMap,
    table: &Table,
    steps: &mut Steps<L>,
) -> Result<bool, Fail>
    requires bound { lists.now.bound ≡ length table.now.rows }
    requires marks { 0 < length lists.now.lists }
    requires columns { length table.now.kinds ≡ 2 }
{
    let keys = Keys::from_vec(Vec::from_slice(alloc, &[1])?);
    let aggs = Aggs::from_vec(Vec::from_slice(alloc, &[Agg::Count])?);
    let cubes = Cubes::build(alloc, lists, table, &keys, &aggs, steps)?;
    let groups = rows_shown(alloc, cubes.groups(0))?;
    Ok(groups.as_str() == "A 2 \n")
}

// Whether both are so.
fn builds<L: Ledger>(
    system: HostRuntime,
    alloc: Global,
    table: &Table,
    blank: Blank,
) -> Result<bool, Fail>
    requires name { L.name ≡ blank.name }
    requires parts { L.parts ≡ blank.parts }
    requires some { 0 < blank.parts }
    requires rows { length table.now.rows ≡ 3 }
    requires columns { length table.now.kinds ≡ 2 }
{
    let mut steps: Steps<L> = Steps::new(system, blank);
    let lists = two_marks(alloc)?;
    let gives = a_split_gives(alloc, &lists, table, &mut steps)?;
    Ok(gives && cubes_give(alloc, &lists, table, &mut steps)?)
}

// Whether the table of the regions gives its cells, and what is built over it its rows.
fn regions_give(system: HostRuntime, table: &Table) -> Result<bool, Fail> {
    if table.len() != 3 || table.width() != 2 {
        return Ok(false);
    }
    let alloc = system.alloc();
    Ok(
        gives::<Brand>(system, alloc, table, Blank::new(1))?
            && builds::<Brand>(system, alloc, table, Blank::new(1))?,
    )
}

// A run looks at chosen rows at once, copies none by itself and tells no code, and makes splits and groupings over rows that it has.
#[test]
fn a_table_gives_cells_rows_and_codes(rt: HostRuntime) -> Result<(), Fail> {
    let shop = shop(rt.alloc())?;
    let Some(table) = shop.tables.as_slice().get(1) else {
        return Err(Fail::new("no table"));
    };
    assert!(rt; regions_give(rt, table)?);
    Ok(())
}

// A text of two pieces, with a quote in the second, passes the gate twice, and one of one piece doesn't.
#[test]
fn two_pieces_of_a_table_meet(rt: HostRuntime) -> Result<(), Fail> {
    let book = "table t from \"t.csv\" (id int, name text)\n";
    let opened = open_book(rt.alloc(), book, [b"id,name\n".as_slice()].as_slice())?;
    let [info] = opened.book.catalog().tables.as_slice() else {
        return Err(Fail::new("not one table"));
    };
    let text = b"id,name\n1,a\n2,b\n3,\"c\n\"\n4,d\n".as_slice();
    for (least, came) in [(1u32, [1u64, 1, 0]), (11, [1, 1, 0]), (12, [0, 0, 0])].as_slice() {
        let gate = Meeting::new();
        let read = read_table_in_pieces(&rt, rt.alloc(), 0, text, &info.cols, 2, *least, &gate);
        assert!(rt; read.is_ok());
        assert_eq!(rt; gate.came(), *came);
    }
    Ok(())
}
