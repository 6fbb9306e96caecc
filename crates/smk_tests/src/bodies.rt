//! The bodies, whole and in pieces, called by name.

use crate::contents::{Content, have_contents};
use crate::opened::{Opened, ran};
use crate::shop::{CONTENTS, shop};
use smk_base::{CellRef, Dir, Item, Items, Kind, Need, Op1, Rel, Row, Value};
use smk_body::OpBody;
use smk_compose::RunFault;
use smk_defer::Defer;
use smk_inject::Inject;
use smk_marks::{is_growing, scanned_table};
use smk_outside::Idle;
use smk_par::Pieces;
use smk_plain::Plain;
use smk_test_bodies::{Calls, Counted, Meeting, NoSteps};
use std::alloc::{AllocError, Global};
use std::test::Fail;
use std::thread::Threads;

// A run asks the plain body for rows alone, and never for lineage.
#[test]
fn the_plain_body_has_no_lineage(rt: HostRuntime) -> Result<(), Fail> {
    let alloc = rt.alloc();
    let mut rel = Rel::new(alloc, &[Kind::Int { level: 0 }])?;
    let mut row = Row::new(alloc);
    row.push(Value::Int(-1))?;
    rel.push_row(row)?;
    let tens = Vec::from_slice(alloc, &[Item::Bin { col: 0, width: 10 }])?;
    let none = Dir {
        back: false,
        fwd: false,
    };
    let (made, pending) = Plain.apply1(
        &rt,
        alloc,
        &Op1::Project(Items::from_vec(tens)),
        rel,
        none,
    )?;
    let local = Plain.finish(&rt, alloc, pending)?;
    assert_eq!(rt; (made.len(), made.width()), (1, 1));
    assert!(rt; matches!(made.cell(0, 0), CellRef::Int(-1)));
    assert!(rt; local.left.back.is_none() && local.left.fwd.is_none() && local.right.is_none());
    assert!(rt; !Plain.captures());
    Ok(())
}

// By each body, whole and in pieces, the views have their contents.
fn each_body_has_contents<R: Threads + Sync + AllocGlobal>(
    rt: &R,
    system: HostRuntime,
    shop: &Opened,
) -> Result<(), Fail> {
    have_contents(rt, system, &Plain, shop, CONTENTS.as_slice())?;
    have_contents(rt, system, &Inject, shop, CONTENTS.as_slice())?;
    have_contents(rt, system, &Defer, shop, CONTENTS.as_slice())?;
    for workers in [1, 2, 64].as_slice() {
        let body = Pieces::new(Inject, &Idle, *workers);
        have_contents(rt, system, &body, shop, CONTENTS.as_slice())?;
    }
    let body = Pieces::new(Defer, &Idle, 3);
    have_contents(rt, system, &body, shop, CONTENTS.as_slice())
}

// How often a body is asked for a view of two steps.
fn calls_of_two_steps<R: Threads + Sync + AllocGlobal>(
    rt: &R,
    system: HostRuntime,
    shop: &Opened,
) -> Result<Calls, Fail> {
    let body = Counted::new(Inject);
    have_contents(rt, system, &body, shop, &CONTENTS[1..2])?;
    Ok(body.calls())
}

// The table whose growth each view follows, and 9 where it follows none.
fn growing(alloc: Global, shop: &Opened) -> Result<Vec<u32>, AllocError> {
    let mut growing = Vec::new(alloc);
    for view in shop.book.catalog().views.as_slice() {
        growing.push(if is_growing(&view.plan) {
            scanned_table(&view.plan)
        } else {
            9
        })?;
    }
    Ok(growing)
}

// A view of each step has its rows and lists by each body, and one of two steps asks a body once for each. A run doesn't tell which views grow.
#[test]
fn plans_have_their_contents_by_each_body(rt: HostRuntime) -> Result<(), Fail> {
    let shop = shop(rt.alloc())?;
    each_body_has_contents(&rt, rt, &shop)?;
    let calls = Calls {
        one: 1,
        two: 1,
        finish: 2,
    };
    assert_eq!(rt; calls_of_two_steps(&rt, rt, &shop)?, calls);
    let told = [0u32, 9, 0, 9, 9, 9, 9, 9, 9, 9, 9];
    assert_eq!(rt; growing(rt.alloc(), &shop)?.as_slice(), told.as_slice());
    Ok(())
}

// Who comes to the gate of two pieces of each step of these views.
fn came_to_pieces<R: Threads + Sync + AllocGlobal>(
    rt: &R,
    system: HostRuntime,
    shop: &Opened,
    cut: &[Content],
) -> Result<[u64; 3], Fail> {
    let gate = Meeting::new();
    let body = Pieces::new(Inject, &gate, 2);
    have_contents(rt, system, &body, shop, cut)?;
    Ok(gate.came())
}

// How often a body is called whose selection and join run out of memory once their rows are made, in two pieces that pass a gate.
fn calls_without_steps<R: Threads + Sync + AllocGlobal>(
    rt: &R,
    system: HostRuntime,
    shop: &Opened,
) -> Result<Calls, Fail> {
    let gate = Meeting::new();
    let body = Counted::new(Pieces::new(NoSteps, &gate, 2));
    for (view, came) in [(2u32, [1u64, 1, 0]), (6, [2, 2, 0])].as_slice() {
        if shop.book.catalog().views.as_slice().len() <= *view as usize {
            return Err(Fail::new("no view"));
        }
        let made = ran(rt, system, &body, shop, *view, &Need::new(rt.alloc()));
        if !matches!(made, Err(RunFault::NoMemory)) || gate.came() != *came {
            return Err(Fail::new("a step that has memory, or that isn't cut"));
        }
    }
    Ok(body.calls())
}

// A piece comes once for each step, also where the step has two passes. The body that counts has the pieces of the inner one, and each of its two steps is a
// call.
#[test]
fn two_pieces_of_each_cut_step_meet(rt: HostRuntime) -> Result<(), Fail> {
    let shop = shop(rt.alloc())?;
    for cut in [&CONTENTS[0..1], &CONTENTS[2..3], &CONTENTS[6..7]].as_slice() {
        assert_eq!(rt; came_to_pieces(&rt, rt, &shop, cut)?, [1, 1, 0]);
    }
    let calls = Calls {
        one: 1,
        two: 1,
        finish: 0,
    };
    assert_eq!(rt; calls_without_steps(&rt, rt, &shop)?, calls);
    Ok(())
}
