//! The maps of old rows and those of new ones, put together table by table.

ghost use Rattle.std.specs.Prelude.{◌≡◌, ◌≤◌, ◌<◌, false, length, IfOk, Some};
ghost use Rattle.smk_base.specs.Places.{composed, empty_lists, pairs_of};
ghost use Rattle.smk_body.specs.Locals.{wanted};
ghost use Rattle.smk_model.specs.Selection.{each_rows};
ghost use Rattle.smk_compose.specs.Through.{chained, Chains, is_heavy};
ghost use Rattle.smk_rid.specs.declared.map.TheConstants.{PAIR_LIMIT};
ghost use Rattle.smk_chain.specs.Parts.{both_maps, by_classes, followed_maps, joint_map_at, joint_maps, void_map, AreMaps, AreRegrouped, Follows, IsRegrouped, MapsFit};

use smk_base::Needed;
use smk_body::Way;
use smk_compose::{KeptMap, Kepts, narrow};
use smk_keys::Classes;
use smk_rid::{RidFault, RidMap};
use smk_table::Table;
use std::alloc::{AllocError, Global};

/// The tables, what lineage to them is needed, and which of them a chain scans.
#[derive(Clone, Copy)]
pub(crate) struct ChainTables<'a> {
    pub tables: &'a [Table],
    pub need: &'a [Needed],
    pub scanned: u32,
}

/// The maps of the old rows and those of the new ones, and where these are groups the classes of their keys.
#[derive(Clone, Copy)]
pub(crate) struct OldAndNew<'a> {
    pub groups: &'a Option<Classes>,
    pub old: &'a [KeptMap],
    pub new: &'a [KeptMap],
}

/// The maps of the needed tables: of the one that is scanned, those of both put together; of the others, empty lists for so many rows.
pub(crate) fn maps_of_both(
    alloc: Global,
    rows: u32,
    traced: &ChainTables<'_>,
    both: &OldAndNew<'_>,
) -> Result<Kepts, AllocError>
    requires { AreMaps both.now.groups.now traced.now.scanned (length traced.now.tables.now) traced.now.need.now both.now.old.now both.now.new.now }
    ensures { IfOk result (λ made. made ≡ joint_maps both.now.groups.now traced.now.scanned rows (each_rows traced.now.tables.now) traced.now.need.now both.now.old.now both.now.new.now) }
{
    let mut made = Kepts::new(alloc);
    for i in 0..traced.need.len() {
        let map = map_of_both(alloc, i, rows, traced, both)?;
        made.push(map)?;
    }
    Ok(made)
}

// The map of the i-th needed table.
fn map_of_both(
    alloc: Global,
    i: usize,
    rows: u32,
    traced: &ChainTables<'_>,
    both: &OldAndNew<'_>,
) -> Result<KeptMap, AllocError>
    requires there { i < length traced.now.need.now }
    requires maps { AreMaps both.now.groups.now traced.now.scanned (length traced.now.tables.now) traced.now.need.now both.now.old.now both.now.new.now }
    ensures { IfOk result (λ made. made ≡ joint_map_at both.now.groups.now traced.now.scanned rows (each_rows traced.now.tables.now) traced.now.need.now both.now.old.now both.now.new.now i) }
{
    let need = traced.need[i];
    if need.table == traced.scanned {
        let map = scanned_map(alloc, need, both.groups, &both.old[i], &both.new[i])?;
        narrowed(alloc, map)
    } else {
        let size = traced.tables[need.table as usize].len();
        Ok(empty_map(need, rows, size))
    }
}

// A map with its lists narrowed.
fn narrowed(alloc: Global, map: KeptMap) -> Result<KeptMap, AllocError>
    ensures { IfOk result (λ made. made ≡ map) }
{
    let mut map = map;
    narrow(alloc, &mut map.back)?;
    narrow(alloc, &mut map.fwd)?;
    Ok(map)
}

// Empty lists in the needed directions.
fn empty_map(need: Needed, rows: u32, size: u32) -> KeptMap
    ensures { result ≡ void_map rows size need }
{
    KeptMap {
        table: need.table,
        back: empty_if(need.dir.back, rows, size),
        fwd: empty_if(need.dir.fwd, size, rows),
    }
}

fn empty_if(is_needed: bool, len: u32, bound: u32) -> Option<RidMap>
    ensures { result ≡ wanted is_needed (empty_lists len bound) }
{
    if is_needed {
        Some(RidMap::of_none(len, bound))
    } else {
        None
    }
}

// The map of the table that is scanned.
fn scanned_map(
    alloc: Global,
    need: Needed,
    groups: &Option<Classes>,
    old: &KeptMap,
    new: &KeptMap,
) -> Result<KeptMap, AllocError>
    requires { MapsFit groups.now need old.now new.now }
    ensures { IfOk result (λ made. made ≡ both_maps groups.now need old.now new.now) }
{
    let back = lists_of_both(alloc, &old.back, &new.back)?;
    match lists_of_both(alloc, &old.fwd, &new.fwd) {
        Ok(fwd) => by_groups(alloc, need, groups, back, fwd),
        Err(error) => {
            drop(back);
            Err(error)
        }
    }
}

// The lists of both, one after the other, if there are two.
fn lists_of_both(
    alloc: Global,
    old: &Option<RidMap>,
    new: &Option<RidMap>,
) -> Result<Option<RidMap>, AllocError>
    requires { Follows old.now new.now }
    ensures { IfOk result (λ made. made ≡ followed_maps old.now new.now) }
{
    match (old, new) {
        (Some(first), Some(second)) => {
            let both = first.followed_by(alloc, second)?;
            Ok(Some(both))
        }
        (Some(_), None) => Ok(None),
        (None, _) => Ok(None),
    }
}

// These lists as they are, or by the classes of the groups that have them.
fn by_groups(
    alloc: Global,
    need: Needed,
    groups: &Option<Classes>,
    back: Option<RidMap>,
    fwd: Option<RidMap>,
) -> Result<KeptMap, AllocError>
    requires { AreRegrouped groups.now need back fwd }
    ensures { IfOk result (λ made. made ≡ by_classes groups.now need back fwd) }
{
    match groups {
        None => Ok(KeptMap {
            table: need.table,
            back,
            fwd,
        }),
        Some(classes) => {
            let made = regrouped_map(alloc, need, classes, &back, &fwd);
            drop(back);
            drop(fwd);
            made
        }
    }
}

fn regrouped_map(
    alloc: Global,
    need: Needed,
    classes: &Classes,
    back: &Option<RidMap>,
    fwd: &Option<RidMap>,
) -> Result<KeptMap, AllocError>
    requires { IsRegrouped classes.now need back.now fwd.now }
    ensures { IfOk result (λ made. made ≡ by_classes (Some classes.now) need back.now fwd.now) }
{
    let outputs = classes.firsts().len() as u32;
    let of = Vec::from_slice(alloc, classes.of())?;
    let side = Way::targets(of, outputs, None).into_side(alloc, need.dir)?;
    let back = composed_if(alloc, &side.back, back)?;
    let fwd = composed_if(alloc, fwd, &side.fwd)?;
    Ok(KeptMap {
        table: need.table,
        back,
        fwd,
    })
}

// Two maps composed, where there are two, which then have few pairs.
fn composed_if(
    alloc: Global,
    first: &Option<RidMap>,
    second: &Option<RidMap>,
) -> Result<Option<RidMap>, AllocError>
    requires chains { Chains first.now second.now }
    requires few { is_heavy (chained first.now second.now) ≡ false }
    ensures { IfOk result (λ made. made ≡ chained first.now second.now) }
{
    match (first, second) {
        (Some(a), Some(b)) => composed_maps(alloc, a, b),
        (Some(_), None) => Ok(None),
        (None, _) => Ok(None),
    }
}

fn composed_maps(alloc: Global, a: &RidMap, b: &RidMap) -> Result<Option<RidMap>, AllocError>
    requires chains { a.now.bound ≡ length b.now.lists }
    requires few { pairs_of (composed a.now b.now).lists ≤ PAIR_LIMIT }
    ensures { IfOk result (λ made. made ≡ Some (composed a.now b.now)) }
{
    match a.compose(alloc, b) {
        Ok(made) => Ok(Some(made)),
        Err(RidFault::NoMemory) => Err(AllocError),
        Err(RidFault::Pairs) => unreachable!(),
    }
}
