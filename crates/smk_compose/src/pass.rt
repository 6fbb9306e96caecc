//! The maps of the inputs of a step through the step, table by table.

ghost use Rattle.std.specs.{Prelude.{◌≡◌, ◌+◌, ◌<◌, ℕ, true, false, length, map, drop, slice_set, All, IfOk, IfErr, OnOk, None}, List.list_any};
ghost use Rattle.smk_compose.specs.Through.{through, together, together_all, merged_maps, has_heavy, has_back, has_fwd, want_of, map_at, Passes, Matches, Meets, Serves, pairs_fault, IsFirst};
ghost use Rattle.smk_rid.specs.declared.fault.RidFault.TheVariants.{Pairs};

use crate::chain::{lent_if, merge_if_both, pass_back, pass_fwd};
use crate::fault::RunFault;
use crate::kept_maps::KeptMap;
use crate::passing::{Form, Passing};
use smk_base::Dir;
use smk_body::Side;
use smk_rid::RidFault;
use std::alloc::Global;

/// The directions in which there is a map.
pub(crate) fn wants(maps: &[Passing]) -> Dir
    ensures { result ≡ want_of maps.now }
{
    Dir {
        back: has_backs(maps),
        fwd: has_fwds(maps),
    }
}

fn has_backs(maps: &[Passing]) -> bool
    ensures { result ≡ list_any has_back maps.now }
{
    maps.iter().any(|k| k.dir().back)
}

fn has_fwds(maps: &[Passing]) -> bool
    ensures { result ≡ list_any has_fwd maps.now }
{
    maps.iter().any(|k| k.dir().fwd)
}

// The map of one table through a step. The lists of the step stay in the directions in which they serve a later table.
#[tactic(auto, using(crate::proofs::Owns::own_back, crate::proofs::Owns::own_fwd, crate::proofs::Owns::own_light))]
fn pass(alloc: Global, side: &mut Side, map: &mut Passing, later: Dir) -> Result<(), RidFault>
    requires { Passes side.old map.old }
    ensures made { OnOk result (map.new ≡ through side.old map.old) }
    ensures few { OnOk result (has_heavy (through side.old map.old) ≡ false) }
    ensures many { IfErr result (λ e. e ≡ Pairs → has_heavy (through side.old map.old) ≡ true) }
    ensures back { later.back ≡ true → side.new.back ≡ side.old.back }
    ensures fwd { later.fwd ≡ true → side.new.fwd ≡ side.old.fwd }
{
    match &mut map.form {
        Form::Own { table, dir, .. } => {
            let table = *table;
            let dir = *dir;
            let back = lent_if(alloc, dir.back, &mut side.back, later.back)?;
            let fwd = lent_if(alloc, dir.fwd, &mut side.fwd, later.fwd)?;
            map.form = Form::Lists(KeptMap { table, back, fwd });
            Ok(())
        }
        Form::Lists(maps) => {
            pass_back(alloc, &mut side.back, &mut maps.back, later.back)?;
            pass_fwd(alloc, &mut maps.fwd, &mut side.fwd, later.fwd)
        }
    }
}

// The i-th of these maps through a step.
fn pass_at(alloc: Global, side: &mut Side, maps: &mut [Passing], i: usize) -> Result<(), RidFault>
    requires place { i < length maps.old }
    requires passes { Passes side.old (map_at maps.old i) }
    ensures made { OnOk result (maps.new ≡ slice_set maps.old i (through side.old (map_at maps.old i))) }
    ensures few { OnOk result (has_heavy (through side.old (map_at maps.old i)) ≡ false) }
    ensures many { IfErr result (λ e. e ≡ Pairs → has_heavy (through side.old (map_at maps.old i)) ≡ true) }
    ensures serves { Serves side.old side.new (drop (i + 1) maps.old) }
{
    let (_, behind) = maps.split_at(i + 1);
    let later = wants(behind);
    pass(alloc, side, &mut maps[i], later)
}

/// The maps of the input through a step, which is the node with this number. The lists of the step may be handed on.
pub(crate) fn pass_all(
    alloc: Global,
    side: &mut Side,
    maps: &mut [Passing],
    node: u32,
) -> Result<(), RunFault>
    requires { All (Passes side.old) maps.old }
    ensures made { OnOk result (maps.new ≡ map (through side.old) maps.old) }
    ensures none { OnOk result (pairs_fault node (map (through side.old) maps.old) ≡ None) }
    ensures fault { IfErr result (λ e. IsFirst e (pairs_fault node (map (through side.old) maps.old))) }
{
    for i in 0..maps.len() {
        let table = maps[i].table();
        match pass_at(alloc, side, maps, i) {
            Ok(()) => {}
            Err(RidFault::Pairs) => return Err(RunFault::Pairs { node, table }),
            Err(RidFault::NoMemory) => return Err(RunFault::NoMemory),
        }
    }
    Ok(())
}

// The maps of one table by both inputs, merged into the left one.
fn merge_maps(alloc: Global, left: &mut Passing, right: &mut Passing) -> Result<(), RidFault>
    requires { Matches left.old right.old }
    ensures made { OnOk result (left.new ≡ merged_maps left.old right.old) }
    ensures few { OnOk result (has_heavy (merged_maps left.old right.old) ≡ false) }
    ensures many { IfErr result (λ e. e ≡ Pairs → has_heavy (merged_maps left.old right.old) ≡ true) }
{
    let mut made = left.take(alloc)?;
    let mut other = right.take(alloc)?;
    merge_if_both(alloc, &mut made.back, &mut other.back)?;
    merge_if_both(alloc, &mut made.fwd, &mut other.fwd)?;
    left.form = Form::Lists(made);
    Ok(())
}

// The i-th of these maps through a step with two inputs, put among the left ones.
fn meet_at(
    alloc: Global,
    left_side: &mut Side,
    right_side: &mut Side,
    lefts: &mut [Passing],
    rights: &mut [Passing],
    i: usize,
) -> Result<(), RidFault>
    requires left_place { i < length lefts.old }
    requires right_place { i < length rights.old }
    requires meets { Meets left_side.old right_side.old (map_at lefts.old i) (map_at rights.old i) }
    ensures made { OnOk result (lefts.new ≡ slice_set lefts.old i (together left_side.old right_side.old (map_at lefts.old i) (map_at rights.old i))) }
    ensures rest { OnOk result (drop (i + 1) rights.new ≡ drop (i + 1) rights.old) }
    ensures few { OnOk result (has_heavy (together left_side.old right_side.old (map_at lefts.old i) (map_at rights.old i)) ≡ false) }
    ensures many { IfErr result (λ e. e ≡ Pairs → has_heavy (together left_side.old right_side.old (map_at lefts.old i) (map_at rights.old i)) ≡ true) }
    ensures left { Serves left_side.old left_side.new (drop (i + 1) lefts.old) }
    ensures right { Serves right_side.old right_side.new (drop (i + 1) rights.old) }
{
    pass_at(alloc, left_side, lefts, i)?;
    pass_at(alloc, right_side, rights, i)?;
    merge_maps(alloc, &mut lefts[i], &mut rights[i])
}

/// The maps of both inputs through a step, which is the node with this number, put among the left ones.
pub(crate) fn meet_all(
    alloc: Global,
    left_side: &mut Side,
    right_side: &mut Side,
    lefts: &mut [Passing],
    rights: &mut [Passing],
    node: u32,
) -> Result<(), RunFault>
    requires long { length lefts.old ≡ length rights.old }
    requires meets { (i : ℕ) → i < length lefts.old → Meets left_side.old right_side.old (map_at lefts.old i) (map_at rights.old i) }
    ensures made { OnOk result (lefts.new ≡ together_all left_side.old right_side.old lefts.old rights.old) }
    ensures none { OnOk result (pairs_fault node (together_all left_side.old right_side.old lefts.old rights.old) ≡ None) }
    ensures fault { IfErr result (λ e. IsFirst e (pairs_fault node (together_all left_side.old right_side.old lefts.old rights.old))) }
{
    for i in 0..lefts.len() {
        let table = lefts[i].table();
        match meet_at(alloc, left_side, right_side, lefts, rights, i) {
            Ok(()) => {}
            Err(RidFault::Pairs) => return Err(RunFault::Pairs { node, table }),
            Err(RidFault::NoMemory) => return Err(RunFault::NoMemory),
        }
    }
    Ok(())
}
