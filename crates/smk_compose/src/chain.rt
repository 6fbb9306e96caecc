//! One map of a table through a step: composed with the step's own list, and merged with that of the other input.

ghost use Rattle.std.specs.Prelude.{◌≡◌, ◌<◌, ◌≤◌, true, false, cond, length, Some, None, IfOk, IfErr, IfSome, OnOk, IsTrue};
ghost use Rattle.smk_base.specs.Places.{pairs_of, composed};
ghost use Rattle.smk_rid.specs.{Maps.IsMap, declared.fault.RidFault.TheVariants.Pairs, declared.map.TheConstants.PAIR_LIMIT};
ghost use Rattle.smk_compose.specs.Through.{chained, chain_of, merged_if_both, is_heavy, Chains, CanMerge};

use smk_rid::{RidFault, RidMap};
use std::alloc::Global;

// What two maps composed are: none, one of them where the other one is an identity, or a new one.
#[derive(Drop)]
enum Composed {
    Nothing,
    First,
    Second,
    Made(RidMap),
}

fn chain(
    alloc: Global,
    first: &Option<RidMap>,
    second: &Option<RidMap>,
) -> Result<Composed, RidFault>
    requires { Chains first.now second.now }
    ensures made { IfOk result (λ chain. chain_of chain first.now second.now ≡ chained first.now second.now) }
    ensures few { IfOk result (λ _. is_heavy (chained first.now second.now) ≡ false) }
    ensures many { IfErr result (λ e. e ≡ Pairs → is_heavy (chained first.now second.now) ≡ true) }
{
    match (first, second) {
        (Some(a), Some(b)) => chain_maps(alloc, a, b),
        (Some(_), None) => Ok(Composed::Nothing),
        (None, _) => Ok(Composed::Nothing),
    }
}

#[tactic(auto, using(crate::proofs::Owns::composed_own, crate::proofs::Owns::own_composed))]
fn chain_maps(alloc: Global, a: &RidMap, b: &RidMap) -> Result<Composed, RidFault>
    requires { a.now.bound ≡ length b.now.lists }
    ensures made { IfOk result (λ chain. chain_of chain (Some a.now) (Some b.now) ≡ Some (composed a.now b.now)) }
    ensures few { IfOk result (λ _. pairs_of (composed a.now b.now).lists ≤ PAIR_LIMIT) }
    ensures many { IfErr result (λ e. e ≡ Pairs → PAIR_LIMIT < pairs_of (composed a.now b.now).lists) }
{
    let _pairs = a.pairs();
    let _pairs = b.pairs();
    if b.is_identity() {
        Ok(Composed::First)
    } else if a.is_identity() {
        Ok(Composed::Second)
    } else {
        Ok(Composed::Made(a.compose(alloc, b)?))
    }
}

/// Takes the backward map of a table through a step. The step's list is handed on if it is the map, unless it serves a later table too.
pub(crate) fn pass_back(
    alloc: Global,
    step: &mut Option<RidMap>,
    map: &mut Option<RidMap>,
    serves_later: bool,
) -> Result<(), RidFault>
    requires { Chains step.old map.old }
    ensures made { OnOk result (map.new ≡ chained step.old map.old) }
    ensures few { OnOk result (is_heavy (chained step.old map.old) ≡ false) }
    ensures many { IfErr result (λ e. e ≡ Pairs → is_heavy (chained step.old map.old) ≡ true) }
    ensures kept { IsTrue serves_later → step.new ≡ step.old }
{
    match chain(alloc, step, map)? {
        Composed::Nothing => put(map, None),
        Composed::First => put(map, lent(alloc, step, serves_later)?),
        Composed::Second => {}
        Composed::Made(made) => put(map, Some(made)),
    }
    Ok(())
}

/// The forward map, likewise.
pub(crate) fn pass_fwd(
    alloc: Global,
    map: &mut Option<RidMap>,
    step: &mut Option<RidMap>,
    serves_later: bool,
) -> Result<(), RidFault>
    requires { Chains map.old step.old }
    ensures made { OnOk result (map.new ≡ chained map.old step.old) }
    ensures few { OnOk result (is_heavy (chained map.old step.old) ≡ false) }
    ensures many { IfErr result (λ e. e ≡ Pairs → is_heavy (chained map.old step.old) ≡ true) }
    ensures kept { IsTrue serves_later → step.new ≡ step.old }
{
    match chain(alloc, map, step)? {
        Composed::Nothing => put(map, None),
        Composed::First => {}
        Composed::Second => put(map, lent(alloc, step, serves_later)?),
        Composed::Made(made) => put(map, Some(made)),
    }
    Ok(())
}

// A map in place of another.
pub(crate) fn put(map: &mut Option<RidMap>, made: Option<RidMap>)
    ensures { map.new ≡ made }
{
    *map = made;
}

/// The step's own list, where the map of a scan is wanted: each row has itself alone, so composed they are that list.
pub(crate) fn lent_if(
    alloc: Global,
    is_wanted: bool,
    step: &mut Option<RidMap>,
    serves_later: bool,
) -> Result<Option<RidMap>, RidFault>
    ensures given { IfOk result (λ given. given ≡ cond is_wanted step.old None) }
    ensures maps { IfSome step.old IsMap }
    ensures memory { IfErr result (λ e. e ≡ Pairs → ⊥) }
    ensures kept { IsTrue serves_later → step.new ≡ step.old }
{
    if let Some(lists) = step {
        let _pairs = lists.pairs();
    }
    if is_wanted {
        lent(alloc, step, serves_later)
    } else {
        Ok(None)
    }
}

// A map, or a copy where it serves once more.
fn lent(
    alloc: Global,
    map: &mut Option<RidMap>,
    serves_later: bool,
) -> Result<Option<RidMap>, RidFault>
    ensures given { IfOk result (λ given. given ≡ map.old) }
    ensures memory { IfErr result (λ e. e ≡ Pairs → ⊥) }
    ensures kept { IsTrue serves_later → map.new ≡ map.old }
{
    if !serves_later {
        return Ok(map.take());
    }
    match map {
        Some(m) => Ok(Some(m.copy(alloc)?)),
        None => Ok(None),
    }
}

/// Makes the map from the left input that from both: the two merged, or the one that there is.
pub(crate) fn merge_if_both(
    alloc: Global,
    left: &mut Option<RidMap>,
    right: &mut Option<RidMap>,
) -> Result<(), RidFault>
    requires { CanMerge left.old right.old }
    ensures made { OnOk result (left.new ≡ merged_if_both left.old right.old) }
    ensures few { OnOk result (is_heavy (merged_if_both left.old right.old) ≡ false) }
    ensures many { IfErr result (λ e. e ≡ Pairs → is_heavy (merged_if_both left.old right.old) ≡ true) }
{
    match (&*left, &*right) {
        (Some(a), Some(b)) => {
            let made = a.merge(alloc, b)?;
            put(left, Some(made));
        }
        (Some(a), None) => {
            let _pairs = a.pairs();
        }
        (None, Some(b)) => {
            let _pairs = b.pairs();
            put(left, right.take());
        }
        (None, None) => {}
    }
    Ok(())
}
