use smk_rid::{RidGrow, RidMap};
use std::alloc::Global;
use std::test::Fail;

/// The lists of a map, and their bound.
pub(crate) fn lists_shown(alloc: Global, map: &RidMap) -> Result<String, Fail> {
    let mut text = String::new(alloc);
    for i in 0..map.len() {
        let rids = map.at(i);
        write!(text, "{rids:?} ")?;
    }
    let bound = map.bound();
    write!(text, "below {bound}")?;
    Ok(text)
}

// Whether a map has these lists, so many rids before the last of them, and these rids where they are packed.
fn is(
    alloc: Global,
    map: &RidMap,
    lists: &str,
    before: u32,
    packed: Option<&[u32]>,
) -> Result<bool, Fail> {
    let text = lists_shown(alloc, map)?;
    let start = map.start(map.len().saturating_sub(1));
    Ok(text.as_str() == lists && start == before && map.packed() == packed)
}

// Whether an array of rids is its lists.
fn an_array_is(alloc: Global) -> Result<bool, Fail> {
    let array = RidMap::from_array(alloc, [Some(1), None, Some(0)].as_slice(), 2)?;
    is(alloc, &array, "[1] [] [0] below 2", 1, None)
}

// Whether the sales of each region, from the region of each sale, are these lists, and back.
fn inverted_are(alloc: Global) -> Result<bool, Fail> {
    let regions = [Some(0), Some(1), Some(0), Some(2)];
    let sales = RidMap::from_array(alloc, regions.as_slice(), 3)?.invert(alloc)?;
    let rids = [0u32, 2, 1, 3];
    let are = is(
        alloc,
        &sales,
        "[0, 2] [1] [3] below 4",
        3,
        Some(rids.as_slice()),
    )?;
    let regions = sales.invert(alloc)?;
    Ok(are && is(alloc, &regions, "[0] [1] [0] [2] below 3", 3, None)?)
}

// Whether lists that have grown are what was added.
fn grown_are(alloc: Global) -> Result<bool, Fail> {
    let mut grow = RidGrow::new(alloc, 5);
    grow.more()?;
    grow.more()?;
    grow.add(1, 2)?;
    grow.add(1, 4)?;
    let grown = grow.done(alloc)?;
    let rids = [2u32, 4];
    is(alloc, &grown, "[] [2, 4] below 5", 0, Some(rids.as_slice()))
}

// A run knows the sizes of its lists, or has at most one rid in each.
#[test]
fn maps_are_their_lists_and_lists_grow(rt: HostRuntime) -> Result<(), Fail> {
    assert!(rt; an_array_is(rt.alloc())?);
    assert!(rt; inverted_are(rt.alloc())?);
    assert!(rt; grown_are(rt.alloc())?);
    Ok(())
}
