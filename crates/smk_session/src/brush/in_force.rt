// Lists of brushes in force, with one more or one less.
ghost use Rattle.std.specs.{Prelude.{◌≡◌, cond, map, IfOk}, List.list_any};
ghost use Rattle.smk_model.specs.Session as sessions;

use crate::turn::Brushes;
use smk_base::BrushOn;
use std::alloc::{AllocError, Global};

// Whether a brush is that of a view and a table.
fn is_brush(v: u32, t: u32, brush: &BrushOn) -> bool
    ensures { result ≡ sessions.is_brush v t brush.now }
{
    brush.view == v && brush.table == t
}

fn copy_brush(alloc: Global, brush: &BrushOn) -> Result<BrushOn, AllocError>
    ensures { IfOk result (λ copy. copy ≡ brush.now) }
{
    Ok(BrushOn {
        view: brush.view,
        table: brush.table,
        rids: brush.rids.copy(alloc)?,
    })
}

// Whether there is a brush of a view and a table.
fn has_brush(brushes: &[BrushOn], v: u32, t: u32) -> bool
    ensures { result ≡ list_any (sessions.is_brush v t) brushes.now }
{
    brushes.iter().any(|brush| is_brush(v, t, brush))
}

// The brushes with this one in place of the one of its view and table.
fn replaced(alloc: Global, brushes: &[BrushOn], brush: &BrushOn) -> Result<Brushes, AllocError>
    ensures { IfOk result (λ made. made ≡ map (λ old. cond (sessions.is_brush brush.now.view brush.now.table old) brush.now old) brushes.now) }
{
    let mut made = Brushes::new(alloc);
    for old in brushes {
        let standing = if is_brush(brush.view, brush.table, old) {
            brush
        } else {
            old
        };
        made.push(copy_brush(alloc, standing)?)?;
    }
    Ok(made)
}

// The brushes with this one in place of the one of its view and table, or last where there is none.
#[tactic(auto, using(crate::proofs::InForce::none_replaced))]
pub(crate) fn with_brush(
    alloc: Global,
    brushes: &[BrushOn],
    brush: BrushOn,
) -> Result<Brushes, AllocError>
    ensures { IfOk result (λ made. made ≡ sessions.with_brush brush brushes.now) }
{
    let stands = has_brush(brushes, brush.view, brush.table);
    let mut made = replaced(alloc, brushes, &brush)?;
    if stands {
        return Ok(made);
    }
    made.push(brush)?;
    Ok(made)
}

// The brushes without that of a view and a table.
pub(crate) fn without_brush(
    alloc: Global,
    brushes: &[BrushOn],
    v: u32,
    t: u32,
) -> Result<Brushes, AllocError>
    ensures { IfOk result (λ made. made ≡ sessions.without_brush v t brushes.now) }
{
    let mut made = Brushes::new(alloc);
    for old in brushes {
        if !is_brush(v, t, old) {
            made.push(copy_brush(alloc, old)?)?;
        }
    }
    Ok(made)
}
