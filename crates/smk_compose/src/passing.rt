ghost use Rattle.std.specs.Prelude.{◌≡◌, ◌<◌, ◌≤◌, length, map, All, IfOk, is_some};
ghost use Rattle.smk_base.specs.{Rels.{kind_in, picked}, declared.rel.TheConstants.{COLUMN_LIMIT, ROW_LIMIT}, Places.own_lists};
ghost use Rattle.smk_body.specs.Locals.{wanted};
ghost use Rattle.smk_compose.specs.Through.{scan_at};

use crate::kept_maps::KeptMap;
use smk_base::{Dir, ListOf, Needed, Rel};
use smk_rid::RidMap;
use std::alloc::{AllocError, Global};
use std::marker::Model;
use std::mem;

/// The maps of one table on their way through a plan. Contracts see the lists.
#[derive(Drop)]
pub(crate) struct Passing {
    pub(crate) form: Form,
}

// Those of so many rows of a scan, each of which has itself alone, in these directions, take no memory.
#[derive(Drop)]
pub(crate) enum Form {
    Own { table: u32, len: u32, dir: Dir },
    Lists(KeptMap),
}

impl Model for Passing {
    ghost use Rattle.smk_compose.specs.{declared.kept_maps.KeptMap.KeptMap, Passing.{maps_in, IsShort}};

    ghost Value = { KeptMap };

    ghost view = { λ a. maps_in a.form };

    ghost invariant = { λ a. IsShort a.form };
}

/// The rows of a plan, and the maps that are on their way.
#[derive(Drop)]
pub(crate) struct Walked {
    pub(crate) rel: Rel,
    pub(crate) kept: ListOf<Passing>,
}

impl Passing {
    /// The maps of a scan of a table with so many rows: each row comes from itself, and from no row of another table.
    pub(crate) fn scan(scanned: u32, len: u32, need: Needed) -> Passing
        requires { len ≤ ROW_LIMIT }
        ensures { result ≡ scan_at scanned len need }
    {
        let here = need.table == scanned;
        Passing {
            form: Form::Own {
                table: need.table,
                len,
                dir: Dir {
                    back: here && need.dir.back,
                    fwd: here && need.dir.fwd,
                },
            },
        }
    }

    /// The table.
    pub(crate) fn table(&self) -> u32
        ensures { result ≡ self.now.table }
    {
        match &self.form {
            Form::Own { table, .. } => *table,
            Form::Lists(maps) => maps.table,
        }
    }

    /// The directions in which there is a map.
    pub(crate) fn dir(&self) -> Dir
        ensures { result ≡ record { back = is_some self.now.back; fwd = is_some self.now.fwd } }
    {
        match &self.form {
            Form::Own { dir, .. } => *dir,
            Form::Lists(maps) => Dir {
                back: maps.back.is_some(),
                fwd: maps.fwd.is_some(),
            },
        }
    }

    /// Takes the maps out, as lists.
    pub(crate) fn take(&mut self, alloc: Global) -> Result<KeptMap, AllocError>
        ensures { IfOk result (λ maps. maps ≡ self.old) }
    {
        let none = Form::Lists(KeptMap {
            table: 0,
            back: None,
            fwd: None,
        });
        match mem::replace(&mut self.form, none) {
            Form::Own { table, len, dir } => Ok(KeptMap {
                table,
                back: own_map(alloc, dir.back, len)?,
                fwd: own_map(alloc, dir.fwd, len)?,
            }),
            Form::Lists(maps) => Ok(maps),
        }
    }
}

/// The maps of a scan of a table with so many rows.
pub(crate) fn scan_maps(
    alloc: Global,
    scanned: u32,
    len: u32,
    need: &[Needed],
) -> Result<ListOf<Passing>, AllocError>
    requires { len ≤ ROW_LIMIT }
    ensures { IfOk result (λ made. made ≡ map (scan_at scanned len) need.now) }
{
    let mut made = ListOf::new(alloc);
    for n in need {
        made.push(Passing::scan(scanned, len, *n))?;
    }
    Ok(made)
}

impl Walked {
    /// These columns of the rows, with their maps. No value is copied.
    pub(crate) fn at_columns(
        alloc: Global,
        rel: Rel,
        cols: &[u32],
        maps: Vec<Passing>,
    ) -> Result<Walked, AllocError>
        requires within { All (λ c. c < length rel.kinds) cols.now }
        requires few { length cols.now ≤ COLUMN_LIMIT }
        ensures kinds { IfOk result (λ run. run.rel.kinds ≡ map (kind_in rel.kinds) cols.now) }
        ensures rows { IfOk result (λ run. run.rel.rows ≡ map (picked cols.now) rel.rows) }
        ensures kept { IfOk result (λ run. run.kept ≡ maps.items) }
    {
        let rel = rel.shared(alloc)?.pick_columns(alloc, cols)?;
        Ok(Walked {
            rel,
            kept: ListOf::from_vec(maps),
        })
    }
}

// Each row's own list, if it is wanted.
fn own_map(alloc: Global, is_wanted: bool, len: u32) -> Result<Option<RidMap>, AllocError>
    requires { len ≤ ROW_LIMIT }
    ensures { IfOk result (λ made. made ≡ wanted is_wanted (own_lists len)) }
{
    if is_wanted {
        let map = RidMap::identity(alloc, len)?;
        Ok(Some(map))
    } else {
        Ok(None)
    }
}
