// The answer to an `fd` line.
ghost use Rattle.std.specs.Prelude.{◌≡◌, ◌≤◌, ◌<◌, ◌+◌, length, Some, IfOk};
ghost use Rattle.smk_base.specs.{CatalogImage.{catalog_image, view_place}, declared.reply.ProfileReply.TheVariants.Found, PlanImage.expr_of};
ghost use Rattle.smk_model.specs.{Dependencies.{dependency_of, plan_of}, Names.is_taken, Profiles.{AreDependencies, ShowsDependency, groups_of, looks_of_groups, shown_by}};
ghost use Rattle.smk_model.specs.Profiles as profiles;
ghost use Rattle.smk_session.specs.Sessions.{state_of};

use crate::marks::{mark_groups, mark_line};
use smk_base::{Catalog, Names, Plan, ProfileRefusal, ProfileReply, Text};
use smk_jobs::Work;
use smk_outside::{Gate, Steps};
use smk_session::{Session, Workers};
use std::alloc::{AllocError, Global};
use std::sync::ledger::Ledger;
use std::thread::Threads;

// Whether a name is one of these.
pub(crate) fn is_among(name: &Text, names: &Names) -> bool
    ensures { result ≡ is_taken name.now names.now }
{
    for other in names.as_slice() {
        if *name == *other {
            return true;
        }
    }
    false
}

// The table of the plan of a dependency.
fn scanned(plan: &Plan) -> u32
    requires { expr_of plan.now ≡ plan_of (dependency_of (expr_of plan.now)) }
    ensures { result ≡ (dependency_of (expr_of plan.now)).table }
{
    match plan {
        Plan::One(_, grouped) => match &**grouped {
            Plan::One(_, rows) => match &**rows {
                Plan::Scan(table) => *table,
                _ => unreachable!(),
            },
            _ => unreachable!(),
        },
        _ => unreachable!(),
    }
}

// The table of the dependency that a view shows.
pub(crate) fn table_shown(catalog: &Catalog, v: u32) -> u32
    requires within { v < length catalog.now.views }
    requires shows { ShowsDependency (catalog_image catalog.now) v }
    ensures table { result ≡ (shown_by (catalog_image catalog.now) v).table }
    ensures known { result < length catalog.now.tables }
{
    scanned(&catalog.views.as_slice()[v as usize].plan)
}

// What violates the dependency that a view shows. The session stays as it is.
fn found<R: Threads + Sync, G: Gate + Sync, L: Ledger>(
    work: &Work<'_, R, Workers<'_, G>>,
    session: &mut Session,
    view: &Text,
    v: u32,
    steps: &mut Steps<L>,
) -> Result<ProfileReply, AllocError>
    requires within { v < length session.old.catalog.views }
    requires placed { view_place (catalog_image session.old.catalog) view.now ≡ Some v }
    requires shows { ShowsDependency (catalog_image session.old.catalog) v }
    ensures reply { IfOk result (λ told. told ≡ Found (shown_by (catalog_image session.old.catalog) v).table (groups_of (catalog_image session.old.catalog) (state_of session.old) (shown_by (catalog_image session.old.catalog) v))) }
    ensures same { session.new ≡ session.old }
    ensures looks { steps.new ≤ steps.old + looks_of_groups (groups_of (catalog_image session.old.catalog) (state_of session.old) (shown_by (catalog_image session.old.catalog) v)) }
{
    let table = table_shown(session.catalog(), v);
    let name = &session.catalog().tables.as_slice()[table as usize].name;
    let mut line = mark_line(work.alloc, view, name, 0)?;
    let made = mark_groups(work, session, view, v, &mut line, steps);
    drop(line);
    Ok(ProfileReply::Found {
        table,
        marks: made?,
    })
}

/// The answer to an `fd` line: the table of the dependency whose view has this name, and for each key that violates it the rows with that key and their rids. The line is refused if no view has the name, or else if it isn't one of `fds`, the views of the book's dependencies.
///
/// It asks for the rows of each mark of the view by a `back` line. The session stays as it is, after an error too. Each row in the answer is one look. The gate is handed on to the answers of the `back` lines.
pub fn profile<R: Threads + Sync, G: Gate + Sync, L: Ledger>(
    rt: &R,
    alloc: Global,
    session: &mut Session,
    fds: &Names,
    line: &Text,
    gate: &G,
    steps: &mut Steps<L>,
) -> Result<ProfileReply, AllocError>
    requires shown { AreDependencies (catalog_image session.old.catalog) fds.now }
    ensures reply { IfOk result (λ told. told ≡ profiles.profile_reply (catalog_image session.old.catalog) (state_of session.old) fds.now line.now) }
    ensures same { session.new ≡ session.old }
    ensures looks { steps.new ≤ steps.old + profiles.profile_looks (catalog_image session.old.catalog) (state_of session.old) fds.now line.now }
{
    match session.catalog().view_place(line) {
        None => Ok(ProfileReply::Refused(ProfileRefusal::UnknownView)),
        Some(v) => {
            if is_among(line, fds) {
                let crew = session.crew(gate);
                let work = Work {
                    rt,
                    alloc,
                    crew: &crew,
                };
                found(&work, session, line, v as u32, steps)
            } else {
                Ok(ProfileReply::Refused(ProfileRefusal::NotProfile))
            }
        }
    }
}
