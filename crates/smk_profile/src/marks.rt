// The rows that the marks of the view of a dependency came from.
ghost use Rattle.std.specs.Prelude.{◌≡◌, ◌≤◌, ◌<◌, ◌+◌, [], ◌∷◌, length, Some, IfOk, OnOk};
ghost use Rattle.smk_base.specs.declared.book.tree.Marks.TheVariants as markings;
ghost use Rattle.smk_base.specs.{CatalogImage.{catalog_image, view_place}, declared.reply.Reply.TheVariants.Back};
ghost use Rattle.smk_model.specs.{Looks.line_looks, Profiles.{ShowsDependency, groups_of, looks_of_groups, shown_by}, Replies.reply, Typing.info_at};
ghost use Rattle.smk_model.specs.Profiles as profiles;
ghost use Rattle.smk_profile.specs.Marked.{HasMarks, IsAnsweredByRows, IsMarkLine, with_mark};
ghost use Rattle.smk_session.specs.Sessions.{state_of};

use smk_base::{Group, Groups, Line, Marks, Reply, Rids, Text, Then};
use smk_jobs::Work;
use smk_outside::{Gate, Steps};
use smk_session::{Session, Workers};
use std::alloc::{AllocError, Global};
use std::sync::ledger::Ledger;
use std::thread::Threads;

// One mark alone.
pub(crate) fn one_mark(alloc: Global, mark: u32) -> Result<Marks, AllocError>
    ensures { IfOk result (λ marks. marks ≡ markings.Listed (mark ∷ [])) }
{
    let mut marks = Rids::new(alloc);
    marks.push(mark)?;
    Ok(Marks::Listed(marks))
}

// The `back` line for a mark of a view.
pub(crate) fn mark_line(
    alloc: Global,
    view: &Text,
    table: &Text,
    mark: u32,
) -> Result<Line, AllocError>
    ensures { IfOk result (λ line. line ≡ profiles.mark_line view.now table.now mark) }
{
    let marks = one_mark(alloc, mark)?;
    let view = view.copy(alloc)?;
    let table = table.copy(alloc)?;
    Ok(Line::Back {
        view,
        marks,
        table,
        then: Then::Plain,
    })
}

// Puts another mark in place of that of a `back` line. After an error the line has none.
fn put_mark(line: &mut Line, mark: u32) -> Result<(), AllocError>
    requires { HasMarks line.old }
    ensures { OnOk result (line.new ≡ with_mark line.old mark) }
{
    match line {
        Line::Back {
            marks: Marks::Listed(marks),
            ..
        } => {
            marks.clear();
            marks.push(mark)
        }
        _ => unreachable!(),
    }
}

// The rows that a mark of a view came from, where the `back` line for it is answered by rows. The session stays as it is.
fn mark_group<R: Threads + Sync, G: Gate + Sync, L: Ledger>(
    work: &Work<'_, R, Workers<'_, G>>,
    session: &mut Session,
    line: &Line,
    steps: &mut Steps<L>,
) -> Result<Group, AllocError>
    requires answered { IsAnsweredByRows (catalog_image session.old.catalog) (state_of session.old) line.now }
    ensures group { IfOk result (λ group. (reply (catalog_image session.old.catalog) (state_of session.old) line.now).0 ≡ Back group.rids group.rows) }
    ensures same { session.new ≡ session.old }
    ensures looks { steps.new ≤ steps.old + line_looks (catalog_image session.old.catalog) (state_of session.old) line.now }
{
    match session.answer(work.rt, work.alloc, line, work.crew.gate, steps)? {
        Reply::Back { rids, rows } => Ok(Group { rids, rows }),
        Reply::View { .. }
        | Reply::Grouped { .. }
        | Reply::Fwd { .. }
        | Reply::Brush { .. }
        | Reply::Cleared
        | Reply::ClearedOne { .. }
        | Reply::Refused(_) => unreachable!(),
    }
}

/// The rows that each mark of the view of a dependency came from, in the order of the marks, by the `back` lines for them: the line for one of them, with each mark put in it in turn. The session stays as it is.
pub(crate) fn mark_groups<R: Threads + Sync, G: Gate + Sync, L: Ledger>(
    work: &Work<'_, R, Workers<'_, G>>,
    session: &mut Session,
    view: &Text,
    v: u32,
    line: &mut Line,
    steps: &mut Steps<L>,
) -> Result<Groups, AllocError>
    requires within { v < length session.old.catalog.views }
    requires placed { view_place (catalog_image session.old.catalog) view.now ≡ Some v }
    requires shows { ShowsDependency (catalog_image session.old.catalog) v }
    requires asks { IsMarkLine view.now (info_at session.old.catalog.tables (shown_by (catalog_image session.old.catalog) v).table).name line.old }
    ensures groups { IfOk result (λ groups. groups ≡ groups_of (catalog_image session.old.catalog) (state_of session.old) (shown_by (catalog_image session.old.catalog) v)) }
    ensures same { session.new ≡ session.old }
    ensures looks { steps.new ≤ steps.old + looks_of_groups (groups_of (catalog_image session.old.catalog) (state_of session.old) (shown_by (catalog_image session.old.catalog) v)) }
{
    let count = session.first(v).len();
    let mut groups = Groups::new(work.alloc);
    for mark in 0..count {
        put_mark(line, mark)?;
        let group = mark_group(work, session, line, steps)?;
        groups.push(group)?;
    }
    Ok(groups)
}
