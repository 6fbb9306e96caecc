// What violates a dependency, by numbers alone.
ghost use Rattle.std.specs.Prelude.{◌≡◌, ◌<◌, List, ℕ, length, map, Some, IfOk};
ghost use Rattle.smk_base.specs.{CatalogImage.{catalog_image, view_place}, Rels.Relation, declared.reply.Reply.TheVariants.Back};
ghost use Rattle.smk_model.specs.{OwnTexts.brief_profile_text as brief_said, Profiles.{AreDependencies, ShowsDependency, groups_of, shown_by}, Replies.reply};
ghost use Rattle.smk_model.specs.Profiles as profiles;
ghost use Rattle.smk_profile.specs.{Briefs.{group_sizes, size_of, sizes_text}, Marked.IsAnsweredByRows};
ghost use Rattle.smk_session.specs.Sessions.{state_of};

use crate::marks::one_mark;
use crate::profiling::{is_among, table_shown};
use crate::said::{add_mark, refused_text};
use smk_base::{ListOf, Names, ProfileRefusal, Text, Then};
use smk_report::line_around;
use smk_session::{Session, Turned};
use std::alloc::{AllocError, Global};

/// The answer to an `fd` line without its rows.
#[derive(Drop)]
pub enum BriefProfile {
    /// For each key that violates the dependency how many rows have it, in the order of the keys.
    Found(ListOf<u64>),
    /// The line is refused.
    Refused(ProfileRefusal),
}

// How many rows a mark of a view came from, where the `back` line for it is answered by rows.
fn mark_count(
    alloc: Global,
    session: &Session,
    view: &Text,
    table: &Text,
    mark: u32,
) -> Result<u64, AllocError>
    requires { IsAnsweredByRows (catalog_image session.now.catalog) (state_of session.now) (profiles.mark_line view.now table.now mark) }
    ensures { IfOk result (λ count. (rids : List ℕ) → (rows : Relation) → (reply (catalog_image session.now.catalog) (state_of session.now) (profiles.mark_line view.now table.now mark)).0 ≡ Back rids rows → count ≡ length rids) }
{
    let marks = one_mark(alloc, mark)?;
    match session.rows_behind(alloc, view, &marks, table, &Then::Plain) {
        Ok(found) => Ok(found.rids.as_slice().len() as u64),
        Err(Turned::Refused(_)) => unreachable!(),
        Err(Turned::Exhausted) => Err(AllocError),
    }
}

// How many rows each mark of the view of a dependency came from.
fn mark_counts(
    alloc: Global,
    session: &Session,
    view: &Text,
    v: u32,
) -> Result<ListOf<u64>, AllocError>
    requires within { v < length session.now.catalog.views }
    requires placed { view_place (catalog_image session.now.catalog) view.now ≡ Some v }
    requires shows { ShowsDependency (catalog_image session.now.catalog) v }
    ensures { IfOk result (λ counts. counts ≡ map size_of (groups_of (catalog_image session.now.catalog) (state_of session.now) (shown_by (catalog_image session.now.catalog) v))) }
{
    let table = table_shown(session.catalog(), v);
    let name = &session.catalog().tables.as_slice()[table as usize].name;
    let mut counts = ListOf::new(alloc);
    for mark in 0..session.first(v).len() {
        counts.push(mark_count(alloc, session, view, name, mark)?)?;
    }
    Ok(counts)
}

/// How many rows have each key that violates the dependency whose view has this name, or the refusal of its `fd` line. It makes no look.
pub fn profile_briefly(
    alloc: Global,
    session: &Session,
    fds: &Names,
    view: &Text,
) -> Result<BriefProfile, AllocError>
    requires shown { AreDependencies (catalog_image session.now.catalog) fds.now }
    ensures { IfOk result (λ told. told ≡ group_sizes (profiles.profile_reply (catalog_image session.now.catalog) (state_of session.now) fds.now view.now)) }
{
    match session.catalog().view_place(view) {
        None => Ok(BriefProfile::Refused(ProfileRefusal::UnknownView)),
        Some(v) => {
            if is_among(view, fds) {
                let counts = mark_counts(alloc, session, view, v as u32)?;
                Ok(BriefProfile::Found(counts))
            } else {
                Ok(BriefProfile::Refused(ProfileRefusal::NotProfile))
            }
        }
    }
}

// The text of the marks and how many rows each came from.
fn counts_text(alloc: Global, view: &Text, counts: &[u64]) -> Result<Vec<u8>, AllocError>
    ensures { IfOk result (λ text. text.items ≡ sizes_text view.now counts.now) }
{
    let mut text = line_around(
        alloc,
        &[b"fd ", view.as_slice(), b" "],
        counts.len() as u64,
        &[],
    )?;
    for mark in 0..counts.len() {
        add_mark(&mut text, mark as u64, counts[mark])?;
    }
    Ok(text)
}

/// The text of an answer to an `fd` line without its rows.
pub fn brief_profile_text(
    alloc: Global,
    view: &Text,
    told: &BriefProfile,
) -> Result<Vec<u8>, AllocError>
    ensures { IfOk result (λ text. (reply : _) → group_sizes reply ≡ told.now → text.items ≡ brief_said view.now reply) }
{
    match told {
        BriefProfile::Found(counts) => counts_text(alloc, view, counts.as_slice()),
        BriefProfile::Refused(refusal) => refused_text(alloc, view, *refusal),
    }
}
