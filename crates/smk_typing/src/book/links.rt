ghost use Rattle.std.specs.Prelude.{◌≡◌, ◌++◌, [], map, IfOk, OnOk};
ghost use Rattle.smk_model.specs.{Names.in_turn, Typing.{all_links, linked_to}};
ghost use Rattle.smk_model.specs.Typing as typing;
ghost use Rattle.smk_typing.specs.{Answers.Finds, Drafts.{over, links_after}, Keys.link_key};

use crate::draft::indexed::Indexed;
use crate::draft::view_by_word;
use indexmap::IndexSet;
use smk_base::{LinkInfo, LinkInfos, Rids, TypeFault, ViewInfo, Word};
use std::alloc::Global;
use std::marker::Model;

/// The links so far. What each of them links is in a hashed set beside them. Contracts see the links.
#[derive(Drop)]
pub struct Links {
    infos: LinkInfos,
    keys: IndexSet<(u32, u32, u32)>,
}

// What a link goes from: a view, and a table that the view scans.
#[derive(Clone, Copy)]
struct Source {
    view: u32,
    table: u32,
}

impl Model for Links {
    ghost use Rattle.std.specs.Prelude.{◌≡◌, List, map};
    ghost use Rattle.smk_base.specs.declared.book.catalog.LinkInfo.{LinkInfo};
    ghost use Rattle.smk_model.specs.Typing.{all_links};
    ghost use Rattle.smk_typing.specs.Keys.{link_key};

    ghost Value = { List LinkInfo };

    ghost view = { λ a. a.infos };

    ghost invariant = { λ a. a.keys.keys ≡ map link_key (all_links a.infos) };
}

impl Links {
    /// No link. It takes no memory.
    pub fn new(alloc: Global) -> Links
        ensures { result ≡ [] }
    {
        Links {
            infos: LinkInfos::new(alloc),
            keys: IndexSet::new(alloc),
        }
    }

    /// The list alone.
    pub fn into_list(self) -> LinkInfos
        ensures { result ≡ self }
    {
        let Links { infos, keys: _ } = self;
        infos
    }

    /// The links after one more of a view on a table to other views.
    pub fn with(
        self,
        alloc: Global,
        views: &Indexed<ViewInfo>,
        view: u32,
        table: u32,
        words: &[Word],
    ) -> Result<Links, TypeFault>
        ensures { Finds result (links_after views.now self view table words.now) (λ links. links) }
    {
        let Links {
            mut infos,
            mut keys,
        } = self;
        let from = Source { view, table };
        match add_link(alloc, views, &mut infos, &mut keys, from, words) {
            Ok(()) => Ok(Links { infos, keys }),
            Err(fault) => {
                drop(infos);
                drop(keys);
                Err(fault)
            }
        }
    }
}

/// Appends a linked view.
fn add_to(
    views: &Indexed<ViewInfo>,
    links: &[LinkInfo],
    keys: &mut IndexSet<(u32, u32, u32)>,
    from: Source,
    to: &mut Rids,
    word: &Word,
) -> Result<(), TypeFault>
    requires { keys.old.keys ≡ map link_key (all_links links.now ++ linked_to from.view from.table to.old) }
    ensures after { Finds result (typing.to_after (over views.now links.now) from.view from.table to.old word.now) (λ _. to.new) }
    ensures keys { OnOk result (keys.new.keys ≡ map link_key (all_links links.now ++ linked_to from.view from.table to.new)) }
{
    let number = view_by_word(views, word)?;
    if number == from.view {
        return Err(TypeFault::SelfLink { at: word.at });
    }
    let key = (from.view, from.table, number);
    if keys.contains(&key) {
        return Err(TypeFault::RepeatedDeclaration { at: word.at });
    }
    keys.insert(key)?;
    to.push(number)?;
    Ok(())
}

/// Appends the linked views of a link. On an error some of them are appended.
fn add_each(
    views: &Indexed<ViewInfo>,
    links: &[LinkInfo],
    keys: &mut IndexSet<(u32, u32, u32)>,
    from: Source,
    to: &mut Rids,
    words: &[Word],
) -> Result<(), TypeFault>
    requires none { to.old ≡ [] }
    requires keys { keys.old.keys ≡ map link_key (all_links links.now) }
    ensures to { Finds result (in_turn (typing.to_after (over views.now links.now) from.view from.table) [] words.now) (λ _. to.new) }
    ensures keys { OnOk result (keys.new.keys ≡ map link_key (all_links links.now ++ linked_to from.view from.table to.new)) }
{
    for word in words {
        add_to(views, links, keys, from, to, word)?;
    }
    Ok(())
}

/// Appends a link of a view on a table to other views.
fn add_link(
    alloc: Global,
    views: &Indexed<ViewInfo>,
    infos: &mut LinkInfos,
    keys: &mut IndexSet<(u32, u32, u32)>,
    from: Source,
    words: &[Word],
) -> Result<(), TypeFault>
    requires { keys.old.keys ≡ map link_key (all_links infos.old) }
    ensures links { Finds result (links_after views.now infos.old from.view from.table words.now) (λ _. infos.new) }
    ensures keys { OnOk result (keys.new.keys ≡ map link_key (all_links infos.new)) }
{
    let mut to = Rids::new(alloc);
    match add_each(views, infos.as_slice(), keys, from, &mut to, words) {
        Ok(()) => {
            infos.push(LinkInfo {
                view: from.view,
                table: from.table,
                to,
            })?;
            Ok(())
        }
        Err(fault) => {
            drop(to);
            Err(fault)
        }
    }
}
