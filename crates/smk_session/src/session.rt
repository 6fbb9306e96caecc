ghost use Rattle.std.specs.Prelude.{◌≡◌, ◌≤◌, ◌<◌, ◌+◌, [], true, false, length, map, slice_index_or, None, IfOk, IfErr, IfSome, OnOk, OnErr};
ghost use Rattle.smk_base.specs.{CatalogImage.catalog_image, Places.upto, declared.workers.TheConstants.WORKER_LIMIT};
ghost use Rattle.smk_model.specs.{Catalogs.{IsCatalog, each_table_kinds}, Looks.{start_looks, line_looks}, Opening.first_view_fault, Selection.each_kinds, OwnAnswers.selected_on, ReplyTexts.AsksRows, Session.rows_of_table};
ghost use Rattle.smk_model.specs.Replies as replies;
ghost use Rattle.smk_base.specs.declared.book.tree.Line.TheVariants as lines;
ghost use Rattle.smk_model.specs.Session as sessions;
ghost use Rattle.smk_session.specs.{Answers.{IsLent, book_of, rids_or_all, state_lent}, Behind.{BehindFits, FindsBehind, RidsFit}, Told.IsTold, Parts.parts_image, Extras.{all_cubes, splits_of}, Opened.{IsStartFault, opened, opened_views, workbook_image}, Sessions.{IsSession, contents_kept, state_of, workbook_of}, Turns.{IsTurnOf, state_turned}};

use crate::answer::no_answer::Turned;
use crate::answer::rows_behind::RowsBehind;
use crate::answer::{Query, answer_to, rids_behind};
use crate::brush::choices::selected;
use crate::lent::Lent;
use crate::parts::Parts;
use crate::start::begin;
use crate::start::fault::StartFault;
use crate::start::mode::Mode;
use crate::start::workers::Workers;
use crate::turn::{Brushes, Turn, place};
use smk_base::{Catalog, Line, Marks, Rel, Reply, Rids, Text, Then};
use smk_compose::{Run, fetch_rids};
use smk_jobs::Work;
use smk_outside::{Gate, Steps};
use smk_push::Cubes;
use smk_skip::Split;
use smk_table::Table;
use smk_typing::TypedBook;
use std::alloc::{AllocError, Global};
use std::marker::Model;
use std::sync::ledger::Ledger;
use std::thread::Threads;

/// A checked book over its tables: for each view its first content and the lineage that the declared queries need; for each declared split the lineage by the values of its column, and for each declared grouping its groups; and the brushes in force.
#[derive(Drop)]
pub struct Session {
    book: TypedBook,
    tables: Vec<Table>,
    views: Vec<Run>,
    splits: Vec<Split>,
    cubes: Vec<Cubes>,
    brushes: Brushes,
    contents: Vec<Option<Rel>>,
    mode: Mode,
    workers: u32,
}

impl Model for Session {
    ghost use Rattle.smk_base.specs.contracts.book.catalog.Catalog as held;
    ghost use Rattle.std.specs.Coded.{codes};
    ghost use Rattle.smk_session.specs.Sessions.{SessionImage, IsSession};

    ghost Value = { SessionImage };

    ghost coded = { Prim.hlevel (codes, held.the_row.coded) };

    ghost view = { λ a. record { catalog = a.book; tables = a.tables.items; views = a.views.items; splits = a.splits.items; cubes = a.cubes.items; brushes = a.brushes; contents = a.contents.items; mode = a.mode; workers = a.workers } };

    ghost invariant = { λ a. IsSession (record { catalog = a.book; tables = a.tables.items; views = a.views.items; splits = a.splits.items; cubes = a.cubes.items; brushes = a.brushes; contents = a.contents.items; mode = a.mode; workers = a.workers }) };
}

impl Session {
    /// A session of this book over these tables, or the first view with a node that is too big. Each row of a leaf is at most one look, and so is each row of the table of a declared split or grouping, even if the session is refused.
    ///
    /// No brush is in force. Lineage is captured by the body of `mode`, all in this thread with one worker, and above that in pieces of rows that may run at the same time; piece p passes the gate with p. With several workers two views or more over many rows are opened at the same time, once the rows of all are fetched: each passes the gate with its number, and has its share of the workers. There are at most 64 workers. On a fault the book and the tables are dropped.
    pub fn start<R: Threads + Sync, G: Gate + Sync, L: Ledger>(
        rt: &R,
        alloc: Global,
        book: TypedBook,
        tables: Vec<Table>,
        mode: Mode,
        workers: u32,
        gate: &G,
        steps: &mut Steps<L>,
    ) -> Result<Session, StartFault>
        requires kinds { each_kinds tables.items ≡ each_table_kinds book.tables }
        requires some_workers { 1 ≤ workers }
        requires few_workers { workers ≤ WORKER_LIMIT }
        ensures book { IfOk result (λ session. session.catalog ≡ book) }
        ensures tables { IfOk result (λ session. session.tables ≡ tables.items) }
        ensures views { IfOk result (λ session. session.views ≡ opened_views (workbook_image book tables.items)) }
        ensures splits { IfOk result (λ session. session.splits ≡ splits_of (workbook_image book tables.items)) }
        ensures cubes { IfOk result (λ session. session.cubes ≡ all_cubes (workbook_image book tables.items)) }
        ensures brushes { IfOk result (λ session. session.brushes ≡ []) }
        ensures contents { IfOk result (λ session. session.contents ≡ map (λ w. None) (upto (length session.views))) }
        ensures keeps { IfOk result IsSession }
        ensures mode { IfOk result (λ session. session.mode ≡ mode) }
        ensures workers { IfOk result (λ session. session.workers ≡ workers) }
        ensures none { OnOk result (first_view_fault (workbook_image book tables.items) ≡ None) }
        ensures fault { IfErr result (λ e. IsStartFault e (first_view_fault (workbook_image book tables.items))) }
        ensures looks { steps.new ≤ steps.old + start_looks (workbook_image book tables.items) }
    {
        let crew = Workers { gate, workers };
        let work = Work {
            rt,
            alloc,
            crew: &crew,
        };
        let begun = begin(&work, mode, &book, tables.as_slice(), steps)?;
        Ok(Session {
            book,
            tables,
            views: begun.views,
            splits: begun.extras.splits,
            cubes: begun.extras.cubes,
            brushes: Brushes::new(alloc),
            contents: begun.contents,
            mode,
            workers,
        })
    }

    /// The session that has exactly these parts. It makes no look.
    pub fn from_parts(parts: Parts) -> Session
        requires keeps { IsSession (parts_image parts) }
        ensures session { result ≡ parts_image parts }
    {
        let Parts {
            book,
            tables,
            views,
            splits,
            cubes,
            brushes,
            now,
            mode,
            workers,
        } = parts;
        Session {
            book,
            tables,
            views,
            splits,
            cubes,
            brushes: Brushes::from_vec(brushes),
            contents: now,
            mode,
            workers,
        }
    }

    /// The parts of the session; what is so of every session is so of them. It makes no look.
    pub fn into_parts(self) -> Parts
        ensures parts { parts_image result ≡ self }
        ensures keeps { IsSession self }
    {
        let Session {
            book,
            tables,
            views,
            splits,
            cubes,
            brushes,
            contents,
            mode,
            workers,
        } = self;
        Parts {
            book,
            tables,
            views,
            splits,
            cubes,
            brushes: brushes.into_vec(),
            now: contents,
            mode,
            workers,
        }
    }

    /// The first content of the view with this number.
    pub fn first(&self, view: u32) -> &Rel
        requires { view < length self.now.catalog.views }
        ensures rows { result.now ≡ (opened (workbook_of self.now) view).rel }
    {
        &self.views[view as usize].rel
    }

    /// The book.
    pub fn catalog(&self) -> &Catalog
        ensures book { result.now ≡ self.now.catalog }
        ensures checked { IsCatalog (catalog_image self.now.catalog) }
    {
        self.book.catalog()
    }

    /// Who does its work, at this gate.
    pub fn crew<'g, G: Gate + Sync>(&self, gate: &'g G) -> Workers<'g, G>
        ensures gate { result.gate.now ≡ gate.now }
        ensures workers { result.workers ≡ self.now.workers }
    {
        Workers {
            gate,
            workers: self.workers,
        }
    }

    // What a line reads of it.
    fn lent(&self) -> Lent<'_>
        ensures held { IsLent result }
        ensures catalog { book_of result ≡ catalog_image self.now.catalog }
        ensures state { state_lent result ≡ state_of self.now }
        ensures tables { result.tables.now ≡ self.now.tables }
        ensures contents { result.contents.now ≡ self.now.contents }
    {
        Lent {
            catalog: self.book.catalog(),
            tables: self.tables.as_slice(),
            views: self.views.as_slice(),
            splits: self.splits.as_slice(),
            cubes: self.cubes.as_slice(),
            brushes: self.brushes.as_slice(),
            contents: self.contents.as_slice(),
        }
    }

    /// The number of rows of the table with this number. It makes no look.
    pub fn table_len(&self, table: u32) -> u32
        requires { table < length self.now.catalog.tables }
        ensures { result ≡ length (rows_of_table (state_of self.now) table) }
    {
        self.tables[table as usize].len()
    }

    /// The rids of the rows that a `back` line asks for, all that its marks came from or those with a value, with its view and its table; or its refusal. It makes no look.
    pub fn rows_behind(
        &self,
        alloc: Global,
        view: &Text,
        marks: &Marks,
        table: &Text,
        then: &Then,
    ) -> Result<RowsBehind, Turned>
        requires { AsksRows then.now }
        ensures found { FindsBehind (catalog_image self.now.catalog) (state_of self.now) (lines.Back view.now marks.now table.now then.now) result }
        ensures fits { IfOk result (BehindFits self.now.catalog self.now.tables) }
    {
        let asked = Query {
            view,
            marks,
            table,
            then,
        };
        rids_behind(alloc, &self.lent(), &asked)
    }

    /// The rids of a table that are selected now for a view, ascending: those in every brush that concerns it. None if no brush concerns it: then all rows are selected. It makes no look.
    pub fn selected_for(
        &self,
        alloc: Global,
        view: u32,
        table: u32,
    ) -> Result<Option<Rids>, AllocError>
        requires { table < length self.now.catalog.tables }
        ensures selected { IfOk result (λ rids. rids_or_all rids (length (rows_of_table (state_of self.now) table)) ≡ sessions.selected_for (catalog_image self.now.catalog) (state_of self.now) view table) }
        ensures fit { IfOk result (λ rids. IfSome rids (RidsFit (length (rows_of_table (state_of self.now) table)))) }
    {
        selected(alloc, &self.lent(), Some(view), table)
    }

    /// The rids of a table that every brush on it has, ascending. None if no brush is on it: then all rows are selected. It makes no look.
    pub fn selected_on(&self, alloc: Global, table: u32) -> Result<Option<Rids>, AllocError>
        requires { table < length self.now.catalog.tables }
        ensures selected { IfOk result (λ rids. rids_or_all rids (length (rows_of_table (state_of self.now) table)) ≡ selected_on (state_of self.now) table) }
        ensures fit { IfOk result (λ rids. IfSome rids (RidsFit (length (rows_of_table (state_of self.now) table)))) }
    {
        selected(alloc, &self.lent(), None, table)
    }

    /// The rows of a table at these rids, one look each.
    pub fn rows_at<L: Ledger>(
        &self,
        alloc: Global,
        table: u32,
        rids: &[u32],
        steps: &mut Steps<L>,
    ) -> Result<Rel, AllocError>
        requires table { table < length self.now.catalog.tables }
        requires rids { RidsFit (length (rows_of_table (state_of self.now) table)) rids.now }
        ensures rows { IfOk result (λ rel. rel ≡ replies.rows_at_rids (catalog_image self.now.catalog) (state_of self.now) table rids.now) }
        ensures looks { steps.new ≤ steps.old + length rids.now }
    {
        fetch_rids(alloc, &self.tables[table as usize], rids, steps)
    }

    /// The answer to a line, and what it changes, which is nothing if it is refused. The session stays as it is. Each row of a table in the answer is one look, but none is made for rows without the value that is asked for, nor for groups of a declared grouping; each row that is selected for a view that follows a brush is one look, too. With several workers two views or more that follow are evaluated at the same time, once the rows of all are selected: the i-th of them, from 0, passes the gate with i; one alone is made in pieces, as by `start`.
    pub fn turn<R: Threads + Sync, G: Gate + Sync, L: Ledger>(
        &self,
        rt: &R,
        alloc: Global,
        line: &Line,
        gate: &G,
        steps: &mut Steps<L>,
    ) -> Result<Turn, AllocError>
        ensures reply { IfOk result (λ turn. (turn.reply, state_turned self.now turn) ≡ replies.reply (catalog_image self.now.catalog) (state_of self.now) line.now) }
        ensures fits { IfOk result (IsTurnOf self.now) }
        ensures looks { steps.new ≤ steps.old + line_looks (catalog_image self.now.catalog) (state_of self.now) line.now }
    {
        self.turn_told(rt, alloc, line, true, gate, steps)
    }

    /// Like `turn`, but the reply to a brush has no rids, and that to a brush or to the end of one has no marks of the linked views. None of these lists is made for the reply.
    pub fn turn_briefly<R: Threads + Sync, G: Gate + Sync, L: Ledger>(
        &self,
        rt: &R,
        alloc: Global,
        line: &Line,
        gate: &G,
        steps: &mut Steps<L>,
    ) -> Result<Turn, AllocError>
        ensures told { IfOk result (λ turn. IsTold false turn (replies.reply (catalog_image self.now.catalog) (state_of self.now) line.now).0) }
        ensures next { IfOk result (λ turn. state_turned self.now turn ≡ (replies.reply (catalog_image self.now.catalog) (state_of self.now) line.now).1) }
        ensures fits { IfOk result (IsTurnOf self.now) }
        ensures looks { steps.new ≤ steps.old + line_looks (catalog_image self.now.catalog) (state_of self.now) line.now }
    {
        self.turn_told(rt, alloc, line, false, gate, steps)
    }

    // The answer to a line, with the lists of the reply to a brush or without them, and what it changes.
    fn turn_told<R: Threads + Sync, G: Gate + Sync, L: Ledger>(
        &self,
        rt: &R,
        alloc: Global,
        line: &Line,
        listed: bool,
        gate: &G,
        steps: &mut Steps<L>,
    ) -> Result<Turn, AllocError>
        ensures told { IfOk result (λ turn. IsTold listed turn (replies.reply (catalog_image self.now.catalog) (state_of self.now) line.now).0) }
        ensures next { IfOk result (λ turn. state_turned self.now turn ≡ (replies.reply (catalog_image self.now.catalog) (state_of self.now) line.now).1) }
        ensures fits { IfOk result (IsTurnOf self.now) }
        ensures looks { steps.new ≤ steps.old + line_looks (catalog_image self.now.catalog) (state_of self.now) line.now }
    {
        let crew = self.crew(gate);
        let work = Work {
            rt,
            alloc,
            crew: &crew,
        };
        let held = self.lent();
        match answer_to(&work, &held, line, listed, steps) {
            Ok(turn) => Ok(turn),
            Err(Turned::Refused(refusal)) => Ok(Turn {
                reply: Reply::Refused(refusal),
                count: 0,
                change: None,
            }),
            Err(Turned::Exhausted) => Err(AllocError),
        }
    }

    /// Takes a turn: puts what it changes in force, and gives its reply. It makes no look. After the turn of a line that is refused, and after one that doesn't change the state, the session is as it was.
    pub fn take(&mut self, turn: Turn) -> Reply
        requires fits { IsTurnOf self.old turn }
        ensures reply { result ≡ turn.reply }
        ensures state { state_of self.new ≡ state_turned self.old turn }
        ensures refused { replies.is_refused turn.reply ≡ true → self.new ≡ self.old }
        ensures same { state_of self.new ≡ state_of self.old → self.new ≡ self.old }
        ensures book { self.new.catalog ≡ self.old.catalog }
        ensures tables { self.new.tables ≡ self.old.tables }
        ensures views { self.new.views ≡ self.old.views }
        ensures splits { self.new.splits ≡ self.old.splits }
        ensures cubes { self.new.cubes ≡ self.old.cubes }
        ensures contents { self.new.contents ≡ contents_kept (catalog_image self.old.catalog) (state_turned self.old turn) }
        ensures mode { self.new.mode ≡ self.old.mode }
        ensures workers { self.new.workers ≡ self.old.workers }
    {
        let Turn { reply, change, .. } = turn;
        match change {
            None => reply,
            Some(change) => {
                place(self.contents.as_mut_slice(), change.contents);
                self.brushes = change.brushes;
                reply
            }
        }
    }

    /// The reply to a line, after which the brushes in force are those of the next state. The looks and the work are those of `turn`. After an error, after a line that is refused, and after one that doesn't change the state, the session is as it was.
    pub fn answer<R: Threads + Sync, G: Gate + Sync, L: Ledger>(
        &mut self,
        rt: &R,
        alloc: Global,
        line: &Line,
        gate: &G,
        steps: &mut Steps<L>,
    ) -> Result<Reply, AllocError>
        ensures reply { IfOk result (λ told. (told, state_of self.new) ≡ replies.reply (catalog_image self.old.catalog) (state_of self.old) line.now) }
        ensures refused { IfOk result (λ told. replies.is_refused told ≡ true → self.new ≡ self.old) }
        ensures same { state_of self.new ≡ state_of self.old → self.new ≡ self.old }
        ensures book { self.new.catalog ≡ self.old.catalog }
        ensures tables { self.new.tables ≡ self.old.tables }
        ensures views { self.new.views ≡ self.old.views }
        ensures splits { self.new.splits ≡ self.old.splits }
        ensures cubes { self.new.cubes ≡ self.old.cubes }
        ensures contents { IfOk result (λ _. self.new.contents ≡ contents_kept (catalog_image self.old.catalog) (state_of self.new)) }
        ensures mode { self.new.mode ≡ self.old.mode }
        ensures workers { self.new.workers ≡ self.old.workers }
        ensures kept { OnErr result (self.new ≡ self.old) }
        ensures looks { steps.new ≤ steps.old + line_looks (catalog_image self.old.catalog) (state_of self.old) line.now }
    {
        let turn = self.turn(rt, alloc, line, gate, steps)?;
        Ok(self.take(turn))
    }
}
