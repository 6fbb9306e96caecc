// Reads in order: the book, its tables, the script, the files that its lines append.
ghost use Rattle.std.specs.{Prelude.{◌≡◌, ◌≤◌, ℕ, List, Some, Ok, All, IfOk}, Option.option_copied};
ghost use Rattle.smk_base.specs.{CatalogImage.catalog_image, Marks.after_marks, declared.demo.TheConstants.{DEMO_BOOK_NAME, DEMO_SCRIPT_NAME}};
ghost use Rattle.smk_model.specs.{Catalogs.each_table_kinds, Demo.demo_of, Lines.lines, Profiles.AreDependencies, Outcome.{OpensBook, text_named}, Reports.BookSaid, Selection.each_kinds, Tables.AreColumns};
ghost use Rattle.smk_outside.specs.Outside.{Rose};
ghost use Rattle.smk_inputs.specs.{Added.BringTables, Loaded.{script_bytes, inputs_with, with_rest}, Collecting.{ReadsNamed, ReadsAll, IsSayable}};

use crate::adding::read_added;
use crate::called::Flights;
use crate::demo_texts::DemoTexts;
use crate::engine::Engine;
use crate::inputs::Inputs;
use crate::loading::load_all;
use crate::opening::{OpenedBook, open_book};
use crate::script::open_script;
use crate::settings::Settings;
use crate::stop::Stop;
use crate::words::text_of;
use smk_base::{Catalog, DEMO_BOOK_NAME, DEMO_SCRIPT_NAME, Text, without_mark};
use smk_demo::demo;
use smk_outside::{Files, Gate};
use smk_table::Table;
use std::collections::VecDeque;
use std::thread::Threads;

// The tables of a book, the bytes of a script, and the tables that its lines bring.
#[derive(Drop)]
struct Rest {
    tables: Vec<Table>,
    script: Vec<u8>,
    added: VecDeque<Table>,
}

// What is read after a book: its tables, the script, and the files that the lines of the script append.
fn read_rest<R: Threads + Sync, F: Files, G: Gate + Sync>(
    engine: &Engine<'_, R, G>,
    settings: Settings,
    files: &mut F,
    catalog: &Catalog,
    script: Option<&Text>,
) -> Result<Rest, Stop>
    requires { All (λ info. AreColumns info.cols) catalog.now.tables }
    ensures read { (book : List ℕ) (said : BookSaid) → said.catalog ≡ catalog_image catalog.now → ReadsNamed (F.held files.old) (Unit {0}) book (λ held. OpensBook held book) (λ opened. opened) (Ok said)
        → ReadsAll (F.held files.old) (Rose (F.faults files.old) (F.faults files.new)) book (option_copied script.entry) (with_rest said) (λ rest. rest.script.items) result }
    ensures kinds { IfOk result (λ rest. each_kinds rest.tables.items ≡ each_table_kinds catalog.now.tables) }
    ensures fits { IfOk result (λ rest. BringTables (catalog_image catalog.now) (lines (after_marks rest.script.items)) rest.added.items) }
    ensures said { IsSayable result }
    ensures held { F.held files.new ≡ F.held files.old }
    ensures later { F.faults files.old ≤ F.faults files.new }
{
    let infos = catalog.tables.as_slice();
    let tables = load_all(engine, settings, files, infos)?;
    let script = open_script(engine.alloc, files, script)?;
    let text = without_mark(script.as_slice());
    let added = read_added(engine, settings, files, catalog, text)?;
    Ok(Rest {
        tables,
        script,
        added,
    })
}

/// What is read of the book and the script with these names, or why that stops.
pub fn read_all<R: Threads + Sync, F: Files, G: Gate + Sync>(
    engine: &Engine<'_, R, G>,
    settings: Settings,
    files: &mut F,
    book: &Text,
    script: Option<&Text>,
) -> Result<Inputs, Stop>
    ensures read { ReadsAll (F.held files.old) (Rose (F.faults files.old) (F.faults files.new)) book.now (option_copied script.entry) inputs_with script_bytes result }
    ensures shown { IfOk result (λ inputs. AreDependencies (catalog_image inputs.book) inputs.fds) }
    ensures fits { IfOk result (λ inputs. BringTables (catalog_image inputs.book) (lines (after_marks inputs.script.items)) inputs.added.items) }
    ensures said { IsSayable result }
    ensures held { F.held files.new ≡ F.held files.old }
    ensures later { F.faults files.old ≤ F.faults files.new }
{
    let OpenedBook { book, fds } = open_book(engine.alloc, files, book)?;
    let rest = read_rest(engine, settings, files, book.catalog(), script)?;
    Ok(Inputs {
        book,
        fds,
        tables: rest.tables,
        script: rest.script,
        added: rest.added,
    })
}

/// What is read of the texts of a demo.
pub fn read_demo<R: Threads + Sync, G: Gate + Sync>(
    engine: &Engine<'_, R, G>,
    settings: Settings,
    flights: Flights,
) -> Result<Inputs, Stop>
    ensures read { ReadsAll (Some (text_named (demo_of flights.count))) (Rose 0 0) DEMO_BOOK_NAME.now (Some DEMO_SCRIPT_NAME.now) inputs_with script_bytes result }
    ensures shown { IfOk result (λ inputs. AreDependencies (catalog_image inputs.book) inputs.fds) }
    ensures fits { IfOk result (λ inputs. BringTables (catalog_image inputs.book) (lines (after_marks inputs.script.items)) inputs.added.items) }
    ensures said { IsSayable result }
{
    let mut texts = DemoTexts {
        texts: demo(engine.alloc, flights.count)?,
    };
    let book = text_of(engine.alloc, DEMO_BOOK_NAME)?;
    let script = text_of(engine.alloc, DEMO_SCRIPT_NAME)?;
    read_all(engine, settings, &mut texts, &book, Some(&script))
}
