// The tables of the files that the lines of a script append.
ghost use Rattle.std.specs.{Prelude.{◌≡◌, ◌≤◌, ◌++◌, true, is_some, List, All, IfOk, IfErr, OnOk, OnErr}, Option.option_to_list};
ghost use Rattle.smk_base.specs.{CatalogImage.catalog_image, Trees.AppendedLine};
ghost use Rattle.smk_model.specs.{Catalogs.each_table_kinds, Lines.lines, Outcome.{appended, appended_at, appended_by}, Readings.AreReadings, Selection.{each_kinds, each_rows}, Tables.AreColumns};
ghost use Rattle.smk_model.specs.Readings as readings;
ghost use Rattle.smk_outside.specs.Outside.{Rose};
ghost use Rattle.smk_inputs.specs.{Added.BringTables, Image.reading_image, Collecting.{Loads, IsSayable}, declared.stop.Stop.TheVariants.Exhausted as exhausted};

use crate::engine::Engine;
use crate::loading::load;
use crate::script::{Reading, reading_of};
use crate::settings::Settings;
use crate::stop::Stop;
use smk_base::{AnyLine, Catalog, Text};
use smk_outside::{Files, Gate};
use smk_parse::line_at;
use smk_table::Table;
use std::collections::VecDeque;
use std::thread::Threads;

// The table of the file that a line appends to the table of this name, where the book has it. Where it hasn't, nothing is read.
fn bring_rows<R: Threads + Sync, F: Files, G: Gate + Sync>(
    engine: &Engine<'_, R, G>,
    settings: Settings,
    files: &mut F,
    catalog: &Catalog,
    table: &Text,
    file: &Text,
) -> Result<Option<Table>, Stop>
    requires { All (λ info. AreColumns info.cols) catalog.now.tables }
    ensures read { Loads (F.held files.old) (Rose (F.faults files.old) (F.faults files.new)) (option_to_list (appended_by (catalog_image catalog.now) (AppendedLine table.now file.now)))
        (λ brought. each_rows (option_to_list brought)) result }
    ensures kinds { IfOk result (λ brought. each_kinds (option_to_list brought) ≡ each_table_kinds (option_to_list (appended_by (catalog_image catalog.now) (AppendedLine table.now file.now)))) }
    ensures asked { OnErr result (is_some (appended_by (catalog_image catalog.now) (AppendedLine table.now file.now)) ≡ true) }
    ensures said { IsSayable result }
    ensures held { F.held files.new ≡ F.held files.old }
    ensures later { F.faults files.old ≤ F.faults files.new }
{
    match catalog.table_place(table) {
        Some(t) => {
            let info = &catalog.tables.as_slice()[t];
            let rows = load(engine, settings, files, file, info)?;
            Ok(Some(rows))
        }
        None => Ok(None),
    }
}

/// The table that a line brings, if it brings one. A file is read only if the line appends to a table of the book.
pub fn bring<R: Threads + Sync, F: Files, G: Gate + Sync>(
    engine: &Engine<'_, R, G>,
    settings: Settings,
    files: &mut F,
    catalog: &Catalog,
    reading: &Reading,
) -> Result<Option<Table>, Stop>
    requires { All (λ info. AreColumns info.cols) catalog.now.tables }
    ensures read { Loads (F.held files.old) (Rose (F.faults files.old) (F.faults files.new)) (option_to_list (appended_at (catalog_image catalog.now) (reading_image reading.now)))
        (λ brought. each_rows (option_to_list brought)) result }
    ensures kinds { IfOk result (λ brought. each_kinds (option_to_list brought) ≡ each_table_kinds (option_to_list (appended_at (catalog_image catalog.now) (reading_image reading.now)))) }
    ensures asked { OnErr result (is_some (appended_at (catalog_image catalog.now) (reading_image reading.now)) ≡ true) }
    ensures said { IsSayable result }
    ensures held { F.held files.new ≡ F.held files.old }
    ensures later { F.faults files.old ≤ F.faults files.new }
{
    match reading {
        Reading::Asks(AnyLine::Append { table, file }) => {
            bring_rows(engine, settings, files, catalog, table, file)
        }
        Reading::Asks(AnyLine::Plain(_) | AnyLine::Ask(_) | AnyLine::Profile { .. })
        | Reading::Nothing
        | Reading::Unread(_) => Ok(None),
    }
}

// Puts the table that a line brings after those of the lines before it.
fn keep(added: &mut VecDeque<Table>, brought: Option<Table>) -> Result<(), Stop>
    ensures kept { OnOk result (added.new.items ≡ added.old.items ++ option_to_list brought) }
    ensures wants { IfErr result (λ stop. stop ≡ exhausted) }
{
    if let Some(table) = brought {
        added.push_back(table)?;
    }
    Ok(())
}

/// The tables that the lines of a script bring, line by line. Nothing else is kept of the lines.
pub fn read_added<R: Threads + Sync, F: Files, G: Gate + Sync>(
    engine: &Engine<'_, R, G>,
    settings: Settings,
    files: &mut F,
    catalog: &Catalog,
    script: &[u8],
) -> Result<VecDeque<Table>, Stop>
    requires { All (λ info. AreColumns info.cols) catalog.now.tables }
    ensures read { (said : List readings.Reading) → AreReadings (lines script.now) said
        → Loads (F.held files.old) (Rose (F.faults files.old) (F.faults files.new)) (appended (catalog_image catalog.now) said) (λ added. each_rows added.items) result }
    ensures fits { IfOk result (λ added. BringTables (catalog_image catalog.now) (lines script.now) added.items) }
    ensures said { IsSayable result }
    ensures held { F.held files.new ≡ F.held files.old }
    ensures later { F.faults files.old ≤ F.faults files.new }
{
    let mut added = VecDeque::new(engine.alloc);
    let mut from = 0;
    while let Some(span) = line_at(script, from) {
        let reading = reading_of(engine.alloc, &script[span.start..span.end])?;
        let found = bring(engine, settings, files, catalog, &reading);
        drop(reading);
        let brought = found?;
        keep(&mut added, brought)?;
        from = span.next;
    }
    Ok(added)
}
