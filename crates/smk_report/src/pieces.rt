// The texts of many rows, which are written in pieces, in threads.
ghost use Rattle.std.specs.{Prelude.{◌≡◌, ◌<◌, ◌≤◌, ◌++◌, length, map, IfOk, IfSome, OnOk}, List.{AllZip, flat_map, range_with_len}};
ghost use Rattle.smk_base.specs.{CatalogImage.catalog_image, declared.workers.TheConstants.WORKER_LIMIT};
ghost use Rattle.smk_model.specs.ReplyTexts as replies;
ghost use Rattle.smk_model.specs.Texts as texts;
ghost use Rattle.smk_report.specs.PieceTexts.{IsPiece, number_in};

use crate::lookup::{table_named, view_named};
use crate::replies::reply_text;
use crate::texts::{
    back_line, numbered_lines, page_for, rids_text, view_line, view_text, with_header,
    with_table_header,
};
use smk_base::{Catalog, ColDecls, Line, ListOf, Rel, Reply, Rids, Text, numbers_below};
use smk_jobs::{cut_range, each_or_first};
use std::alloc::{AllocError, Global};
use std::thread::Threads;

// How many rows a piece has at least, so that a text of some thousand rows starts no thread.
const PIECE_ROWS: u32 = 16_384;

// How many pieces so many rows are written in: at most one for each worker.
fn piece_count(workers: u32, rows: u32) -> u32
    requires { 1 ≤ workers }
    ensures some { 1 ≤ result }
    ensures few { result ≤ workers }
{
    workers.min(rows / PIECE_ROWS).max(1)
}

// The records of the rows of piece p of so many, with the rids at their places where rids are given, and else with their places.
fn piece_text(
    alloc: Global,
    rids: Option<&[u32]>,
    rel: &Rel,
    count: u32,
    p: u32,
) -> Result<Vec<u8>, AllocError>
    requires rids { IfSome rids (λ given. length given.now ≡ length rel.now.rows) }
    requires few { count ≤ WORKER_LIMIT }
    requires piece { p < count }
    ensures { IfOk result (λ text. IsPiece (number_in rids.entry) rel.now.rows count p text.items) }
{
    let (from, to) = cut_range(count, rel.len(), p);
    let mut page = page_for(Vec::new(alloc), rel.width(), to - from)?;
    numbered_lines(&mut page, rids, rel, from, to - from)?;
    page.finish()
}

// The texts of so many pieces, all written at once.
fn piece_texts<R: Threads + Sync>(
    rt: &R,
    alloc: Global,
    rids: Option<&[u32]>,
    rel: &Rel,
    count: u32,
) -> Result<Vec<Vec<u8>>, AllocError>
    requires rids { IfSome rids (λ given. length given.now ≡ length rel.now.rows) }
    requires some { 1 ≤ count }
    requires few { count ≤ WORKER_LIMIT }
    ensures { IfOk result (λ made. AllZip (λ p text. IsPiece (number_in rids.entry) rel.now.rows count p text.items) (range_with_len 0 count) made.items) }
{
    let places = numbers_below(alloc, count)?;
    each_or_first(
        rt,
        alloc,
        count,
        places,
        &|p: u32| -> Result<Vec<u8>, AllocError>
            requires { IfSome rids (λ given. length given.now ≡ length rel.now.rows) × (count ≤ WORKER_LIMIT) × (p < count) }
            ensures { IfOk result (λ text. IsPiece (number_in rids.entry) rel.entry.now.rows count p text.items) }
        { piece_text(alloc, rids, rel, count, p) },
    )
}

// How many bytes texts have together, or as many as can be said.
fn total_len(texts: &[Vec<u8>]) -> usize {
    let mut total = 0usize;
    for text in texts {
        total = total.saturating_add(text.len());
    }
    total
}

// Writes texts at the end of a text, one after the other, and lets go of each. After an error the text is of no use.
fn add_texts(text: &mut Vec<u8>, pieces: Vec<Vec<u8>>) -> Result<(), AllocError>
    ensures { OnOk result (text.new.items ≡ text.old.items ++ flat_map (λ piece. piece.items) pieces.items) }
{
    for piece in pieces {
        text.extend_from_slice(piece.as_slice())?;
    }
    Ok(())
}

// A text with the records of all rows behind it, written in so many pieces, with the rids at their places where rids are given, and else with their places.
fn with_pieces<R: Threads + Sync>(
    rt: &R,
    alloc: Global,
    count: u32,
    front: Vec<u8>,
    rids: Option<&[u32]>,
    rel: &Rel,
) -> Result<Vec<u8>, AllocError>
    requires rids { IfSome rids (λ given. length given.now ≡ length rel.now.rows) }
    requires some { 1 ≤ count }
    requires few { count ≤ WORKER_LIMIT }
    ensures { IfOk result (λ text. text.items ≡ front.items ++ texts.row_lines (number_in rids.entry) rel.now.rows) }
{
    let pieces = piece_texts(rt, alloc, rids, rel, count)?;
    let mut text = front;
    text.reserve(total_len(pieces.as_slice()))?;
    add_texts(&mut text, pieces)?;
    Ok(text)
}

/// The text of a view as `view_text` has it. The records of many rows are written in threads, in at most `workers` pieces, which are then joined, so that the text and its pieces are held at once.
pub fn view_text_in_pieces<R: Threads + Sync>(
    rt: &R,
    alloc: Global,
    workers: u32,
    name: &Text,
    columns: &ListOf<Text>,
    rel: &Rel,
) -> Result<Vec<u8>, AllocError>
    requires some_workers { 1 ≤ workers }
    requires few_workers { workers ≤ WORKER_LIMIT }
    requires names { length columns.now ≡ length rel.now.kinds }
    ensures { IfOk result (λ text. text.items ≡ texts.view_text name.now columns.now rel.now.rows) }
{
    let count = piece_count(workers, rel.len());
    if count == 1 {
        return view_text(alloc, name, columns, rel);
    }
    let front = view_line(alloc, name, rel.len())?;
    let headed = with_header(front, columns)?;
    with_pieces(rt, alloc, count, headed, None, rel)
}

// The text of a backward answer as `rids_text` has it, written as that of a view is.
fn rids_text_in_pieces<R: Threads + Sync>(
    rt: &R,
    alloc: Global,
    workers: u32,
    view: &Text,
    table: &Text,
    columns: &ColDecls,
    rids: &Rids,
    rel: &Rel,
) -> Result<Vec<u8>, AllocError>
    requires some_workers { 1 ≤ workers }
    requires few_workers { workers ≤ WORKER_LIMIT }
    requires rids { length rids.now ≡ length rel.now.rows }
    ensures { IfOk result (λ text. text.items ≡ texts.back_text view.now table.now (map (λ column. column.name) columns.now) rids.now rel.now.rows) }
{
    let count = piece_count(workers, rel.len());
    if count == 1 {
        return rids_text(alloc, view, table, columns, rids, rel);
    }
    let front = back_line(alloc, view, table, rel.len())?;
    let headed = with_table_header(alloc, front, columns)?;
    with_pieces(rt, alloc, count, headed, Some(rids.as_slice()), rel)
}

/// The text of a reply to a line of a script as `reply_text` has it. The records of many rows are written in threads, as `view_text_in_pieces` writes those of a view.
pub fn reply_text_in_pieces<R: Threads + Sync>(
    rt: &R,
    alloc: Global,
    workers: u32,
    cat: &Catalog,
    line: &Line,
    reply: &Reply,
) -> Result<Vec<u8>, AllocError>
    requires some_workers { 1 ≤ workers }
    requires few_workers { workers ≤ WORKER_LIMIT }
    requires reply { replies.IsReplyTo (catalog_image cat.now) line.now reply.now }
    ensures { IfOk result (λ text. text.items ≡ replies.reply_text (catalog_image cat.now) line.now reply.now) }
{
    match (line, reply) {
        (Line::Show { view }, Reply::View { rel }) => match view_named(cat, view) {
            Some(info) => view_text_in_pieces(rt, alloc, workers, view, &info.names, rel),
            None => unreachable!(),
        },
        (Line::Back { view, table, .. }, Reply::Back { rids, rows }) => {
            match table_named(cat, table) {
                Some(info) => {
                    rids_text_in_pieces(rt, alloc, workers, view, table, &info.cols, rids, rows)
                }
                None => unreachable!(),
            }
        }
        _ => reply_text(alloc, cat, line, reply),
    }
}
