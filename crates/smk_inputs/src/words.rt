// The words of a run and of a conversation, as clap takes them.
ghost use Rattle.std.specs.{Prelude.{◌≡◌, ◌≤◌, IfOk, IfSome, true, false, map}, Option.option_map};
ghost use Rattle.clap.specs.Words.{app_of, is_simple_and_free, rule_of, new_rule};
ghost use Rattle.smk_model.specs.TalkWords as talks;
ghost use Rattle.smk_model.specs.Words as calls;
ghost use Rattle.smk_inputs.specs.{Image.{invocation_image, mode_image, settings_image, talk_image, texts_image}, WordsTaken.{MatchesOf, values_of}};

use crate::called::{Flights, RunTexts, RunWords, TalkWords};
use crate::settings::Settings;
use clap::builder::ValueParser;
use clap::error::ErrorKind;
use clap::{Arg, ArgAction, ArgMatches, Command};
use smk_base::{Text, WORKER_LIMIT, read_int};
use smk_session::Mode;
use std::alloc::{AllocError, Global};

// The most workers that a run may have, as the number that clap reads.
const MOST_WORKERS: i64 = WORKER_LIMIT as i64;

// The most flights that a demo may have.
const MOST_FLIGHTS: i64 = 200_000;

// The option `--mode`.
fn mode_arg<'a>(alloc: Global) -> Arg<'a>
    ensures rule { rule_of result ≡ calls.mode_rule }
    ensures local { result.global ≡ false }
{
    Arg::new(alloc, "mode").long("mode").default_value("inject")
}

// The option `--workers`.
fn workers_arg<'a>(alloc: Global) -> Arg<'a>
    ensures rule { rule_of result ≡ calls.workers_rule }
    ensures local { result.global ≡ false }
{
    Arg::new(alloc, "workers")
        .long("workers")
        .value_parser(ValueParser::Signed(1, MOST_WORKERS))
        .default_value("1")
}

// The option `--demo`.
fn demo_arg<'a>(alloc: Global) -> Arg<'a>
    ensures rule { rule_of result ≡ calls.demo_rule }
    ensures local { result.global ≡ false }
{
    Arg::new(alloc, "demo")
        .long("demo")
        .value_parser(ValueParser::Signed(1, MOST_FLIGHTS))
}

// A place of this name.
fn place_arg<'a>(alloc: Global, name: &'a str) -> Arg<'a>
    ensures rule { rule_of result ≡ new_rule name.entry.now }
    ensures local { result.global ≡ false }
{
    Arg::new(alloc, name)
}

// The command of a run: its options, and then its places.
fn smoke_command<'a>(alloc: Global) -> Result<Command<'a>, AllocError>
    ensures { IfOk result (λ command. app_of command ≡ calls.smoke_app) }
{
    let plain = Command::new(alloc, "smoke").no_binary_name(true);
    let with_mode = plain.arg(mode_arg(alloc))?;
    let with_workers = with_mode.arg(workers_arg(alloc))?;
    let with_demo = with_workers.arg(demo_arg(alloc))?;
    let with_book = with_demo.arg(place_arg(alloc, "book"))?;
    let with_script = with_book.arg(place_arg(alloc, "script"))?;
    Ok(with_script)
}

// The option `--read-only`.
fn read_only_arg<'a>(alloc: Global) -> Arg<'a>
    ensures rule { rule_of result ≡ talks.read_only_rule }
    ensures local { result.global ≡ false }
{
    Arg::new(alloc, "read-only")
        .long("read-only")
        .action(ArgAction::SetTrue)
}

// The option `--brief`.
fn brief_arg<'a>(alloc: Global) -> Arg<'a>
    ensures rule { rule_of result ≡ talks.brief_rule }
    ensures local { result.global ≡ false }
{
    Arg::new(alloc, "brief")
        .long("brief")
        .action(ArgAction::SetTrue)
}

// The command of a conversation: its options, and then its place.
fn talk_command<'a>(alloc: Global) -> Result<Command<'a>, AllocError>
    ensures { IfOk result (λ command. app_of command ≡ talks.talk_app) }
{
    let plain = Command::new(alloc, "smoke_live").no_binary_name(true);
    let with_mode = plain.arg(mode_arg(alloc))?;
    let with_workers = with_mode.arg(workers_arg(alloc))?;
    let with_demo = with_workers.arg(demo_arg(alloc))?;
    let with_read_only = with_demo.arg(read_only_arg(alloc))?;
    let with_brief = with_read_only.arg(brief_arg(alloc))?;
    let with_book = with_brief.arg(place_arg(alloc, "book"))?;
    Ok(with_book)
}

// What clap makes of the words for a command, or none where it doesn't take them.
fn matches_in<'a>(
    command: Command<'a>,
    words: &'a [&'a str],
) -> Result<Option<ArgMatches<'a>>, AllocError>
    requires simple { is_simple_and_free (app_of command) ≡ true }
    ensures { IfOk result (MatchesOf (app_of command.entry) (map (λ w. w.now) words.entry.now)) }
{
    match command.try_get_matches_from(words) {
        Ok(matches) => Ok(Some(matches)),
        Err(e) => match e.kind() {
            ErrorKind::OutOfMemory => Err(AllocError),
            _ => Ok(None),
        },
    }
}

// The mode of a name.
fn mode_of(name: &str) -> Option<Mode>
    ensures { option_map mode_image result ≡ calls.mode_named name.now }
{
    match name {
        "inject" => Some(Mode::Inject),
        "defer" => Some(Mode::Defer),
        _ => None,
    }
}

// So many workers, unless there may not be so many.
fn workers_counted(number: i64) -> Option<u32>
    ensures counted { result ≡ calls.workers_counted number }
    ensures some { IfSome result (λ workers. 1 ≤ workers) }
    ensures few { IfSome result (λ workers. workers ≤ WORKER_LIMIT) }
{
    if number < 1 || number > MOST_WORKERS {
        return None;
    }
    Some(number as u32)
}

// The settings, unless the mode isn't known or there may not be so many workers.
fn settings_of(matches: &ArgMatches<'_>) -> Option<Settings>
    ensures { option_map settings_image result ≡ calls.settings_in (values_of matches.now) }
{
    let mode = mode_of(matches.get_str("mode")?)?;
    let number = read_int(matches.get_str("workers")?.as_bytes())?;
    let workers = workers_counted(number)?;
    Some(Settings { mode, workers })
}

/// A text of these bytes.
pub fn text_of(alloc: Global, bytes: &[u8]) -> Result<Text, AllocError>
    ensures { IfOk result (λ text. text ≡ bytes.now) }
{
    Ok(Text::from_vec(Vec::from_slice(alloc, bytes)?))
}

// The bytes of a word where there is one.
fn text_if_any(alloc: Global, word: Option<&str>) -> Result<Option<Text>, AllocError>
    ensures { IfOk result (λ text. text ≡ option_map (λ w. w.now) word.entry) }
{
    match word {
        Some(word) => Ok(Some(text_of(alloc, word.as_bytes())?)),
        None => Ok(None),
    }
}

// The demo of a number of flights, unless there may not be so many.
fn demo_sized(number: i64) -> Option<RunTexts>
    ensures { option_map texts_image result ≡ calls.demo_sized number }
{
    if number < 1 || number > MOST_FLIGHTS {
        return None;
    }
    Some(RunTexts::Demo(Flights {
        count: number as u32,
    }))
}

// The texts that are asked for by the values of `--demo`, of the book and of the script: those of a demo or those of files, unless none or both are given.
fn texts_named(
    alloc: Global,
    number: Option<&str>,
    book: Option<&str>,
    script: Option<&str>,
) -> Result<Option<RunTexts>, AllocError>
    ensures { IfOk result (λ found. option_map texts_image found ≡ calls.texts_named (option_map (λ w. w.now) number.entry) (option_map (λ w. w.now) book.entry) (option_map (λ w. w.now) script.entry)) }
{
    match (number, book) {
        (None, Some(book)) => Ok(Some(RunTexts::Files {
            book: text_of(alloc, book.as_bytes())?,
            script: text_if_any(alloc, script)?,
        })),
        (Some(number), None) => Ok(match read_int(number.as_bytes()) {
            Some(number) => demo_sized(number),
            None => None,
        }),
        _ => Ok(None),
    }
}

// The texts that matches ask for.
fn texts_in(alloc: Global, matches: &ArgMatches<'_>) -> Result<Option<RunTexts>, AllocError>
    ensures { IfOk result (λ found. option_map texts_image found ≡ calls.texts_in (values_of matches.now)) }
{
    texts_named(
        alloc,
        matches.get_str("demo"),
        matches.get_str("book"),
        matches.get_str("script"),
    )
}

// What matches call a run for, unless the settings or the texts aren't said.
fn called_for(alloc: Global, matches: &ArgMatches<'_>) -> Result<Option<RunWords>, AllocError>
    ensures { IfOk result (λ found. option_map invocation_image found ≡ calls.invocation_in (values_of matches.now)) }
{
    let Some(settings) = settings_of(matches) else {
        return Ok(None);
    };
    match texts_in(alloc, matches)? {
        Some(texts) => Ok(Some(RunWords { settings, texts })),
        None => Ok(None),
    }
}

/// What the words of a run ask for; None if they aren't those of a run.
pub fn read_words(alloc: Global, words: &[&str]) -> Result<Option<RunWords>, AllocError>
    ensures { IfOk result (λ found. option_map invocation_image found ≡ calls.invocation_of (map (λ w. w.now) words.entry.now)) }
{
    match matches_in(smoke_command(alloc)?, words)? {
        Some(matches) => called_for(alloc, &matches),
        None => Ok(None),
    }
}

// What matches call a conversation for, unless the settings or the texts aren't said.
fn called_to_talk(alloc: Global, matches: &ArgMatches<'_>) -> Result<Option<TalkWords>, AllocError>
    ensures { IfOk result (λ found. option_map talk_image found ≡ talks.talk_call_in (values_of matches.now)) }
{
    let Some(settings) = settings_of(matches) else {
        return Ok(None);
    };
    let read_only = matches.get_str("read-only") == Some("true");
    let brief = matches.get_str("brief") == Some("true");
    match texts_named(
        alloc,
        matches.get_str("demo"),
        matches.get_str("book"),
        None,
    )? {
        Some(texts) => Ok(Some(TalkWords {
            settings,
            texts,
            read_only,
            brief,
        })),
        None => Ok(None),
    }
}

/// What the words of a conversation ask for; None if they aren't those of one.
pub fn read_talk_words(alloc: Global, words: &[&str]) -> Result<Option<TalkWords>, AllocError>
    ensures { IfOk result (λ found. option_map talk_image found ≡ talks.talk_call_of (map (λ w. w.now) words.entry.now)) }
{
    match matches_in(talk_command(alloc)?, words)? {
        Some(matches) => called_to_talk(alloc, &matches),
        None => Ok(None),
    }
}
