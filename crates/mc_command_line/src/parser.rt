//! The words behind a command's, as `clap` reads them.
ghost use Rattle.std.specs.Prelude.{◌≡◌, [], codes, IfOk, map, option_map, string_bytes, unwrap_or};
ghost use Rattle.clap.specs.Matches.{found_of};
ghost use Rattle.clap.specs.Walk.{all_of, rows_of, rule_of};
ghost use Rattle.clap.specs.Simple.{app_of};
ghost use Rattle.mc_command_line.specs.Words.{Spoken as SpecSpoken, spoken_with};
ghost use Rattle.mc_command_line.specs.code.Parser.{IsFound, app, limit_rule, no_arguments, plain_options, plain_spoken, with_first_rule, with_limit_rules};
ghost use Rattle.mc_command_line.specs.Plain.{plain_texts};

use clap::error::ErrorKind;
use clap::{Arg, ArgAction, ArgMatches, Command};
use mc_base::Memory;
use std::alloc::{AllocError, Global};

/// Which options a command has.
#[derive(Clone, Copy)]
pub(crate) struct Options {
    pub(crate) first: bool,
    pub(crate) bounds: bool,
}

/// The words behind a command's: each option's value where the option stands, and the words that are no options.
#[derive(Drop)]
pub(crate) struct Spoken<'a> {
    pub(crate) first: bool,
    pub(crate) budget: Option<&'a str>,
    pub(crate) depth: Option<&'a str>,
    pub(crate) rest: Vec<&'a str>,
}

/// An option that has a value.
fn limit<'a>(alloc: Global, name: &'a str) -> Arg<'a>
    ensures { rule_of result ≡ limit_rule name.entry.now }
{
    Arg::new(alloc, name).long(name).action(ArgAction::Set)
}

/// A parser without arguments.
fn no_arguments<'a>(alloc: Global) -> Command<'a>
    ensures { app_of result ≡ no_arguments }
{
    Command::new(alloc, "merc")
        .no_binary_name(true)
        .disable_help_flag(true)
        .disable_version_flag(true)
}

/// The parser with `--first`, where the command has that option.
fn with_first<'a>(
    alloc: Global,
    parser: Command<'a>,
    has_first: bool,
) -> Result<Command<'a>, AllocError>
    ensures { IfOk result (λ command. app_of command ≡ with_first_rule has_first (app_of parser.entry)) }
{
    if !has_first {
        return Ok(parser);
    }
    let first = Arg::new(alloc, "first")
        .long("first")
        .action(ArgAction::SetTrue);
    parser.arg(first)
}

/// The parser with `--budget` and `--depth`, where the command has these options.
fn with_limits<'a>(
    alloc: Global,
    parser: Command<'a>,
    has_bounds: bool,
) -> Result<Command<'a>, AllocError>
    ensures { IfOk result (λ command. app_of command ≡ with_limit_rules has_bounds (app_of parser.entry)) }
{
    if !has_bounds {
        return Ok(parser);
    }
    let parser = parser.arg(limit(alloc, "budget"))?;
    parser.arg(limit(alloc, "depth"))
}

/// The parser of the words behind a command's.
fn parser<'a>(alloc: Global, options: Options) -> Result<Command<'a>, AllocError>
    ensures { IfOk result (λ command. app_of command ≡ app (plain_options options)) }
{
    let parser = with_first(alloc, no_arguments(alloc), options.first)?;
    let parser = with_limits(alloc, parser, options.bounds)?;
    let words = Arg::new(alloc, "words").action(ArgAction::Append);
    parser.arg(words)
}

/// The words of a parse that are no options.
fn rest<'a>(alloc: Global, matches: &ArgMatches<'a>) -> Result<Vec<&'a str>, AllocError>
    ensures { IfOk result
        (λ words.
        plain_texts words.items
        ≡ unwrap_or (all_of (codes "words") (rows_of (found_of matches.now))) []) }
{
    match matches.get_strs("words") {
        Some(words) => words.to_vec(alloc),
        None => Ok(Vec::new(alloc)),
    }
}

/// What a parse found.
fn found<'a>(alloc: Global, matches: &ArgMatches<'a>) -> Result<Spoken<'a>, AllocError>
    ensures { IfOk result
        (λ s. (t : SpecSpoken) → IsFound t (rows_of (found_of matches.now)) → plain_spoken s ≡ t) }
{
    let rest = rest(alloc, matches)?;
    Ok(Spoken {
        first: matches.get_flag("first"),
        budget: matches.get_str("budget"),
        depth: matches.get_str("depth"),
        rest,
    })
}

/// The words behind a command's, where they are the options that it has and words that are none.
pub(crate) fn read_spoken<'a>(
    alloc: Global,
    options: Options,
    words: &'a [String],
) -> Result<Option<Spoken<'a>>, Memory>
    ensures { IfOk result
        (λ s.
        option_map plain_spoken s
        ≡ spoken_with (plain_options options) (map string_bytes words.entry.now)) }
{
    let parser = parser(alloc, options)?;
    match parser.try_get_matches_from(words) {
        Ok(matches) => Ok(Some(found(alloc, &matches)?)),
        Err(error) => match error.kind() {
            ErrorKind::OutOfMemory => Err(Memory),
            _ => Ok(None),
        },
    }
}
