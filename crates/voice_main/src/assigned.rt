//! The numbers that clap assigns to the options of a `format`.

ghost use Rattle.std.specs.Prelude.{◌≡◌, ℕ, [], ◌∷◌, Some, None, IfOk, IfErr, IfSome, false, map, string_bytes};
ghost use Rattle.clap.specs.Words.{app_of, found_of, kind_of, one_text, rule_of};
ghost use Rattle.voice_main.specs.Commands.{number_rule, format_app, HasNumber, HasGrace, Assigns};
ghost use Rattle.voice_main.specs.declared.options.FormatNumbers.{FormatNumbers as NumbersValue};
ghost use Rattle.voice_main.specs.Words.{IsFormat};

use crate::options::FormatNumbers;
use clap::error::ErrorKind;
use clap::{Arg, ArgMatches, Command, Error, value_parser};
use std::alloc::{AllocError, Global};

// An option with a number, and no default.
fn bare_option<'a>(alloc: Global, name: &'a str) -> Arg<'a>
    ensures rule { rule_of result ≡ number_rule name.entry.now [] }
    ensures local { result.global ≡ false }
{
    Arg::new(alloc, name)
        .long(name)
        .value_parser(value_parser!(u32))
}

fn number_option<'a>(alloc: Global, name: &'a str, default: &'a str) -> Arg<'a>
    ensures rule { rule_of result ≡ number_rule name.entry.now (default.entry.now ∷ []) }
    ensures local { result.global ≡ false }
{
    bare_option(alloc, name).default_value(default)
}

// The command `format`, without subcommands, help or version.
fn format_command<'a>(alloc: Global) -> Result<Command<'a>, AllocError>
    ensures { IfOk result (λ command. app_of command ≡ format_app) }
{
    Command::new(alloc, "format")
        .disable_help_flag(true)
        .disable_version_flag(true)
        .arg(number_option(alloc, "block", "4096"))?
        .arg(number_option(alloc, "blocks", "15000"))?
        .arg(number_option(alloc, "area", "1048576"))?
        .arg(number_option(alloc, "grace", "86400"))?
        .arg(bare_option(alloc, "held"))?
        .arg(bare_option(alloc, "until"))?
        .arg(bare_option(alloc, "listed"))?
        .arg(number_option(alloc, "lanes", "8"))
}

// What clap finds in these words. It refuses accepted words only for want of memory.
fn format_matches<'a>(alloc: Global, words: &'a [String]) -> Result<ArgMatches<'a>, Error>
    ensures ok { (numbers : NumbersValue) → IsFormat (map string_bytes words.entry.now) numbers → IfOk result (λ matches. Assigns (found_of matches) numbers) }
    ensures err { (numbers : NumbersValue) → IsFormat (map string_bytes words.entry.now) numbers → IfErr result (λ e. kind_of e ≡ ErrorKind.OutOfMemory) }
{
    let command = format_command(alloc)?;
    command.try_get_matches_from(words)
}

fn number_of(matches: &ArgMatches<'_>, name: &str) -> Option<u32>
    ensures some { (n : ℕ) → HasNumber (found_of matches.now) name.now n → result ≡ Some n }
    ensures none { one_text (found_of matches.now) name.now ≡ None → result ≡ None }
{
    matches.get_one(name)
}

// The grace of a class, which is the common one where it has none.
fn grace_of(matches: &ArgMatches<'_>, name: &str, common: u32) -> u32
    ensures { (n : ℕ) → HasGrace (found_of matches.now) name.now common n → result ≡ n }
{
    number_of(matches, name).unwrap_or(common)
}

fn numbers_of(matches: &ArgMatches<'_>) -> Option<FormatNumbers>
    ensures { (numbers : NumbersValue) → Assigns (found_of matches.now) numbers → result ≡ Some numbers }
{
    let grace = number_of(matches, "grace")?;
    Some(FormatNumbers {
        block: number_of(matches, "block")?,
        blocks: number_of(matches, "blocks")?,
        area: number_of(matches, "area")?,
        grace,
        held: grace_of(matches, "held", grace),
        until: grace_of(matches, "until", grace),
        listed: grace_of(matches, "listed", grace),
        lanes: number_of(matches, "lanes")?,
    })
}

/// The numbers that clap assigns to the options of accepted words: those that the words give. `None` for want of memory.
pub fn assigned(alloc: Global, words: &[String]) -> Option<FormatNumbers>
    ensures { (numbers : NumbersValue) → IsFormat (map string_bytes words.now) numbers → IfSome result (λ n. n ≡ numbers) }
{
    let Ok(matches) = format_matches(alloc, words) else {
        return None;
    };
    numbers_of(&matches)
}
