//! The commands of the program, and the words that ask for them.

ghost use Rattle.std.specs.Prelude.{◌≡◌, false, map, string_bytes, Some, None, IfOk, IfSome, IfNone};
ghost use Rattle.clap.specs.Simple.{with_subcommand};
ghost use Rattle.clap.specs.Words.{app_of, subcommand_rows_of};
ghost use Rattle.clap.specs.declared.Command.TheViews.{out-Command as fields_of};
ghost use Rattle.command_line.specs.Words.{program as the_program, on_file as a_command_on_file, request_of, request_in, asked_by};

use clap::error::ErrorKind;
use clap::{Arg, ArgMatches};
use std::alloc::{AllocError, Global};

/// A command with what it is given.
#[derive(Clone, Copy, Debug, PartialEq, Eq)]
pub enum Command<'a> {
    /// Decide the obligations of a model.
    Prove { model: &'a str },
    /// Check the evidence of a file.
    Check { evidence: &'a str },
    /// Print a model in its one layout.
    Format { model: &'a str },
}

/// The command of this name, which is given the name of a file.
fn on_file<'a>(alloc: Global, name: &'a str) -> Result<clap::Command<'a>, AllocError>
    ensures shape { IfOk result (λ c. app_of c ≡ a_command_on_file name.entry.now) }
    ensures local { IfOk result (λ c. (fields_of c).has_globals ≡ false) }
{
    let file = Arg::new(alloc, "FILE").required(true);
    clap::Command::new(alloc, name).arg(file)
}

/// A program with one more command of this name, which is given the name of a file.
fn with_file_command<'a>(
    alloc: Global,
    program: clap::Command<'a>,
    name: &'a str,
) -> Result<clap::Command<'a>, AllocError>
    ensures { IfOk result (λ c. app_of c ≡ with_subcommand (app_of program.entry) (a_command_on_file name.entry.now).top) }
{
    let command = on_file(alloc, name)?;
    program.subcommand(command)
}

/// The commands of the program.
fn program<'a>(alloc: Global) -> Result<clap::Command<'a>, AllocError>
    ensures { IfOk result (λ c. app_of c ≡ the_program) }
{
    let program = clap::Command::new(alloc, "hll")
        .no_binary_name(true)
        .disable_help_flag(true)
        .disable_help_subcommand(true)
        .subcommand_required(true);
    let program = with_file_command(alloc, program, "prove")?;
    let program = with_file_command(alloc, program, "check")?;
    with_file_command(alloc, program, "format")
}

impl<'a> Command<'a> {
    /// The command that was matched.
    fn matched(matches: &ArgMatches<'a>) -> Option<Command<'a>>
        ensures found { IfSome result (λ command. request_in (subcommand_rows_of matches.now) ≡ Some (asked_by command)) }
        ensures none { IfNone result (request_in (subcommand_rows_of matches.now) ≡ None) }
    {
        let Some((name, given)) = matches.subcommand() else {
            return None;
        };
        let Some(file) = given.get_str("FILE") else {
            return None;
        };
        match name {
            "prove" => Some(Command::Prove { model: file }),
            "check" => Some(Command::Check { evidence: file }),
            "format" => Some(Command::Format { model: file }),
            _ => None,
        }
    }

    /// The command that the words after the program's name ask for.
    pub fn read(alloc: Global, words: &'a [String]) -> Result<Option<Command<'a>>, AllocError>
        ensures found { IfOk result (λ found. IfSome found (λ command. request_of (map string_bytes words.now) ≡ Some (asked_by command))) }
        ensures none { IfOk result (λ found. IfNone found (request_of (map string_bytes words.now) ≡ None)) }
    {
        match program(alloc)?.try_get_matches_from(words) {
            Ok(matches) => Ok(Command::matched(&matches)),
            Err(error) => match error.kind() {
                ErrorKind::OutOfMemory => Err(AllocError),
                _ => Ok(None),
            },
        }
    }
}
