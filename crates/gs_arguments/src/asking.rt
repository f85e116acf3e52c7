//! What arguments ask for.

ghost use Rattle.std.specs.Prelude.{◌≡◌, ◌≢◌, ℕ, List, false, Some, [], ◌∷◌, map, codes, IfOk, IfErr, IfSome, MatchResult, option_map};
ghost use Rattle.clap.specs.Words.{kind_of};
ghost use Rattle.clap.specs.Kinds.{HasKind, Kinds};
ghost use Rattle.clap.specs.Faults.{fault_of};
ghost use Rattle.gs_arguments.specs.Arguments.{AsksAllowed, IsAskedBy, command_in, file_in, ghost_program, policies_in, seeds_in};
ghost use Rattle.gs_arguments.specs.declared.command.Command.{Command};
ghost use Rattle.gs_arguments.specs.declared.command.Command.TheVariants.{Journal, Report};

use crate::command::{Asked, Command, DEFAULT_LINES};
use crate::program::{command_named, program};
use crate::values::{Clash, asked_of, clash_in, command_given, command_of};
use clap::error::ErrorKind;
use std::alloc::{AllocError, Global};
use std::convert::AsStr;

/// Why what was given is no command: none was, or something in it does not go together.
fn no_command(
    alloc: Global,
    command_line: &mut clap::Command<'_>,
    given: Option<Command>,
) -> Result<clap::Error, AllocError>
    ensures { IfOk result (λ e. (kinds : Kinds) → HasKind (ErrorKind.MissingSubcommand ∷ ErrorKind.ValueValidation ∷ kinds) e) }
{
    match given.and_then(clash_in) {
        Some(Clash::Backward { from, to }) => {
            let message = format!(in alloc; "--from {from} is above --to {to}")?;
            command_line.error(ErrorKind::ValueValidation, message.as_str())
        }
        Some(Clash::TwoForms) => command_line.error(
            ErrorKind::ValueValidation,
            "--json and --csv do not go together",
        ),
        None => command_line.error(ErrorKind::MissingSubcommand, "no command is given"),
    }
}

/// What the words ask for, if the first after the program's name is that of a command, and if they have no fault. Of the
/// commands only this one is made for that.
fn asked_alone<'a, S: AsStr>(alloc: Global, words: &'a [S]) -> Option<Asked<'a>>
    ensures { IfSome result (IsAskedBy (map S.text words.entry.now)) }
{
    let (_, words) = words.split_first()?;
    let name = words.first()?.as_str();
    let mut command = command_named(alloc, name).ok()??;
    let matches = command.try_get_matches_from_mut(words).ok()?;
    asked_of(alloc, command_of(name, &matches)?, &matches).ok()
}

/// Reads the arguments. The first word is the name that the program was called by.
///
/// # Errors
///
/// An error is clap's own: its text says what is wrong, or is the help or the version that was asked
/// for. Its kind says which. It is that of the words' fault, or out of memory. If the words have no fault, it
/// may also be that no command is given, or that what is given does not go together. So the help and the
/// version are returned only if the words ask for them, and always then, unless out of memory. Words without
/// a fault that give a command are refused only if out of memory.
pub fn settings<'a, S: AsStr>(alloc: Global, words: &'a [S]) -> Result<Asked<'a>, clap::Error>
    ensures given { IfOk result (λ given. command_in (map S.text words.entry.now) ≡ Some given.command) }
    ensures file { IfOk result (λ given. option_map (λ file. file.now) given.file ≡ file_in (map S.text words.entry.now)) }
    ensures policies { IfOk result (λ given. map (λ word. word.now) given.policies.items ≡ policies_in (map S.text words.entry.now)) }
    ensures seeds { IfOk result (λ given. given.seeds.items ≡ seeds_in (map S.text words.entry.now)) }
    ensures allowed { IfOk result (λ given. AsksAllowed given.command) }
    ensures faultless { IfOk result (λ _. fault_of ghost_program (map S.text words.entry.now) ≡ []) }
    ensures failed { IfErr result (HasKind (ErrorKind.MissingSubcommand ∷ ErrorKind.ValueValidation ∷ fault_of ghost_program (map S.text words.entry.now))) }
    ensures told { fault_of ghost_program (map S.text words.entry.now) ≢ [] → IfErr result (HasKind (fault_of ghost_program (map S.text words.entry.now))) }
    ensures answered { fault_of ghost_program (map S.text words.entry.now) ≡ [] → (command : Command) → command_in (map S.text words.entry.now) ≡ Some command → MatchResult result (λ given. given.command ≡ command) (λ e. kind_of e ≡ ErrorKind.OutOfMemory) }
    ensures run { (name : List ℕ) → map S.text words.entry.now ≡ name ∷ codes "run" ∷ [] → IfErr result (λ e. kind_of e ≡ ErrorKind.OutOfMemory) }
    ensures journal { (name : List ℕ) → map S.text words.entry.now ≡ name ∷ codes "journal" ∷ [] → MatchResult result (λ given. given.command ≡ Journal false) (λ e. kind_of e ≡ ErrorKind.OutOfMemory) }
    ensures report { (name : List ℕ) → map S.text words.entry.now ≡ name ∷ codes "report" ∷ [] → MatchResult result (λ given. given.command ≡ Report DEFAULT_LINES) (λ e. kind_of e ≡ ErrorKind.OutOfMemory) }
{
    if let Some(asked) = asked_alone(alloc, words) {
        return Ok(asked);
    }
    let mut command_line = program(alloc)?;
    let matches = command_line.try_get_matches_from_mut(words)?;
    match matches.subcommand() {
        Some((name, given)) => match command_of(name, given) {
            Some(command) => Ok(asked_of(alloc, command, given)?),
            None => Err(no_command(alloc, &mut command_line, command_given(name, given))?),
        },
        None => Err(no_command(alloc, &mut command_line, None)?),
    }
}
