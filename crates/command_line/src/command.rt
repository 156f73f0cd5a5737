//! The commands of the jobs, for `clap`, which reads the words.

ghost use Rattle.std.specs.Prelude.{◌≡◌, ◌++◌, ◌∷◌, [], IfOk, OnOk, false, map};
ghost use Rattle.clap.specs.Words.{app_of};
ghost use Rattle.clap.specs.declared.builder.command.Command.TheViews.{out-Command as fields_of};
ghost use Rattle.command_line.specs.Forms.{jobs};
ghost use Rattle.command_line.specs.Commands.{AddsJobCommand, AreJobCommands, AreRules, app_with, bare_app, option_rule, place_rule, raw_app, rules_with_reach};

use clap::{Arg, ArgAction, Command};
use std::alloc::{AllocError, Global};

/// Moves an item to the end of a list.
fn push<T: Drop>(list: &mut Vec<T>, item: T) -> Result<(), AllocError>
    ensures { OnOk result (list.new.items ≡ list.old.items ++ item ∷ []) }
{
    Ok(list.push(item)?)
}

/// Adds an option with one value.
fn add_option<'a>(
    alloc: Global,
    arguments: &mut Vec<Arg<'a>>,
    name: &'a str,
) -> Result<(), AllocError>
    ensures { OnOk result
        (rules_with_reach arguments.new.items
        ≡ rules_with_reach arguments.old.items ++ (option_rule name.entry.now, false) ∷ []) }
{
    push(
        arguments,
        Arg::new(alloc, name).long(name).action(ArgAction::Set),
    )
}

/// Adds a positional, which may not be left out.
fn add_place<'a>(
    alloc: Global,
    arguments: &mut Vec<Arg<'a>>,
    name: &'a str,
) -> Result<(), AllocError>
    ensures { OnOk result
        (rules_with_reach arguments.new.items
        ≡ rules_with_reach arguments.old.items ++ (place_rule name.entry.now, false) ∷ []) }
{
    push(
        arguments,
        Arg::new(alloc, name).required(true).action(ArgAction::Set),
    )
}

/// Options, each with one value, and positionals, of which none may be left out.
fn arguments<'a>(
    alloc: Global,
    options: &[&'a str],
    places: &[&'a str],
) -> Result<Vec<Arg<'a>>, AllocError>
    ensures { IfOk result (λ v. AreRules v.items
        (map (λ s. option_rule s.now) options.entry.now ++ map (λ s. place_rule s.now) places.entry.now)) }
{
    let mut arguments = Vec::new(alloc);
    for option in options {
        add_option(alloc, &mut arguments, *option)?;
    }
    for place in places {
        add_place(alloc, &mut arguments, *place)?;
    }
    Ok(arguments)
}

/// The command of a job: its options, each with one value, and its positionals, of which none may be left out.
fn job_command<'a>(
    alloc: Global,
    name: &'a str,
    options: &[&'a str],
    places: &[&'a str],
) -> Result<Command<'a>, AllocError>
    ensures app { IfOk result (λ c. app_of c ≡ app_with name.entry.now
        (map (λ s. option_rule s.now) options.entry.now ++ map (λ s. place_rule s.now) places.entry.now)) }
    ensures local { IfOk result (λ c. (fields_of c).has_globals ≡ false) }
{
    let arguments = arguments(alloc, options, places)?;
    Command::new(alloc, name).args(arguments)
}

/// Adds the command of a job.
fn add_job<'a>(
    alloc: Global,
    commands: &mut Vec<Command<'a>>,
    name: &'a str,
    options: &[&'a str],
    places: &[&'a str],
) -> Result<(), AllocError>
    ensures { OnOk result (AddsJobCommand name.entry.now
        (map (λ s. s.now) options.entry.now) (map (λ s. s.now) places.entry.now) commands.old.items
        commands.new.items) }
{
    push(commands, job_command(alloc, name, options, places)?)
}

/// The commands of all jobs.
fn job_commands<'a>(alloc: Global) -> Result<Vec<Command<'a>>, AllocError>
    ensures { IfOk result (λ v. AreJobCommands jobs v.items) }
{
    let mut jobs = Vec::new(alloc);
    add_job(
        alloc,
        &mut jobs,
        "debug",
        &["passes", "homes", "limit"],
        &["src", "script", "input", "image"],
    )?;
    add_job(
        alloc,
        &mut jobs,
        "compile",
        &["passes", "homes"],
        &["src", "image"],
    )?;
    add_job(
        alloc,
        &mut jobs,
        "attach",
        &["limit"],
        &["image", "script", "input"],
    )?;
    add_job(alloc, &mut jobs, "passes", &["passes"], &["src"])?;
    add_job(alloc, &mut jobs, "sweep", &[], &["seed", "size"])?;
    Ok(jobs)
}

/// The command above the jobs, which has no option of its own.
fn bare_command<'a>(alloc: Global) -> Command<'a>
    ensures { app_of result ≡ bare_app }
{
    Command::new(alloc, "cdbg")
        .disable_help_flag(true)
        .disable_help_subcommand(true)
        .disable_version_flag(true)
        .subcommand_required(true)
}

/// The command with all jobs.
pub fn whole_command<'a>(alloc: Global) -> Result<Command<'a>, AllocError>
    ensures { IfOk result (λ c. app_of c ≡ raw_app) }
{
    let jobs = job_commands(alloc)?;
    bare_command(alloc).subcommands(jobs)
}
