//! Commands with their arguments.
ghost use Rattle.std.specs.Prelude.{IfOk, OnOk};
ghost use Rattle.cq_command_line.specs.CommandLine.{AddsOne, Makes, MakesAll, bare_command, command_for};

use crate::arguments::{Argument, args_of};
use clap::Command;
use std::alloc::{AllocError, Global};

/// A command: its name, what help says of it at the top and at the end, and what it takes.
#[derive(Clone, Copy)]
pub(crate) struct Description {
    pub name: &'static str,
    pub about: &'static str,
    pub after_help: &'static str,
    pub arguments: &'static [Argument],
}

/// Returns the commands with these descriptions.
pub(crate) fn commands<'a>(
    alloc: Global,
    descriptions: &[&Description],
) -> Result<Vec<Command<'a>>, AllocError>
    ensures { IfOk result (λ commands. MakesAll commands.items descriptions.now) }
{
    let mut commands = Vec::new(alloc);
    for description in descriptions {
        push_command(alloc, &mut commands, description)?;
    }
    Ok(commands)
}

/// Adds the command with this description.
fn push_command<'a>(
    alloc: Global,
    commands: &mut Vec<Command<'a>>,
    description: &Description,
) -> Result<(), AllocError>
    ensures { OnOk result (AddsOne (λ command. Makes command (command_for description.now)) commands.old.items commands.new.items) }
{
    commands.push(command(alloc, description)?)?;
    Ok(())
}

/// Returns the command with this description.
fn command<'a>(alloc: Global, description: &Description) -> Result<Command<'a>, AllocError>
    ensures { IfOk result (λ command. Makes command (command_for description.now)) }
{
    let args = args_of(alloc, description.arguments)?;
    without_arguments(alloc, description).args(args)
}

/// Returns the command with this description, without its arguments.
fn without_arguments<'a>(alloc: Global, description: &Description) -> Command<'a>
    ensures { Makes result (bare_command description.now) }
{
    Command::new(alloc, description.name)
        .about(description.about)
        .after_help(description.after_help)
}
