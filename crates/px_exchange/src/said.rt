//! Commands, each put behind those that were given before it.
ghost use Rattle.std.specs.Prelude.{◌≡◌, ◌++◌, ◌∷◌, [], OnOk};
ghost use Rattle.px_event.specs.declared.command.Command.TheVariants as commands;
ghost use Rattle.px_exchange.specs.Flows.{ask_of};
ghost use Rattle.px_exchange.specs.Texts.{meets_expectation, sends_on};

use crate::flows::hook_of;
use crate::texts::{continue_text, interim_text};
use px_event::{Command, Hook, Side};
use px_message::Flow;
use px_read::ResponseHead;
use px_text::{Bytes, NoMemory};
use std::alloc::Global;

/// Sends bytes to a side.
pub fn send(side: Side, bytes: Bytes, out: &mut Vec<Command>) -> Result<(), NoMemory>
    ensures { OnOk result (out.new.items ≡ out.old.items ++ commands.Send side bytes ∷ []) }
{
    out.push(Command::Send { side, bytes })?;
    Ok(())
}

/// Closes a side.
pub fn close(side: Side, out: &mut Vec<Command>) -> Result<(), NoMemory>
    ensures { OnOk result (out.new.items ≡ out.old.items ++ commands.Close side ∷ []) }
{
    out.push(Command::Close { side })?;
    Ok(())
}

/// Says that the flow is finished.
pub fn done(flow: Flow, out: &mut Vec<Command>) -> Result<(), NoMemory>
    ensures { OnOk result (out.new.items ≡ out.old.items ++ commands.Done flow ∷ []) }
{
    out.push(Command::Done { flow })?;
    Ok(())
}

/// Asks a hook about the flow as it stands.
pub fn ask(flow: &Flow, hook: Hook, out: &mut Vec<Command>) -> Result<(), NoMemory>
    ensures { OnOk result (out.new.items ≡ out.old.items ++ ask_of flow.now hook ∷ []) }
{
    out.push(Command::Ask {
        ask: hook_of(flow, hook),
        flow: flow.try_clone()?,
    })?;
    Ok(())
}

/// Lets the body come, where the client waits for it.
pub fn meet_expectation(
    alloc: Global,
    expected: bool,
    out: &mut Vec<Command>,
) -> Result<(), NoMemory>
    ensures { OnOk result (out.new.items ≡ out.old.items ++ meets_expectation expected) }
{
    if !expected {
        return Ok(());
    }
    send(Side::Client, continue_text(alloc)?, out)
}

/// Sends an interim response on, where the client knows them.
pub fn send_on(
    alloc: Global,
    head: ResponseHead,
    sends: bool,
    out: &mut Vec<Command>,
) -> Result<(), NoMemory>
    ensures { OnOk result (out.new.items ≡ out.old.items ++ sends_on sends (head ∷ [])) }
{
    if !sends {
        return Ok(());
    }
    send(Side::Client, interim_text(alloc, &head)?, out)
}
