//! What counts where there is no client.
ghost use Rattle.std.specs.Prelude.{◌≡◌, ◌++◌, ◌∷◌, [], OnOk};
ghost use Rattle.px_resend.specs.Heard.{is_to_client, of_servers, to_servers};

use px_event::{Command, Event, Side};
use px_text::NoMemory;

/// The event; what is heard of a client says nothing.
pub fn of_servers(event: Event) -> Event
    ensures { result ≡ of_servers event }
{
    match event {
        Event::Piece { side, bytes } => match side {
            Side::Client => Event::Begun,
            Side::Server(_) => Event::Piece { side, bytes },
        },
        Event::Closed { side } => match side {
            Side::Client => Event::Begun,
            Side::Server(_) => Event::Closed { side },
        },
        event => event,
    }
}

/// Gives these commands, but for what is said to a client.
pub fn pass_on(given: Vec<Command>, out: &mut Vec<Command>) -> Result<(), NoMemory>
    ensures { OnOk result (out.new.items ≡ out.old.items ++ to_servers given.items) }
{
    for command in given {
        pass_one(command, out)?;
    }
    Ok(())
}

fn pass_one(command: Command, out: &mut Vec<Command>) -> Result<(), NoMemory>
    ensures { OnOk result (out.new.items ≡ out.old.items ++ to_servers (command ∷ [])) }
{
    if is_to_client(&command) {
        drop(command);
        return Ok(());
    }
    out.push(command)?;
    Ok(())
}

fn is_to_client(command: &Command) -> bool
    ensures { result ≡ is_to_client command.now }
{
    match command {
        Command::Send {
            side: Side::Client,
            ..
        } => true,
        Command::Close { side: Side::Client } => true,
        _ => false,
    }
}
