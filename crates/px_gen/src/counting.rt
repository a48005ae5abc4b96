//! What is counted of a run.
ghost use Rattle.std.specs.Prelude.{◌≡◌, ◌++◌, OnOk, OnErr};
ghost use Rattle.px_gen.specs.Counts.{by_said, bytes_to_client, bytes_to_servers, client_bytes, counts_in, counts_text, in_word, is_done, line_text, server_bytes};

use px_event::{Said, Side, Step};
use px_text::{NoMemory, push_decimal};
use std::alloc::Global;

/// What is printed of a run.
#[derive(Clone, Copy, Debug, PartialEq, Eq)]
pub struct Counts {
    /// How many flows were finished.
    pub flows: u64,
    /// How many bytes were said to servers, and 2^64 - 1 where there were more.
    pub to_servers: u64,
    /// How many bytes were said to the client, and 2^64 - 1 where there were more.
    pub to_client: u64,
}

/// The counts of a run's steps. Each step counts, whichever conversation it is of. It takes no memory.
pub fn counts_of(steps: &[Step]) -> Counts
    ensures counts { result ≡ counts_in steps.now }
{
    let flows = steps.iter().filter(|step| is_done(step)).count();
    Counts {
        flows: flows as u64,
        to_servers: to_servers(steps),
        to_client: to_client(steps),
    }
}

/// Appends the counts, each on a line of its own: `flows`, `to server` and `to client`, each with its number in decimal digits. After
/// `NoMemory` nothing was appended.
pub fn counts_text(alloc: Global, counts: &Counts, out: &mut Vec<u8>) -> Result<(), NoMemory>
    ensures ok { OnOk result (out.new.items ≡ out.old.items ++ counts_text counts.now) }
    ensures err { OnErr result (out.new.items ≡ out.old.items) }
{
    let mut text = Vec::new(alloc);
    push_counts(counts, &mut text)?;
    out.extend_from_slice(&text)?;
    Ok(())
}

fn push_counts(counts: &Counts, text: &mut Vec<u8>) -> Result<(), NoMemory>
    ensures { OnOk result (text.new.items ≡ text.old.items ++ counts_text counts.now) }
{
    push_line(b"flows ", counts.flows, text)?;
    push_line(b"to server ", counts.to_servers, text)?;
    push_line(b"to client ", counts.to_client, text)
}

#[tactic(auto, unfolding(crate::specs::Counts::line_text))]
fn push_line(name: &[u8], count: u64, text: &mut Vec<u8>) -> Result<(), NoMemory>
    ensures { OnOk result (text.new.items ≡ text.old.items ++ line_text name.now count) }
{
    text.extend_from_slice(name)?;
    push_decimal(text, count)?;
    text.push(b'\n')?;
    Ok(())
}

fn is_done(step: &Step) -> bool
    ensures { result ≡ is_done step.now }
{
    matches!(step, Step::Done { .. })
}

fn to_servers(steps: &[Step]) -> u64
    ensures { result ≡ in_word (bytes_to_servers steps.now) }
{
    let mut sum: u64 = 0;
    for step in steps {
        sum = sum.saturating_add(server_bytes(step) as u64);
    }
    sum
}

fn to_client(steps: &[Step]) -> u64
    ensures { result ≡ in_word (bytes_to_client steps.now) }
{
    let mut sum: u64 = 0;
    for step in steps {
        sum = sum.saturating_add(client_bytes(step) as u64);
    }
    sum
}

// How many bytes the step says to a server.
fn server_bytes(step: &Step) -> usize
    ensures { result ≡ by_said server_bytes step.now }
{
    match step {
        Step::Said {
            said: Said::Send {
                side: Side::Server(_),
                bytes,
            },
            ..
        } => bytes.len(),
        _ => 0,
    }
}

// How many bytes the step says to a client.
fn client_bytes(step: &Step) -> usize
    ensures { result ≡ by_said client_bytes step.now }
{
    match step {
        Step::Said {
            said: Said::Send {
                side: Side::Client,
                bytes,
            },
            ..
        } => bytes.len(),
        _ => 0,
    }
}
