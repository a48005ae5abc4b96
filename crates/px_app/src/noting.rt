//! The note at a run's start: where clients connect, and where their requests go.
ghost use Rattle.std.specs.Prelude.{◌≡◌, ◌++◌, IfOk, OnOk};
ghost use Rattle.px_message.specs.Url.{port_suffix};
ghost use Rattle.px_options.specs.View.{mode_view};
ghost use Rattle.px_app.specs.Lines.{mode_text, proxy_text, server_text, socks_text, start_note, upstream_text};

use px_message::Address;
use px_stack::Mode;
use px_text::{NoMemory, push_decimal};
use std::alloc::Global;

/// The note at a run's start: where clients connect, and where their requests go in this mode.
pub(crate) fn start_note(alloc: Global, proxy: &Address, mode: &Mode) -> Result<Vec<u8>, NoMemory>
    ensures { IfOk result (λ text. text.items ≡ start_note (proxy.now.host, proxy.now.port) (mode_view mode.now)) }
{
    let mut text = Vec::new(alloc);
    push_proxy(proxy.host.bytes(), u64::from(proxy.port), &mut text)?;
    push_mode(mode, &mut text)?;
    Ok(text)
}

#[tactic(auto, unfolding(crate::specs::Lines::proxy_text))]
fn push_proxy(host: &[u8], port: u64, text: &mut Vec<u8>) -> Result<(), NoMemory>
    ensures { OnOk result (text.new.items ≡ text.old.items ++ proxy_text host.now port) }
{
    text.extend_from_slice(b"listening at ")?;
    text.extend_from_slice(host)?;
    text.push(b':')?;
    push_decimal(text, port)?;
    Ok(())
}

// Where requests go in this mode, and the line's end.
fn push_mode(mode: &Mode, text: &mut Vec<u8>) -> Result<(), NoMemory>
    ensures { OnOk result (text.new.items ≡ text.old.items ++ mode_text (mode_view mode.now)) }
{
    match mode {
        Mode::Regular => {
            text.push(b'\n')?;
            Ok(())
        }
        Mode::Reverse(server) => push_server(server.host.bytes(), server.port, text),
        Mode::Upstream(proxy) => push_upstream(proxy.host.bytes(), proxy.port, text),
        Mode::Socks => push_socks(text),
    }
}

#[tactic(auto, unfolding(crate::specs::Lines::server_text))]
fn push_server(host: &[u8], port: u16, text: &mut Vec<u8>) -> Result<(), NoMemory>
    ensures { OnOk result (text.new.items ≡ text.old.items ++ server_text host.now port) }
{
    text.extend_from_slice(b", for http://")?;
    text.extend_from_slice(host)?;
    push_port(port, text)?;
    text.push(b'\n')?;
    Ok(())
}

#[tactic(auto, unfolding(crate::specs::Lines::upstream_text))]
fn push_upstream(host: &[u8], port: u16, text: &mut Vec<u8>) -> Result<(), NoMemory>
    ensures { OnOk result (text.new.items ≡ text.old.items ++ upstream_text host.now port) }
{
    text.extend_from_slice(b", through http://")?;
    text.extend_from_slice(host)?;
    push_port(port, text)?;
    text.push(b'\n')?;
    Ok(())
}

#[tactic(auto, unfolding(crate::specs::Lines::socks_text))]
fn push_socks(text: &mut Vec<u8>) -> Result<(), NoMemory>
    ensures { OnOk result (text.new.items ≡ text.old.items ++ socks_text) }
{
    text.extend_from_slice(b", for clients of SOCKS5\n")?;
    Ok(())
}

// A colon and the port, unless it is the scheme's own.
fn push_port(port: u16, text: &mut Vec<u8>) -> Result<(), NoMemory>
    ensures { OnOk result (text.new.items ≡ text.old.items ++ port_suffix port) }
{
    if port == 80 {
        return Ok(());
    }
    text.push(b':')?;
    push_decimal(text, u64::from(port))
}
