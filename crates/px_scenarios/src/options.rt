//! Options files.
use px_message::Address;
use px_options::{Mode, Options, OptionsError, read_options};
use px_rows::{RowError, Shown, show_address, unescape};
use px_text::Bytes;
use std::alloc::Global;

/// Where requests go by the options that the text is, in full with more of them; or its refusal.
pub(crate) fn answer(
    alloc: Global,
    text: &str,
    is_full: bool,
    out: &mut Shown,
) -> Result<(), RowError> {
    let bytes = unescape(alloc, text)?;
    match read_options(alloc, &bytes) {
        Ok(options) => {
            show_options(out, &options, is_full);
            drop(options);
            Ok(())
        }
        Err(error) => {
            let shown = show_refusal(out, &error);
            drop(error);
            shown
        }
    }
}

fn show_options(out: &mut Shown, options: &Options, is_full: bool) {
    show_mode(out, &options.mode);
    if is_full {
        show_rest(out, options);
    }
}

fn show_rest(out: &mut Shown, options: &Options) {
    out.text("; events ");
    out.number(options.events);
    out.text("; listen ");
    show_address(out, &options.listen);
    show_if(out, options.anticache, "; anticache");
    show_if(out, options.anticomp, "; anticomp");
    if let Some(address) = &options.control {
        show_place(out, "; control ", address);
    }
    show_if(out, options.intercept.is_some(), "; intercept");
    if let Some(path) = &options.save_stream_file {
        out.text("; save_stream_file ");
        out.text(path.as_str());
    }
    let saves = options.save_stream_filter.is_some();
    show_if(out, saves, "; save_stream_filter");
    show_kept(out, options);
}

// What recorded responses and later requests are given.
fn show_kept(out: &mut Shown, options: &Options) {
    let refreshes = options.server_replay_refresh;
    show_if(out, refreshes, "; server_replay_refresh");
    show_if(out, options.stickyauth.is_some(), "; stickyauth");
    show_if(out, options.stickycookie.is_some(), "; stickycookie");
    if let Some(size) = options.stream_large_bodies {
        out.text("; stream_large_bodies ");
        out.number(size);
    }
}

fn show_if(out: &mut Shown, holds: bool, text: &str) {
    if holds {
        out.text(text);
    }
}

fn show_mode(out: &mut Shown, mode: &Mode) {
    match mode {
        Mode::Regular => out.text("regular"),
        Mode::Reverse(server) => show_place(out, "reverse ", server),
        Mode::Upstream(proxy) => show_place(out, "upstream ", proxy),
        Mode::Socks => out.text("socks5"),
    }
}

fn show_place(out: &mut Shown, front: &str, address: &Address) {
    out.text(front);
    show_address(out, address);
}

fn show_refusal(out: &mut Shown, error: &OptionsError) -> Result<(), RowError> {
    match error {
        OptionsError::BadToml => out.text("BadToml"),
        OptionsError::BadMode => out.text("BadMode"),
        OptionsError::UnknownOption(name) => show_name(out, "UnknownOption ", name),
        OptionsError::WrongKind(name) => show_name(out, "WrongKind ", name),
        OptionsError::BadRule {
            name,
            index,
            cause,
            ..
        } => {
            show_name(out, "BadRule ", name);
            out.text(" ");
            out.number(*index as u64);
            out.text(" ");
            out.debug(cause);
        }
        OptionsError::BadFilter { name, cause, .. } => {
            show_name(out, "BadFilter ", name);
            out.text(" ");
            out.debug(cause);
        }
        OptionsError::NoMemory => return Err(RowError::NoMemory),
    }
    Ok(())
}

fn show_name(out: &mut Shown, front: &str, name: &Bytes) {
    out.text(front);
    out.bytes(name.as_slice());
}
