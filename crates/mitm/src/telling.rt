//! What people are told on standard error beside the notes of a run. What is not written changes nothing.
use std::io;

/// Tells that something was not written, and why, and what that ends.
pub fn tell_end<H: Eprint>(host: &H, name: &str, why: &io::Error) {
    let _ = host.eprintln(format_args!(
        "cannot write to {name}: {why}; nothing more is printed or saved in this run"
    ));
}

/// Tells that nothing can be saved at a path, as it is when serving begins, and why.
pub fn tell_start<H: Eprint>(host: &H, path: &str, why: &io::Error) {
    let _ = host.eprintln(format_args!("cannot save in {path}: {why}"));
}
