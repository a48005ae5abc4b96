//! Tests of `px_mio`: its wire of real sockets against sockets of std, on loopback. They stand by themselves, since a crate with tests is proved
//! twice.
#![tactic(auto)]

#[cfg(test)]
mod tests;
