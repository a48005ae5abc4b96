//! Flows in sequence on one client's connection.
//!
//! It is the chain of one flow with another last step: where a flow is finished and the connection goes on, the next one
//! begins, and its request is what the client sent behind the former. What is due names this conversation alone.
//!
//! HTTP ends at a CONNECT and at a response of code 101, and what follows is px_stack's: it has this for the part of its chain that is
//! HTTP (`take_anywhere`, `resume_anywhere`), and begins another one in a tunnel (`begin`). So is the way to a server that is reached
//! through another proxy (`leads_to`, `hear_waiting`, `reach`).
#![tactic(auto)]

mod chained;
mod conversation;

pub use conversation::HttpConv;
