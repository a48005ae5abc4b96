//! What the program does: `run` takes the words, a network, files, sinks and addons, and answers the exit status.
//!
//! Each connection at the door for clients is a conversation, and so is each recorded request that is sent again, without a client. Each hook is answered by the chain of the
//! options' rules and the addons that were handed in, at once, or by an operator where the flow is to wait (`intercept`); and of each finished flow a line is printed, and its text
//! appended to the save file, where there is one. A connection at the control door is an operator's: each line of it is obeyed and answered.
#![tactic(auto)]

mod beginning;
mod finished;
mod generate;
pub mod laws;
mod loading;
mod noting;
mod opening;
mod operators;
mod printing;
mod program;
mod replaying;
mod saving;
mod serve;
mod serving;
mod setup;
mod status;
mod turning;
mod words;

pub use program::run;
pub use serve::Conv;
