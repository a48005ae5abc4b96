//! A layer with the events that wait while it waits.
#![tactic(auto)]

mod error;
mod gate;
mod law;

pub use error::GateError;
pub use gate::Gate;
pub use law::gates_add_nothing;
