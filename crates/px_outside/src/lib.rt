//! The outside of the proxy: a network, files and a sink, as traits that say what was heard, said, read and written.
//!
//! A real socket, file or terminal tells nothing to a proof, so a trace, contents and bytes are optional: the clauses
//! on them hold where they are told. Faults are counted. A count never falls, and a fault is answered only where its
//! count rose in that call, or stands at its type's end; so a body that gives up by itself is refused.
//!
//! In memory: `ScriptNet` hears a list and keeps its trace, `MemFiles` holds files and the list of its calls, `VecSink`
//! holds what was written. Each fails at the calls that it is told to.
#![tactic(auto)]

mod files;
mod mem_files;
mod net;
mod plan;
mod script_net;
mod sink;
mod stored;
mod vec_sink;

pub use files::{FileCall, FileError, Files};
pub use mem_files::MemFiles;
pub use net::{Net, NetError};
pub use script_net::ScriptNet;
pub use sink::{Sink, SinkError};
pub use vec_sink::VecSink;
