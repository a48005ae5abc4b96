//! The words of the command line that go through a file of flows, and how a run ends that stops before it serves.
//!
//! A run of these words asks nothing of the network. What a text of a file has is one definition (`specs/FlowFile.antt`): entries from its front, each a tree of a tnetstring and what is
//! loaded from it (px_flowfile), and a place that has none, behind so many bytes. What a run promises is said over all of them, by what came of the file, and of the filter where there is one.
//!
//! - `flows FILE FILTER` prints the line of each flow of a file on which a filter holds (`specs/Flows.antt`): the filter is judged, then the file is read, once, then its entries are gone through
//!   from the front, up to a bad place.
//! - `convert FILE OUT` appends the text of each entry of a file, with the pairs that the program does not know, to another file (`specs/Converts.antt`).
//! - `pick FILE FILTER OUT` appends so the text of each entry on which a filter holds (`specs/Picks.antt`): `convert` is the case without a filter, and both are one loop.
//! - `har FILE FILTER` prints the export of the flows of a file on which a filter holds (`specs/Exports.antt`, px_har).
//!
//! The last three judge a file whole before anything is made of it (`specs/Whole.antt`), so they go through it twice, over the same bytes. That no bad place comes in the second pass is no test
//! that could fail: a text begins with one tree at most, and what is read is not refused. In each pass one entry at a time is there, so memory is the file and one flow.
//!
//! A run that stops (`stop_with`) prints one line, tells one note, and answers a status (`specs/Stops.antt`, `specs/Lines.antt`). A sink that fails to take either changes no
//! status.
#![tactic(auto)]

mod converting;
mod exporting;
mod flows;
mod picking;
mod stop;
mod take;
mod whole;

pub use converting::convert;
pub use exporting::export;
pub use flows::{list_flows, wants_memory};
pub use picking::pick;
pub use stop::{
    NO_MEMORY, Stop, bad_flow_file, cannot_read, refuse_bad_place, refuse_file, stop_with, tell,
};
