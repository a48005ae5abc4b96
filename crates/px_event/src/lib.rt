//! What the layers of the proxy take and give: events in, commands out, and the steps of a run.
//!
//! A conversation has a number, one client side and server sides `Server(0)`, `Server(1)` and so on, numbered by its
//! dials. A layer takes events, asks hooks and dials, and gives commands; it does no input or output by itself
//! (mitmproxy's manual, "Event hooks and API"). A run's trace is the list of its steps: what was heard, asked, answered,
//! said and done, in their order. `specs/Trace.antt` has the words that every theorem on a run uses: what was sent to a
//! side of a conversation, at every moment, at each step's end. They speak of no particular layer.
#![tactic(auto)]

mod alike;
mod ask;
mod chained;
mod command;
mod compared;
mod event;
mod heard;
mod laws;
mod layer;
mod reply;
mod said;
mod side;
mod step;

pub use alike::{
    alike_behind_any_events, alike_places_owe_alike, early_events_owe_alike,
    only_the_order_of_steps_counts, swapped_events_owe_alike, two_events_for_one_owe_alike,
};
pub use ask::{Ask, Hook};
pub use chained::Chained;
pub use command::Command;
pub use compared::Compared;
pub use event::{Event, Rests};
pub use heard::Heard;
pub use laws::{
    due_only_grows, lines_have_bytes, nothing_is_due_past_the_end, waiting_events_owe_nothing,
    walks_resume, walks_stop,
};
pub use layer::Layer;
pub use reply::Reply;
pub use said::Said;
pub use side::{Door, Side};
pub use step::Step;
