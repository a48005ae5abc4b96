//! Server replay: recorded responses in the place of a server's (mitmproxy's manual, "Server-side replay").
//!
//! A request that is asked gets the response of a recorded request that is the same in what counts. What counts is a match key
//! (`specs/Key.antt`): the method, the path in front of its query, the parameters of the query, the content, the host, the port, and
//! the values of the fields that are named. By options the content, the host, the port and parameters of given names do not
//! count. The scheme is no part of a key, since every request here is of `http`; nor are the version, the trailers and all fields
//! that are not named. A key is made of these parts as they are, and no hash or joined text stands for them: so two keys are equal exactly
//! where all parts are, byte by byte.
//!
//! The recorded list has the flows that have a response, in the order of their files. An asked request gets the least place in it
//! whose key is equal and that no earlier ask got; where places are used again, the least place whose key is equal. That is said
//! of whole lists of asks and answers (`specs/Replayed.antt`), and the calls by one step of it (`specs/Replaying.antt`). Where there is
//! no such place, the answer is what the options name for that: go on to the server, end the conversation, or a status.
//!
//! Those are definitions by a search from the front of the list. No list is searched when a request is asked: an index, which is an ordered
//! map from keys to their places in rising order, has what is left of each key (`specs/Left.antt`). That it has exactly these places is
//! the invariant of `Recorded`. It is made with the list; an ask only counts one more place of its key as given, so it takes no memory there.
//!
//! Keys share their bytes with the requests that they are made of, but for path and parameters, which are copied once. Their order, part by part
//! and byte by byte, serves the index alone.
#![tactic(auto)]

mod index;
mod key;
mod laws;
mod names;
mod options;
mod ordered;
mod parameters;
mod places;
mod recorded;
mod replay;
mod values;

pub use key::MatchKey;
pub use laws::{
    a_place_is_used_where_an_ask_got_it, an_ask_gets_the_least_place,
    equal_keys_agree_in_what_counts, keys_are_compared_whole,
};
pub use names::Names;
pub use options::KeyOptions;
pub use recorded::Recorded;
pub use replay::{Extra, Replay};
