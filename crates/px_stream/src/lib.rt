//! A machine beside the chain of a conversation of HTTP/1.1 (`px_chain`): flows in sequence, each from the request's head to the
//! response's last byte.
//!
//! `Stream` keeps the readers of both sides and the flow, and looks at each byte once: `at` is where its conversation stands, `phase`
//! what it looks for there, or has asked, under the names of the chain's stages; `stream` hands it events and replies, `looking` and
//! `reading` are its looks, `turning` is where a reply leads, and `following` takes the readers there. Its commands, seen in each view,
//! are what due has grown by.
//!
//! What its fields are is said at a stage and in a sight (`specs/Stands.antt`): what it reads is what the stage sees. So an event more
//! is a sight with one event more (`specs/Heard.antt`), a look is in one sight (`specs/Looks.antt`), and a reply leads to the sight
//! behind it, by the chain's own words (`specs/Turns.antt`). Fronts of a walk are met in two places alone, where an event and where a
//! reply is joined to it.
//!
//! So over `GET / HTTP/1.1` CRLF `Host: h` CRLF CRLF it asks the hook of a head (`Asked::Idle`); a reply that goes on leads to
//! `Wanted::RequestBody`, where the request is whole and its hook is asked; then `Asked::Connection` awaits the server, whose
//! connection owes it the request's text and leads to `Wanted::ResponseHead`. Behind a finished flow the next one's head is looked
//! for, in what the client sent behind it.
//!
//! Two ends lead to something else: a CONNECT, which is read to its end (`Wanted::Connects`), and a response of code 101, once it
//! was sent (`Wanted::Upgraded`). Whoever goes on takes out what neither side's reader used (`Stream::into_rests`).
//!
//! Flows may follow something else over the same events, and something else may follow them: so each call says what it does at whatever
//! place of a walk the stream stands (`specs/Anywhere.antt`), `begin` starts one with what was not used before of the client's bytes and of a parked side's (where such bytes wait, that side is closed), and
//! `go_on_with` starts one whose flow's request others have read.
//!
//! Where the server is reached through another proxy, that proxy is what is dialled, and whoever goes on asks it for a tunnel to
//! where `Stream::leads_to` says. Meanwhile the dial is awaited still: `hear_waiting` hears what comes, and gives nothing, since a parked side was closed
//! right behind that dial. At last the way stands, and `reach` is told what has come behind the proxy's answer; or the dial is answered with a refusal.
//!
//! Behind a flow its server's side is parked, where both messages persist, nothing stands behind the response, and the client's connection goes on; a place may have one that is connected before its first flow.
//! A request that goes where it is connected to is sent to it with no dial. While no flow uses it nothing is read of it: at its first byte it is closed, and by that, or by its own close, it is kept no more
//! (`specs/Heard.antt`). A request that goes elsewhere is dialled for, and the parked side is closed right behind that dial; so it is where the conversation ends before. One server's side at most is open: the
//! one that a flow uses, or the one that is parked.
//!
//! A response may be streamed: sent as it comes, framed as it was read, with no question about it behind its head's. Whether it is may show only as its
//! body comes, where the reply about its head allows a size and the body has no stated length, or a larger one: what its parts say is then held beside
//! its content (`Wanted::ResponseBody`, `coming`). Where it is, its head goes out with what was held, and later what each call brought
//! (`Wanted::ComingDown`); where all has come its flow is finished. All of that needs no answer: so each call first passes (`passing`), by which the next
//! request's head may be what is looked for, and then looks once. Say that a hook allows 4 bytes of `Transfer-Encoding: chunked`: `3` CRLF `abc` CRLF is held,
//! and with `2` CRLF `de` CRLF behind it the head and both chunks are sent in one text; then `0` CRLF CRLF is the last of it, and the flow is done. What is due is
//! one text, of which each call sends a piece: so what is given and what is owed are equal in each view (`specs/Passes.antt`).
//!
//! A request may be streamed as well: sent as it comes, framed as it was read, with no question about it behind its head's. While it may yet be, what its parts say
//! is held beside its content, and so is the request as its head was read (`Wanted::RequestBody`, `going`). Where it is, it goes to the side that is parked,
//! or its server is dialled at once, and the text of what came waits for that (`Asked::Connection`). From there on it goes up (`Sending::GoingUp`): its head was sent with
//! what was held, and later calls send what each brought, while its response is looked for, asked about, or comes down; of what was sent nothing is kept. So each call first sends
//! on what came of a request (`passing::request`), then passes what came of a response, and then looks. Say that a hook allows 4 bytes of a request in chunks: `3` CRLF `abc`
//! CRLF is held, and with `2` CRLF `de` CRLF behind it the server is dialled; the reply has the head and both chunks sent in one text, and `0` CRLF CRLF is the last
//! of it: then all of it was sent (`Sending::All`). A bad body of a request that goes up is found before anything of its response (`looking`), and where the response is whole
//! before its request is, the conversation ends behind it (`ending`). What earlier asks owed of its text is no more owed, so what was sent is compared from there on
//! (`specs/GoingUp.antt`).
//!
//! How much it keeps is told where nothing is awaited and neither direction keeps a body (`Stream::kept`, `specs/Tells.antt`): its readers gave all that had come, so each keeps what tells nothing yet, an unfinished
//! head, chunk line or trailers; or it stands behind a whole message, and keeps its trailers. Either way these are fewer than 65,536 + 1,024 bytes in each direction (`px_bounds`), also of a response of 10 GB whose client reads slowly.
//!
//! `laws` says that the machine follows the chain, step by step.
#![tactic(auto)]

mod at;
mod coming;
mod ending;
mod following;
mod going;
mod hearing;
pub mod laws;
mod leaving;
mod link;
mod looking;
mod passing;
mod phase;
mod reading;
mod sizes;
mod stream;
mod turning;

pub use at::{At, Kept};
pub use px_exchange::{Outcome, Place};
pub use stream::Stream;
