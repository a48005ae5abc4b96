//! What goes on is sent on, and is read as what was read: laws of the chain of `px_chain`, over whole lists and without its stages. Nothing here runs, and nothing stands on it.
//!
//! A proxy that changes nothing is a channel: each request goes to its server as the client made it, and each response comes back as the server made it (RFC 9110 section 3.7). The chain says what is due stage by stage. Where
//! every reply to a flow goes on with the flow as it was asked, `specs/ClosedForm.antt` says over whole lists, without stages, which texts are sent and which servers are dialled, in order and with the faults' texts, and the
//! chain does that: from whatever place of a walk the flow begins (`specs/Walks.antt`), and whatever other flows are answered. Whoever reads those texts reads what was read here before: `specs/WhatWasRead.antt` says it, with
//! the few things that differ.
//!
//! So over `GET / HTTP/1.1` CRLF `Host: h` CRLF CRLF, twice, the closed form is a dial of server 0, the text of the first request to it, the interim responses and the final one that server 0 sent, to the client; and then, where
//! the connection goes on, the same of the second request, without a dial: its text goes to server 0 too, once it and the first response are whole. Where it goes to another host, or a byte of server 0 came behind its first
//! response, or its close, by the time that the second request was whole, server 1 is dialled for it. What was read is the first request, those responses, the second request, and its responses: each text says one of these, in
//! this order and without a gap.
//!
//! Over any size that the replies allow it is the same by each side's line: `specs/Lines.antt` has the closed form where a message may be streamed, a request, a response, or both at once, and `specs/WhatCame.antt` what its texts
//! say. With both at once what goes to a server is in no order with what goes to the client, so there what is due is compared with the closed form in each view of `px_event`. Over `POST / HTTP/1.1` with a body that is streamed, server
//! 0 is dialled as soon as the request is, and is sent its head and body as they come; meanwhile the client is sent what comes of the response. Where that is whole first it is said whole, and nothing more of the request
//! is sent; where the request is at fault first, the client hears so, unless it was sent a byte of the response.
//!
//! A second form of a definition finds what laws of growth and of order do not: a turn that takes the wrong one of two requests keeps them all.
#![tactic(auto)]

pub mod laws;
