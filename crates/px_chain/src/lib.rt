//! What is due in a conversation of HTTP/1.1: a chain of stages, and its laws. Nothing here runs: `px_stream` is the machine beside
//! it, and neither knows anything of the other's parts.
//!
//! A proxy takes a request from a client, shows it to hooks, sends it to a server, and brings the response back the same way
//! (RFC 9112 sections 2 and 9, RFC 9110 section 7.6). In `specs/Stages.antt` a conversation is `idle`, where the head of a request is awaited;
//! `busy` with a flow, awaiting its request's body, the connection to its server, the head of its final response, that response's body, the
//! rest of one that is streamed, or the hooks of a response that was given in the server's place; behind a finished flow (`next`); or `over`.
//! Where its server or its response is awaited, the stage says besides how the request stands: all of it was sent, or it goes up.
//!
//! A request is streamed where the answer to its head's hook allows a size that it exceeds (`specs/Going.antt`). Then its server is dialled at
//! once, or the parked side taken, the hook of its body is not asked, and it goes up: while its response is awaited, asked about, or comes
//! down, the stage owes the text of what came of the request, as far as earlier asks did not owe it; how much they did is `told`, which a reply
//! sets and nothing else. Where the request is whole, passing owes the rest, notes the moment and uses its bytes. So passing is three steps,
//! one behind the other: a request begins to go up, one is whole, a response comes down. A bad body of a request that goes up is found before
//! anything of its response, and ends the flow, with an error text as long as the client was sent nothing of the response. A refused dial goes
//! before it, since nothing is looked at while a dial is awaited. Behind a response that is complete while its request is not, the conversation
//! ends, and code 101 switches nothing.
//!
//! A response is streamed where the answer to its head's hook allows a size that it exceeds, by its length or by the bytes that came
//! (`specs/Coming.antt`, in the terms of `px_parts`). Then the stage passes to `coming_down`, which owes the text of what came so far, and where it
//! is whole the flow ends without a question: so passing owes that text, the finished flow and the closes. What is owed so is a function of the
//! joined bytes, and grows with them.
//!
//! HTTP ends in two more ways, behind which another protocol follows, and a crate above goes on from there. A CONNECT asks for a tunnel
//! (RFC 9110 section 9.3.6): `idle` finds it and owes nothing, and `connect_in` says where the tunnel is asked for to, and how many of the
//! client's bytes that used. A response of code 101 switches protocols (RFC 9110 section 15.2.2): once its last hook was answered it is
//! sent, and the flow stands at `upgraded`, unfinished, with the number of its server; how many bytes of both sides HTTP used stands beside it.
//!
//! At a place whose servers are reached through another proxy the connection that is asked for is the proxy's (`dialled_for`). What that is asked then,
//! before the reply comes here, is of the crate above too: here the server is connected by its reply, wherever it was dialled.
//!
//! One server's side is open at most: the flow's own, or one that is parked, which no flow uses. A conversation may begin with a parked
//! side. The first request, where it goes to its address, is sent to it in the turn that answers its body's hook, or as it goes
//! up, and no connection is asked for; a dial closes it (`behind`).
//!
//! A stage counts no bytes and no events. It looks at the joined bytes of the client and of that side, behind those that flows before have
//! used, at their closes, at what earlier asks owed of a request that goes up and at the moment, and at nothing else: that is its sight
//! (`specs/Sights.antt`). What it finds, where it goes on without a reply, and what a reply brings are functions of the stage and its sight
//! (`specs/Chain.antt`), in the steps of `px_exchange`. How many bytes are used stands beside the stage in its place of the walk (`Standing`):
//! a whole request uses its own where the stage goes on, and a whole response its own and those of the interim ones before it. A client that
//! closes ends the flow where nothing else is found by then.
//!
//! So over `GET / HTTP/1.1` CRLF `Host: h` CRLF CRLF, `idle` finds a head and asks its hook; a reply that goes on leads to awaiting
//! the body, which finds the request whole and asks its hook; then the connection is asked for, which owes the server the request's
//! text and leads to awaiting the response's head, where nothing is found until the server's bytes begin with a final response.
//!
//! `laws` says what follows: what is due only grows, in each view; a server hears nothing before its dial was answered, and the text of one
//! request at most, or what came of one that is streamed; bytes come before the end of their flow, and that before closes; a CONNECT that ends
//! HTTP stands whole; a streamed message is sent as it comes, and is read back as what was read; a bad body of a request that goes up ends its flow
//! at its byte, and a response that is complete before it the conversation. What is due where every reply goes on, without
//! stages, and that it is read as what was read, is said in `px_said`. For crates with larger chains `proofs/CountedLemmas.antt` says that no
//! server hears anything early of any chain that counts its servers, as this one does.
#![tactic(auto)]

pub mod laws;
