//! Addons, rules, recorded flows, kept cookies and authorizations, and the chain of them that answers hooks.
//!
//! An addon is someone who is asked about flows. What one is, its author states as a relation (`Addon::moves`): a hook, its state and
//! the draft of the flow before, its state and the draft after. Nothing else has to be stated; that the code keeps the relation is
//! what the check of the author's `impl` proves. Addons are handed in as boxes, in a list.
//!
//! At each hook parts are asked in an order: rules of px_map and px_rule, what px_refresh keeps and the recorded list of px_replay first, then the addons in
//! the order of their list. Which parts, and in which order, is a table with a line for each hook (`specs/Parts.antt`, `parts`):
//!
//! - the request's head: block rules, map local, map remote, header rules, `anticache`, `anticomp`, sticky cookies, sticky authorization, addons;
//! - the whole request: server replay, body rules, addons;
//! - the response's head: header rules, the keeping of cookies, addons;
//! - the whole response: body rules, addons;
//! - a message of a WebSocket: body rules on its payload, addons.
//!
//! What a rule makes of a flow is px_rule's or px_map's own function, so what a rule that reads no file does is a function of rules, hook
//! and draft (`made_by`). Four parts answer in the place of a server, and so end the order: a block rule that holds answers with its
//! status, or closes the connection where that is 444 (`specs/Blocked.antt`); map remote answers 502 where a rule makes a text that is no
//! URL of the scheme `http`; map local answers with a file (`specs/Mapped.antt`); and server replay with a recorded response
//! (`specs/Replays.antt`). What map local reads, and what it answers by that, is px_map's relation; no other part touches a file.
//!
//! Server replay asks the recorded list about the draft's request, once for each whole request. What that gets, and which place is used from
//! then on, is px_replay's relation. A request that no recorded one answers goes on, or ends the conversation, or gets a response that says
//! no more than a status, as the list says. A recorded response is sent as it is, or, where the rules wish it, with its dates moved from its own moment to the end
//! of the request (`sent_as`, in px_refresh's words). So the list moves as the addons do, and both are said together (`Movers`); no other part and no other hook
//! changes it.
//!
//! Two more things move with them: the cookies that responses set, and the authorizations that requests showed (`specs/Sticky.antt`, in px_refresh's words). Cookies
//! are kept at the response's head, as the header rules leave it, and sent at the request's; authorizations are kept and given at the request's. Each has a filter,
//! which never changes, and which decides what is sent or given, but not what is kept. Where an option is not set, its parts change nothing. What is kept is never a
//! matter of when an answer is given: the chain moves where it is asked, and a flow that waits for an operator has moved it already.
//!
//! What the addons make of a draft is told by their relations, one behind the other: each is about the draft that those
//! before it left. An addon moves itself by its relation too, and stays the addon that it was: its name and its relation are as
//! before (`specs/Chain.antt`, `AddonMoves`, `SameAddon`). The first verdict that is not Go ends the order: no part and no addon behind it
//! is asked, and each of them is exactly as it was.
//!
//! Behind all parts, where a request, a response or a message of a WebSocket is whole and they let the flow go on, the filter of the flows that
//! wait is judged on the flow as they left it: where it holds, the answer waits for an operator with that draft, and else it is the reply of
//! the draft (`answer_by`).
//!
//! The answer allows the size that the rules have, above which a body is streamed, unless an addon set another one for its flow, or none. A chain with a recorded
//! list, or with that filter, allows none, whatever its addons say (`allowed`, and laws of it in `specs/Sizes.antt`): what a recorded response or an operator may
//! change is never on its way already.
//!
//! So an answer is one relation between a hook, a flow, the rules, recorded list, addons and files before and after, and the answer itself
//! (`ChainAnswers`). It leaves nothing open but what the addons' own relations leave open. Rules at another hook, an addon that is skipped
//! or asked twice, one that gets the flow as it was before the rules, a part that runs behind one that ended the order, a recorded flow that
//! is used twice, a cookie that is kept as it was in front of the header rules, or a read that no rule asks for: each is another relation. `Chain` is a px_core `Answerer` whose state is the chain itself; so that relation stands, hook by hook, in what
//! px_core promises of every trace. Where memory runs out, of a part or as the filter is judged, `ChainFails` says which reads were made until then. So laws say of all
//! answers, and of those that failed: a block rule that holds decides before all else, no file is read but those that map local rules name, and
//! without such rules none is touched. And over all answers, one behind the other, each whole request gets the least recorded place with
//! its key that no whole request before it got (`specs/ReplayRuns.antt`), what is kept of cookies is what comes of all that were set by responses whose heads were
//! asked about, and what is kept of authorizations what comes of all that were shown by requests that no part in front answered (`specs/StickyRuns.antt`).
//!
//! A chain without rules, recorded list, kept cookies, kept authorizations and such a filter whose addons leave every draft as it is changes nothing (`specs/Quiet.antt`). It stays such a
//! chain, and each of its answers lets the flow go on as it was asked about: so `Chain` is a px_core `Kind` too, and px_core's law says it
//! of whole traces.
//!
//! All functions that lend a boxed addon stand here. Those above hand a list of boxes over, and no more.
#![tactic(auto)]

mod addon;
mod blocking;
mod chain;
mod counter;
mod laws;
mod mapping;
mod numbering;
mod parts;
mod replaying;
mod rules;
mod sticking;
mod waiting;

pub use addon::Addon;
pub use chain::Chain;
pub use counter::FlowCounter;
pub use laws::{
    a_block_rule_comes_first, a_chain_keeps_the_cookies_of_all_responses,
    a_chain_keeps_what_all_requests_showed, a_chain_that_changes_nothing,
    a_chain_without_a_filter_lets_nothing_wait, a_chain_without_map_local_reads_nothing,
    a_flow_counter_changes_no_draft, a_flow_that_the_filter_takes_waits,
    addons_see_what_those_before_did, an_addons_size_stands, an_answer_keeps_its_addons,
    each_whole_request_gets_the_least_place, map_local_answers_with_short_responses,
    map_local_reads_only_what_rules_name, nothing_is_streamed_where_flows_are_recorded_or_wait,
    recorded_flows_come_first_at_a_whole_request, without_recorded_flows_no_date_is_moved,
};
pub use numbering::Numbering;
pub use parts::Part;
pub use px_core::{Draft, Verdict};
pub use rules::Rules;
