//! Rules that send a request elsewhere or answer it without a server: map remote, map local and block rules.
//!
//! Each rule is one text, in the forms of px_rule: its first character is the separator, a filter may stand in front, and a list
//! of texts is read whole or refused with the first that is none, at its first cause.
//!
//! **Map remote** replaces all matches of a pattern in the request's URL (`specs/Remote.antt`). A flow's URL is the text of
//! px_message, `http://`, host, port unless it is 80, and path; what comes of the replacing is read as a target in absolute
//! form, and gives the new host, port and path. Where the URL stays, nothing is changed; where it changes, the field `Host`, if the
//! request has one, is set with it (`specs/Url.antt`). The rules are taken in order, each on the flow as those before it left
//! it, and the first that makes something else than a URL stops them.
//!
//! **Map local** answers with files. What the rules that match mean for a flow is a list (`specs/Served.antt`): the file of
//! each, or none where its path would lead up from the rule's directory. What is read, and what is answered by it, is a
//! relation of this list, the calls that were made of `Files`, and the response (`specs/Reads.antt`): the first file that is
//! there is given, a read that fails ends in 500, and where nothing is there it is 404. So which files a request can have
//! read is told by the definitions alone, and it is a law that no read leaves the directory of its rule (`specs/Within.antt`). What
//! links in a directory lead to is the matter of who made them.
//!
//! **Block rules** tell a status: that of the first rule that holds (`specs/Block.antt`).
#![tactic(auto)]

mod block;
mod laws;
mod local;
mod remote;
mod responses;
mod seeking;
mod served;
mod url;

pub use block::{BlockRule, BlockRules};
pub use laws::{
    a_block_rule_has_a_status, block_rules_that_hold_nowhere_block_nothing,
    no_request_reads_beside_a_directory, remote_rules_that_hold_nowhere_change_nothing,
    the_first_block_rule_that_holds_decides,
};
pub use local::{LocalRule, LocalRules};
pub use remote::{RemoteRule, RemoteRules};
