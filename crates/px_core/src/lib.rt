//! Many conversations over one network.
//!
//! What is due in a conversation is a function of its calls, and its calls are a function of the trace
//! (`specs/Calls.antt`). So the promise on a trace names no program: at every moment, in each conversation and each view,
//! the trace has a beginning of what is due by the calls so far; directly before each thing heard it has all of it; and
//! each answer to a hook is one that the answerer may give about the flow with which the hook was asked; and hooks are
//! answered once and in order (`specs/Hooks.antt`): at each step's end none is open but those that the answerer lets wait
//! (`specs/Due.antt`, `IsServed`). `work_off` keeps it in every exit, for any conversation whose due only grows (`Owes`).
//!
//! One answerer answers the hooks of all conversations, and what it is goes along the trace: it moves at each hook that is
//! asked, once, by its own relation, and else only where the course of the run says so (`specs/Answered.antt`, `specs/Course.antt`). So
//! each answer follows from what the answerer was at first, from all that it was asked before and from those changes, in every exit too, and so does what becomes of files (`specs/Answers.antt`).
//! And what holds of each answer from states of one property holds of each reply in the trace, for the flow with which its hook
//! was asked (`specs/Kind.antt`).
//!
//! An operator may let a hook that waits go on, or kill its flow, and change its draft before: each change is one of px_draft's, made of what those before it left. What
//! the changes made is the flow of the reply, and it is one function of them and of the draft that the answerer gave (`specs/Answered.antt`, `at_edit`).
//!
//! An answerer may have addons, each with a name (`specs/Addons.antt`). `drop_addon` takes the first of a name away, and leaves the
//! others as they are; what that makes of its state is its own relation, as its answers are.
//!
//! A conversation may have no client (`begin_alone`): it begins with no one heard, under a number from 2^31 on, which no accepted connection has, and a step of its own
//! says so.
//!
//! A conversation that is over by its calls stays over, and no call behind them changes what is due.
#![tactic(auto)]

mod alone;
mod answerer;
mod conversation;
mod flows;
mod gated;
mod gates;
mod held;
mod kind;
mod laws;
mod maker;
mod news;
mod numbered;
mod operation;
mod owes;
mod router;
mod runs;
mod table;
mod waiting;
mod work;

pub use alone::begin_alone;
pub use answerer::{Answer, Answerer, Draft, NoSuchAddon, Verdict};
pub use conversation::Conversation;
pub use gates::{Gates, LayerMaker};
pub use kind::Kind;
pub use laws::{
    an_end_lasts, answers_are_of_their_kind, no_hook_is_asked_behind_its_end, no_hook_waits,
    nobody_hears, what_waits_is_drafted,
};
pub use maker::{Maker, Taker};
pub use numbered::Numbered;
pub use operation::{OperateError, Operation};
pub use owes::Owes;
pub use router::Router;
pub use work::{operate_over, work_off};
