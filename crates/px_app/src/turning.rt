//! One thing heard, worked off: for the conversation whose it is, or for an operator.
//!
//! What is said to operators stands in what the network tells, and not in the trace that the router stands for. So each clause here speaks of the trace of conversations, and
//! of what is told beside it.
ghost use Rattle.std.specs.Prelude.{◌≡◌, ℕ, true, List, ◌++◌, ◌∷◌, [], Option, Some, None, IfOk, OnOk, OnErr};
ghost use Rattle.std.specs.List.{flat_map};
ghost use Rattle.px_message.specs.declared.address.Address.{Address as PeerAddress};
ghost use Rattle.px_event.specs.Layer.{Move};
ghost use Rattle.px_event.specs.Trace.{Trace};
ghost use Rattle.px_event.specs.declared.heard.Heard.TheVariants.{Closed as HasClosed, Piece as PieceOf};
ghost use Rattle.px_event.specs.declared.side.Side.TheVariants.{Client as OfClient};
ghost use Rattle.px_core.specs.Answers.{files_meaning, state_of};
ghost use Rattle.px_core.specs.Course.{Course};
ghost use Rattle.px_core.specs.Due.{Due};
ghost use Rattle.px_core.specs.Router.{RouterStands};
ghost use Rattle.px_core.specs.Run.{IsDueOf, Tells, done_of};
ghost use Rattle.px_app.specs.Operating.{OperatorsStand, accepted_at, accepted_by, speaks, spoken_of};
ghost use Rattle.px_app.specs.declared.operators.Spoken.TheVariants.{Nothing as SaysNothing};
ghost use Rattle.px_app.specs.Over.{Goes, LeavesBehind};
ghost use Rattle.px_app.specs.Saved.{SavesTo};
ghost use Rattle.px_app.specs.Serving.{IsSound, TurnBroke, Turned};
ghost use Rattle.px_app.specs.Worked.{has_left, is_quit};

use crate::finished::{Before, Finished};
use crate::operators::Spoken;
use crate::serving::{Serving, is_end};
use px_core::{Answerer, Maker, Owes, work_off};
use px_event::{Door, Heard, Said, Side};
use px_obey::{Outcome, obey};
use px_outside::{Files, Net};
use px_text::{Bytes, NoMemory};
use std::alloc::Global;

impl<C: Owes, A: Answerer, M: Maker<C>> Serving<C, A, M> {
    /// Works off one thing that the network has just told, for its conversation or for an operator, and tells whether the run ends by it.
    pub(crate) fn turn<K: Before, N: Net, F: Files>(
        &mut self,
        alloc: Global,
        net: &mut N,
        files: &mut F,
        finished: &mut Finished<K>,
        moment: u64,
        heard: Heard,
    ) -> Result<bool, NoMemory>
        requires sound { IsSound C.stands C.awaited C.number C.due A.answers A.drops A.names A.state (M.due self.old.maker) (files_meaning F.contents F.calls F.misses F.faults F.losses files.old) self.old.router }
        ensures ok { (due : Due) (course : Course A.State) (trace : Trace) → IsDueOf (M.due self.old.maker) due → RouterStands C.stands C.awaited C.number C.due A.answers A.state due course (files_meaning F.contents F.calls F.misses F.faults F.losses files.old) self.old.router trace → OperatorsStand self.old.operators trace →
            IfOk result (λ over. Turned C.stands C.awaited C.number C.due A.answers A.drops A.names A.state due (files_meaning F.contents F.calls F.misses F.faults F.losses files.new) self.new.router self.new.operators trace course moment heard over (N.trace net.old) (N.trace net.new)) }
        ensures breaks { (due : Due) (course : Course A.State) (trace told : Trace) → IsDueOf (M.due self.old.maker) due → RouterStands C.stands C.awaited C.number C.due A.answers A.state due course (files_meaning F.contents F.calls F.misses F.faults F.losses files.old) self.old.router trace → OperatorsStand self.old.operators trace → N.trace net.old ≡ Some told →
            OnErr result (TurnBroke A.answers A.drops A.names A.fails due trace course moment heard told (N.trace net.new) (files_meaning F.contents F.calls F.misses F.faults F.losses files.new)) }
        ensures sound { OnOk result (IsSound C.stands C.awaited C.number C.due A.answers A.drops A.names A.state (M.due self.new.maker) (files_meaning F.contents F.calls F.misses F.faults F.losses files.new) self.new.router) }
        ensures taken { (trace : Trace) → N.trace net.old ≡ Some trace → K.before ++ finished.old.flows.items ≡ flat_map done_of trace →
            OnOk result (Tells (λ told. K.before ++ finished.new.flows.items ≡ flat_map done_of told) trace (N.trace net.new)) }
        ensures due { (number : ℕ) (at : Option PeerAddress) (moves : List Move) → M.due self.new.maker number at moves ≡ M.due self.old.maker number at moves }
        ensures count { M.alone self.new.maker ≡ M.alone self.old.maker }
        ensures printing { self.new.printing ≡ self.old.printing }
        ensures saving { self.new.saving ≡ self.old.saving }
        ensures replaying { self.new.replaying ≡ self.old.replaying }
        ensures files { (to : Option SavesTo) → LeavesBehind A.answers A.drops A.fails to (state_of A.state F.contents F.calls F.misses F.faults F.losses self.old.router.answerer files.old) (files_meaning F.contents F.calls F.misses F.faults F.losses files.new) }
        ensures given { (to : Option SavesTo) → OnOk result (Goes A.answers A.drops to (state_of A.state F.contents F.calls F.misses F.faults F.losses self.old.router.answerer files.old) (state_of A.state F.contents F.calls F.misses F.faults F.losses self.new.router.answerer files.new)) }
        ensures listening { N.listening net.new ≡ N.listening net.old }
        ensures faults { N.faults net.new ≡ N.faults net.old }
    {
        match self.spoken(heard) {
            Spoken::Nothing(heard) => self.converse(alloc, net, files, finished, moment, heard),
            Spoken::Says(conv, bytes) => {
                self.answer(alloc, net, files, finished, moment, conv, &bytes)
            }
            Spoken::Leaves(conv) => self.let_go(net, &*files, &*finished, moment, conv),
        }
    }

    /// What something heard is to operators.
    fn spoken(&self, heard: Heard) -> Spoken
        ensures { result ≡ spoken_of (speaks self.now.operators self.now.router) heard }
    {
        match heard {
            Heard::Piece { conv, side, bytes } => self.spoken_piece(conv, side, bytes),
            Heard::Closed { conv, side } => self.spoken_close(conv, side),
            heard => Spoken::Nothing(heard),
        }
    }

    fn spoken_piece(&self, conv: u32, side: Side, bytes: Bytes) -> Spoken
        ensures { result ≡ spoken_of (speaks self.now.operators self.now.router) (PieceOf conv side bytes) }
    {
        match side {
            Side::Client => {
                if self.speaks(conv) {
                    Spoken::Says(conv, bytes)
                } else {
                    Spoken::Nothing(Heard::Piece { conv, side, bytes })
                }
            }
            Side::Server(_) => Spoken::Nothing(Heard::Piece { conv, side, bytes }),
        }
    }

    fn spoken_close(&self, conv: u32, side: Side) -> Spoken
        ensures { result ≡ spoken_of (speaks self.now.operators self.now.router) (HasClosed conv side) }
    {
        match side {
            Side::Client => {
                if self.speaks(conv) {
                    Spoken::Leaves(conv)
                } else {
                    Spoken::Nothing(Heard::Closed { conv, side })
                }
            }
            Side::Server(_) => Spoken::Nothing(Heard::Closed { conv, side }),
        }
    }

    /// Whether the connection of this number is an operator's.
    fn speaks(&self, conv: u32) -> bool
        ensures { result ≡ speaks self.now.operators self.now.router conv }
    {
        self.operators.is_open(conv) && !self.router.knows(conv)
    }

    /// Works off what is of no operator; a connection that was accepted at the control door is open from then on.
    fn converse<K: Before, N: Net, F: Files>(
        &mut self,
        alloc: Global,
        net: &mut N,
        files: &mut F,
        finished: &mut Finished<K>,
        moment: u64,
        heard: Heard,
    ) -> Result<bool, NoMemory>
        requires sound { IsSound C.stands C.awaited C.number C.due A.answers A.drops A.names A.state (M.due self.old.maker) (files_meaning F.contents F.calls F.misses F.faults F.losses files.old) self.old.router }
        requires nothing { spoken_of (speaks self.old.operators self.old.router) heard ≡ SaysNothing heard }
        ensures ok { (due : Due) (course : Course A.State) (trace : Trace) → IsDueOf (M.due self.old.maker) due → RouterStands C.stands C.awaited C.number C.due A.answers A.state due course (files_meaning F.contents F.calls F.misses F.faults F.losses files.old) self.old.router trace → OperatorsStand self.old.operators trace →
            IfOk result (λ over. Turned C.stands C.awaited C.number C.due A.answers A.drops A.names A.state due (files_meaning F.contents F.calls F.misses F.faults F.losses files.new) self.new.router self.new.operators trace course moment heard over (N.trace net.old) (N.trace net.new)) }
        ensures breaks { (due : Due) (course : Course A.State) (trace told : Trace) → IsDueOf (M.due self.old.maker) due → RouterStands C.stands C.awaited C.number C.due A.answers A.state due course (files_meaning F.contents F.calls F.misses F.faults F.losses files.old) self.old.router trace → OperatorsStand self.old.operators trace → N.trace net.old ≡ Some told →
            OnErr result (TurnBroke A.answers A.drops A.names A.fails due trace course moment heard told (N.trace net.new) (files_meaning F.contents F.calls F.misses F.faults F.losses files.new)) }
        ensures sound { OnOk result (IsSound C.stands C.awaited C.number C.due A.answers A.drops A.names A.state (M.due self.new.maker) (files_meaning F.contents F.calls F.misses F.faults F.losses files.new) self.new.router) }
        ensures taken { (trace : Trace) → N.trace net.old ≡ Some trace → K.before ++ finished.old.flows.items ≡ flat_map done_of trace →
            OnOk result (Tells (λ told. K.before ++ finished.new.flows.items ≡ flat_map done_of told) trace (N.trace net.new)) }
        ensures due { (number : ℕ) (at : Option PeerAddress) (moves : List Move) → M.due self.new.maker number at moves ≡ M.due self.old.maker number at moves }
        ensures count { M.alone self.new.maker ≡ M.alone self.old.maker }
        ensures printing { self.new.printing ≡ self.old.printing }
        ensures saving { self.new.saving ≡ self.old.saving }
        ensures replaying { self.new.replaying ≡ self.old.replaying }
        ensures files { (to : Option SavesTo) → LeavesBehind A.answers A.drops A.fails to (state_of A.state F.contents F.calls F.misses F.faults F.losses self.old.router.answerer files.old) (files_meaning F.contents F.calls F.misses F.faults F.losses files.new) }
        ensures given { (to : Option SavesTo) → OnOk result (Goes A.answers A.drops to (state_of A.state F.contents F.calls F.misses F.faults F.losses self.old.router.answerer files.old) (state_of A.state F.contents F.calls F.misses F.faults F.losses self.new.router.answerer files.new)) }
        ensures listening { N.listening net.new ≡ N.listening net.old }
        ensures faults { N.faults net.new ≡ N.faults net.old }
    {
        let ends = is_end(&heard);
        let accepted = accepted_by(&heard);
        work_off(
            alloc,
            &mut self.router,
            &mut self.maker,
            files,
            net,
            finished,
            moment,
            heard,
        )?;
        self.operators.welcome(accepted)?;
        Ok(ends)
    }

    /// Obeys the lines that bytes of an operator complete.
    fn answer<K: Before, N: Net, F: Files>(
        &mut self,
        alloc: Global,
        net: &mut N,
        files: &mut F,
        finished: &mut Finished<K>,
        moment: u64,
        conv: u32,
        bytes: &Bytes,
    ) -> Result<bool, NoMemory>
        requires sound { IsSound C.stands C.awaited C.number C.due A.answers A.drops A.names A.state (M.due self.old.maker) (files_meaning F.contents F.calls F.misses F.faults F.losses files.old) self.old.router }
        requires speaks { speaks self.old.operators self.old.router conv ≡ true }
        ensures ok { (due : Due) (course : Course A.State) (trace : Trace) → IsDueOf (M.due self.old.maker) due → RouterStands C.stands C.awaited C.number C.due A.answers A.state due course (files_meaning F.contents F.calls F.misses F.faults F.losses files.old) self.old.router trace → OperatorsStand self.old.operators trace →
            IfOk result (λ over. Turned C.stands C.awaited C.number C.due A.answers A.drops A.names A.state due (files_meaning F.contents F.calls F.misses F.faults F.losses files.new) self.new.router self.new.operators trace course moment (PieceOf conv OfClient bytes.now) over (N.trace net.old) (N.trace net.new)) }
        ensures breaks { (due : Due) (course : Course A.State) (trace told : Trace) → IsDueOf (M.due self.old.maker) due → RouterStands C.stands C.awaited C.number C.due A.answers A.state due course (files_meaning F.contents F.calls F.misses F.faults F.losses files.old) self.old.router trace → OperatorsStand self.old.operators trace → N.trace net.old ≡ Some told →
            OnErr result (TurnBroke A.answers A.drops A.names A.fails due trace course moment (PieceOf conv OfClient bytes.now) told (N.trace net.new) (files_meaning F.contents F.calls F.misses F.faults F.losses files.new)) }
        ensures sound { OnOk result (IsSound C.stands C.awaited C.number C.due A.answers A.drops A.names A.state (M.due self.new.maker) (files_meaning F.contents F.calls F.misses F.faults F.losses files.new) self.new.router) }
        ensures taken { (trace : Trace) → N.trace net.old ≡ Some trace → K.before ++ finished.old.flows.items ≡ flat_map done_of trace →
            OnOk result (Tells (λ told. K.before ++ finished.new.flows.items ≡ flat_map done_of told) trace (N.trace net.new)) }
        ensures due { (number : ℕ) (at : Option PeerAddress) (moves : List Move) → M.due self.new.maker number at moves ≡ M.due self.old.maker number at moves }
        ensures count { M.alone self.new.maker ≡ M.alone self.old.maker }
        ensures printing { self.new.printing ≡ self.old.printing }
        ensures saving { self.new.saving ≡ self.old.saving }
        ensures replaying { self.new.replaying ≡ self.old.replaying }
        ensures files { (to : Option SavesTo) → LeavesBehind A.answers A.drops A.fails to (state_of A.state F.contents F.calls F.misses F.faults F.losses self.old.router.answerer files.old) (files_meaning F.contents F.calls F.misses F.faults F.losses files.new) }
        ensures given { (to : Option SavesTo) → OnOk result (Goes A.answers A.drops to (state_of A.state F.contents F.calls F.misses F.faults F.losses self.old.router.answerer files.old) (state_of A.state F.contents F.calls F.misses F.faults F.losses self.new.router.answerer files.new)) }
        ensures listening { N.listening net.new ≡ N.listening net.old }
        ensures faults { N.faults net.new ≡ N.faults net.old }
    {
        let lines = self.operators.take(alloc, conv, bytes.as_slice())?;
        let outcome = obey(
            alloc,
            &mut self.router,
            files,
            net,
            finished,
            moment,
            conv,
            lines,
        )?;
        self.operators.settle(conv, leaves(outcome));
        Ok(is_quit(outcome))
    }

    /// Closes the connection of an operator who has left.
    fn let_go<K: Before, N: Net, F: Files>(
        &mut self,
        net: &mut N,
        files: &F,
        finished: &Finished<K>,
        moment: u64,
        conv: u32,
    ) -> Result<bool, NoMemory>
        requires sound { IsSound C.stands C.awaited C.number C.due A.answers A.drops A.names A.state (M.due self.old.maker) (files_meaning F.contents F.calls F.misses F.faults F.losses files.now) self.old.router }
        requires speaks { speaks self.old.operators self.old.router conv ≡ true }
        ensures ok { (due : Due) (course : Course A.State) (trace : Trace) → IsDueOf (M.due self.old.maker) due → RouterStands C.stands C.awaited C.number C.due A.answers A.state due course (files_meaning F.contents F.calls F.misses F.faults F.losses files.now) self.old.router trace → OperatorsStand self.old.operators trace →
            IfOk result (λ over. Turned C.stands C.awaited C.number C.due A.answers A.drops A.names A.state due (files_meaning F.contents F.calls F.misses F.faults F.losses files.now) self.new.router self.new.operators trace course moment (HasClosed conv OfClient) over (N.trace net.old) (N.trace net.new)) }
        ensures breaks { (due : Due) (course : Course A.State) (trace told : Trace) → IsDueOf (M.due self.old.maker) due → RouterStands C.stands C.awaited C.number C.due A.answers A.state due course (files_meaning F.contents F.calls F.misses F.faults F.losses files.now) self.old.router trace → OperatorsStand self.old.operators trace → N.trace net.old ≡ Some told →
            OnErr result (TurnBroke A.answers A.drops A.names A.fails due trace course moment (HasClosed conv OfClient) told (N.trace net.new) (files_meaning F.contents F.calls F.misses F.faults F.losses files.now)) }
        ensures sound { OnOk result (IsSound C.stands C.awaited C.number C.due A.answers A.drops A.names A.state (M.due self.new.maker) (files_meaning F.contents F.calls F.misses F.faults F.losses files.now) self.new.router) }
        ensures taken { (trace : Trace) → N.trace net.old ≡ Some trace → K.before ++ finished.now.flows.items ≡ flat_map done_of trace →
            OnOk result (Tells (λ told. K.before ++ finished.now.flows.items ≡ flat_map done_of told) trace (N.trace net.new)) }
        ensures due { (number : ℕ) (at : Option PeerAddress) (moves : List Move) → M.due self.new.maker number at moves ≡ M.due self.old.maker number at moves }
        ensures count { M.alone self.new.maker ≡ M.alone self.old.maker }
        ensures printing { self.new.printing ≡ self.old.printing }
        ensures saving { self.new.saving ≡ self.old.saving }
        ensures replaying { self.new.replaying ≡ self.old.replaying }
        ensures files { (to : Option SavesTo) → LeavesBehind A.answers A.drops A.fails to (state_of A.state F.contents F.calls F.misses F.faults F.losses self.old.router.answerer files.now) (files_meaning F.contents F.calls F.misses F.faults F.losses files.now) }
        ensures given { (to : Option SavesTo) → OnOk result (Goes A.answers A.drops to (state_of A.state F.contents F.calls F.misses F.faults F.losses self.old.router.answerer files.now) (state_of A.state F.contents F.calls F.misses F.faults F.losses self.new.router.answerer files.now)) }
        ensures listening { N.listening net.new ≡ N.listening net.old }
        ensures faults { N.faults net.new ≡ N.faults net.old }
    {
        net.say(conv, Said::Close { side: Side::Client })?;
        self.operators.close(conv);
        Ok(false)
    }
}

/// The number of a connection that was accepted at the control door.
fn accepted_by(heard: &Heard) -> Option<u32>
    ensures { result ≡ accepted_by heard.now }
{
    match heard {
        Heard::Accepted { conv, door, .. } => accepted_at(*conv, *door),
        Heard::Piece { .. } | Heard::Closed { .. } | Heard::Dialled { .. } | Heard::End => None,
    }
}

fn accepted_at(conv: u32, door: Door) -> Option<u32>
    ensures { result ≡ accepted_at conv door }
{
    match door {
        Door::Control => Some(conv),
        Door::Proxy => None,
    }
}

/// Whether the connection was closed.
fn leaves(outcome: Outcome) -> bool
    ensures { result ≡ has_left outcome }
{
    matches!(outcome, Outcome::Leaves)
}

/// Whether the run ends.
fn is_quit(outcome: Outcome) -> bool
    ensures { result ≡ is_quit outcome }
{
    matches!(outcome, Outcome::Quits)
}
