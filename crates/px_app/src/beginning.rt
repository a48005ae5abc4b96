//! Recorded requests that are sent again: each begins as a conversation without a client, where the flow of the one before is finished.
//!
//! So one is on its way at most. Where its flow is finished as it begins, as by a rule that answers it, the next one begins in the same step.
ghost use Rattle.std.specs.Prelude.{◌≡◌, ◌≤◌, ◌<◌, ◌+◌, ◌⊎◌, ◌++◌, ◌∷◌, ℕ, [], false, Some, List, Option, IfOk, OnOk, OnErr};
ghost use Rattle.std.specs.List.{flat_map};
ghost use Rattle.px_message.specs.declared.address.Address.{Address as PeerAddress};
ghost use Rattle.px_event.specs.Layer.{Move};
ghost use Rattle.px_event.specs.Trace.{Trace};
ghost use Rattle.px_outside.specs.Count.{Rose};
ghost use Rattle.px_core.specs.Answers.{AnswererState, ByAnswers, FilesAfter, files_meaning, state_of};
ghost use Rattle.px_core.specs.Calls.{number_end};
ghost use Rattle.px_core.specs.Course.{Course};
ghost use Rattle.px_core.specs.Due.{Due};
ghost use Rattle.px_core.specs.Router.{IsNow, RouterStands, is_known};
ghost use Rattle.px_core.specs.Run.{AddsBegun, BreaksBegun, IsDueOf, Tells, done_of};
ghost use Rattle.px_app.specs.Over.{Goes, KeepsLosses, LeavesBehind};
ghost use Rattle.px_app.specs.Run.{ToldOn};
ghost use Rattle.px_app.specs.Saved.{saves_to_of};
ghost use Rattle.px_app.specs.Serving.{Between, BrokeOff, IsSound, RestsNow};

use crate::finished::{Before, Finished};
use crate::printing::Printing;
use crate::replaying::{FIRST_NUMBER, Replaying};
use crate::serving::Serving;
use px_core::{Answerer, Maker, Owes, begin_alone};
use px_message::Flow;
use px_outside::{Files, Net, Sink};
use px_text::NoMemory;
use std::alloc::Global;
use std::marker::Brand;

impl<C: Owes, A: Answerer, M: Maker<C>> Serving<C, A, M> {
    /// Begins the requests that wait to be sent again, one behind the other, until one is on its way or all have begun, at the moment of what was heard last; and prints and
    /// saves the flows that they finish. After `NoMemory` so it is with a prefix of them.
    pub(crate) fn begin_replays<N: Net, F: Files, S: Sink>(
        &mut self,
        alloc: Global,
        net: &mut N,
        files: &mut F,
        out: &mut S,
        moment: u64,
    ) -> Result<(), NoMemory>
        requires losses { KeepsLosses A.answers A.fails }
        requires sound { IsSound C.stands C.awaited C.number C.due A.answers A.drops A.names A.state (M.due self.old.maker) (files_meaning F.contents F.calls F.misses F.faults F.losses files.old) self.old.router }
        ensures ok { (due : Due) (first : AnswererState A.State) (start : Option (List ℕ)) (trace : Trace) → IsDueOf (M.due self.old.maker) due → RestsNow C.stands C.awaited C.number C.due A.answers A.drops A.names A.state due first (saves_to_of self.old.saving) (files_meaning F.contents F.calls F.misses F.faults F.losses files.old) self.old.router self.old.operators self.old.printing self.old.replaying (M.alone self.old.maker) start (S.written out.old) false moment trace → N.trace net.old ≡ Some trace →
            OnOk result (ToldOn (Between C.stands C.awaited C.number C.due A.answers A.drops A.names A.state due first (saves_to_of self.old.saving) (files_meaning F.contents F.calls F.misses F.faults F.losses files.new) self.new.router self.new.operators self.new.printing self.new.replaying (M.alone self.old.maker) start (S.written out.new)) trace (N.trace net.new)) }
        ensures err { (due : Due) (first : AnswererState A.State) (start : Option (List ℕ)) (trace : Trace) → IsDueOf (M.due self.old.maker) due → RestsNow C.stands C.awaited C.number C.due A.answers A.drops A.names A.state due first (saves_to_of self.old.saving) (files_meaning F.contents F.calls F.misses F.faults F.losses files.old) self.old.router self.old.operators self.old.printing self.old.replaying (M.alone self.old.maker) start (S.written out.old) false moment trace → N.trace net.old ≡ Some trace →
            OnErr result (ToldOn (BrokeOff A.answers A.drops A.names A.fails due first (saves_to_of self.old.saving) (files_meaning F.contents F.calls F.misses F.faults F.losses files.new) (M.alone self.old.maker) start (S.written out.new)) trace (N.trace net.new)) }
        ensures sound { OnOk result (IsSound C.stands C.awaited C.number C.due A.answers A.drops A.names A.state (M.due self.new.maker) (files_meaning F.contents F.calls F.misses F.faults F.losses files.new) self.new.router) }
        ensures due { (number : ℕ) (at : Option PeerAddress) (moves : List Move) → M.due self.new.maker number at moves ≡ M.due self.old.maker number at moves }
        ensures count { M.alone self.new.maker ≡ M.alone self.old.maker }
        ensures saving { self.new.saving ≡ self.old.saving }
        ensures failed { (first lost : ℕ) → first ≤ S.faults out.old → lost ≤ F.losses files.old → (self.old.printing ≡ Printing.Failed → Rose first (S.faults out.old) ⊎ Rose lost (F.losses files.old)) →
            self.new.printing ≡ Printing.Failed → Rose first (S.faults out.new) ⊎ Rose lost (F.losses files.new) }
        ensures later_out { S.faults out.old ≤ S.faults out.new }
        ensures later_losses { F.losses files.old ≤ F.losses files.new }
        ensures files { LeavesBehind A.answers A.drops A.fails (saves_to_of self.old.saving) (state_of A.state F.contents F.calls F.misses F.faults F.losses self.old.router.answerer files.old) (files_meaning F.contents F.calls F.misses F.faults F.losses files.new) }
        ensures given { OnOk result (Goes A.answers A.drops (saves_to_of self.old.saving) (state_of A.state F.contents F.calls F.misses F.faults F.losses self.old.router.answerer files.old) (state_of A.state F.contents F.calls F.misses F.faults F.losses self.new.router.answerer files.new)) }
        ensures listening { N.listening net.new ≡ N.listening net.old }
        ensures faults { N.faults net.new ≡ N.faults net.old }
    {
        let count = self.maker.count_alone();
        'begins: for index in self.replaying.begun..count {
            if self.replaying.going {
                return Ok(());
            }
            self.begin_next(alloc, net, files, out, moment, index)?;
        }
        Ok(())
    }

    /// Begins the request of this place, unless its conversation has begun, and prints and saves the flows that it finishes.
    fn begin_next<N: Net, F: Files, S: Sink>(
        &mut self,
        alloc: Global,
        net: &mut N,
        files: &mut F,
        out: &mut S,
        moment: u64,
        index: u32,
    ) -> Result<(), NoMemory>
        requires losses { KeepsLosses A.answers A.fails }
        requires sound { IsSound C.stands C.awaited C.number C.due A.answers A.drops A.names A.state (M.due self.old.maker) (files_meaning F.contents F.calls F.misses F.faults F.losses files.old) self.old.router }
        requires few { index < M.alone self.old.maker }
        requires small { M.alone self.old.maker ≤ number_end }
        ensures ok { (due : Due) (first : AnswererState A.State) (start : Option (List ℕ)) (trace : Trace) → IsDueOf (M.due self.old.maker) due → RestsNow C.stands C.awaited C.number C.due A.answers A.drops A.names A.state due first (saves_to_of self.old.saving) (files_meaning F.contents F.calls F.misses F.faults F.losses files.old) self.old.router self.old.operators self.old.printing self.old.replaying (M.alone self.old.maker) start (S.written out.old) false moment trace → N.trace net.old ≡ Some trace → index ≡ self.old.replaying.begun → self.old.replaying.going ≡ false →
            OnOk result (ToldOn (RestsNow C.stands C.awaited C.number C.due A.answers A.drops A.names A.state due first (saves_to_of self.old.saving) (files_meaning F.contents F.calls F.misses F.faults F.losses files.new) self.new.router self.new.operators self.new.printing self.new.replaying (M.alone self.old.maker) start (S.written out.new) false moment) trace (N.trace net.new) × (self.new.replaying.begun ≡ index + 1)) }
        ensures err { (due : Due) (first : AnswererState A.State) (start : Option (List ℕ)) (trace : Trace) → IsDueOf (M.due self.old.maker) due → RestsNow C.stands C.awaited C.number C.due A.answers A.drops A.names A.state due first (saves_to_of self.old.saving) (files_meaning F.contents F.calls F.misses F.faults F.losses files.old) self.old.router self.old.operators self.old.printing self.old.replaying (M.alone self.old.maker) start (S.written out.old) false moment trace → N.trace net.old ≡ Some trace → index ≡ self.old.replaying.begun → self.old.replaying.going ≡ false →
            OnErr result (ToldOn (BrokeOff A.answers A.drops A.names A.fails due first (saves_to_of self.old.saving) (files_meaning F.contents F.calls F.misses F.faults F.losses files.new) (M.alone self.old.maker) start (S.written out.new)) trace (N.trace net.new)) }
        ensures sound { OnOk result (IsSound C.stands C.awaited C.number C.due A.answers A.drops A.names A.state (M.due self.new.maker) (files_meaning F.contents F.calls F.misses F.faults F.losses files.new) self.new.router) }
        ensures due { (number : ℕ) (at : Option PeerAddress) (moves : List Move) → M.due self.new.maker number at moves ≡ M.due self.old.maker number at moves }
        ensures count { M.alone self.new.maker ≡ M.alone self.old.maker }
        ensures saving { self.new.saving ≡ self.old.saving }
        ensures failed { (first lost : ℕ) → first ≤ S.faults out.old → lost ≤ F.losses files.old → (self.old.printing ≡ Printing.Failed → Rose first (S.faults out.old) ⊎ Rose lost (F.losses files.old)) →
            self.new.printing ≡ Printing.Failed → Rose first (S.faults out.new) ⊎ Rose lost (F.losses files.new) }
        ensures later_out { S.faults out.old ≤ S.faults out.new }
        ensures later_losses { F.losses files.old ≤ F.losses files.new }
        ensures files { LeavesBehind A.answers A.drops A.fails (saves_to_of self.old.saving) (state_of A.state F.contents F.calls F.misses F.faults F.losses self.old.router.answerer files.old) (files_meaning F.contents F.calls F.misses F.faults F.losses files.new) }
        ensures given { OnOk result (Goes A.answers A.drops (saves_to_of self.old.saving) (state_of A.state F.contents F.calls F.misses F.faults F.losses self.old.router.answerer files.old) (state_of A.state F.contents F.calls F.misses F.faults F.losses self.new.router.answerer files.new)) }
        ensures listening { N.listening net.new ≡ N.listening net.old }
        ensures faults { N.faults net.new ≡ N.faults net.old }
    {
        let conv = FIRST_NUMBER + index;
        if self.router.knows(conv) {
            return Ok(());
        }
        let flows = self.begin_one::<Brand, N, F>(alloc, net, files, moment, conv)?;
        let going = Replaying {
            begun: index + 1,
            going: true,
        };
        self.replaying = going.behind(&flows);
        self.printing = self
            .printing
            .put_flows(alloc, self.saving.as_ref(), files, out, flows)?;
        Ok(())
    }

    /// Begins the conversation without a client of this number, and gives the flows that it finished.
    fn begin_one<K: Before, N: Net, F: Files>(
        &mut self,
        alloc: Global,
        net: &mut N,
        files: &mut F,
        moment: u64,
        conv: u32,
    ) -> Result<Vec<Flow>, NoMemory>
        requires sound { IsSound C.stands C.awaited C.number C.due A.answers A.drops A.names A.state (M.due self.old.maker) (files_meaning F.contents F.calls F.misses F.faults F.losses files.old) self.old.router }
        requires unknown { is_known self.old.router conv ≡ false }
        requires first { number_end ≤ conv }
        requires few { conv < number_end + M.alone self.old.maker }
        ensures ok { (due : Due) (course : Course A.State) (trace : Trace) → IsDueOf (M.due self.old.maker) due → RouterStands C.stands C.awaited C.number C.due A.answers A.state due course (files_meaning F.contents F.calls F.misses F.faults F.losses files.old) self.old.router trace → IsNow moment trace →
            OnOk result (AddsBegun (RouterStands C.stands C.awaited C.number C.due A.answers A.state due course (files_meaning F.contents F.calls F.misses F.faults F.losses files.new) self.new.router) conv trace (N.trace net.old) (N.trace net.new)) }
        ensures breaks { (due : Due) (course : Course A.State) (trace told : Trace) → IsDueOf (M.due self.old.maker) due → RouterStands C.stands C.awaited C.number C.due A.answers A.state due course (files_meaning F.contents F.calls F.misses F.faults F.losses files.old) self.old.router trace → IsNow moment trace → N.trace net.old ≡ Some told →
            OnErr result (BreaksBegun A.answers A.fails due course conv trace told (N.trace net.new) (files_meaning F.contents F.calls F.misses F.faults F.losses files.new)) }
        ensures finished { (trace : Trace) → N.trace net.old ≡ Some trace → K.before ≡ flat_map done_of trace →
            IfOk result (λ flows. Tells (λ told. K.before ++ flows.items ≡ flat_map done_of told) trace (N.trace net.new)) }
        ensures sound { OnOk result (IsSound C.stands C.awaited C.number C.due A.answers A.drops A.names A.state (M.due self.new.maker) (files_meaning F.contents F.calls F.misses F.faults F.losses files.new) self.new.router) }
        ensures due { (number : ℕ) (at : Option PeerAddress) (moves : List Move) → M.due self.new.maker number at moves ≡ M.due self.old.maker number at moves }
        ensures count { M.alone self.new.maker ≡ M.alone self.old.maker }
        ensures operators { self.new.operators ≡ self.old.operators }
        ensures printing { self.new.printing ≡ self.old.printing }
        ensures saving { self.new.saving ≡ self.old.saving }
        ensures replaying { self.new.replaying ≡ self.old.replaying }
        ensures files { FilesAfter A.answers A.fails (state_of A.state F.contents F.calls F.misses F.faults F.losses self.old.router.answerer files.old) (files_meaning F.contents F.calls F.misses F.faults F.losses files.new) }
        ensures given { OnOk result (ByAnswers A.answers (state_of A.state F.contents F.calls F.misses F.faults F.losses self.old.router.answerer files.old) (state_of A.state F.contents F.calls F.misses F.faults F.losses self.new.router.answerer files.new)) }
        ensures listening { N.listening net.new ≡ N.listening net.old }
        ensures faults { N.faults net.new ≡ N.faults net.old }
    {
        let mut finished = Finished::<K>::new(alloc);
        begin_alone(
            alloc,
            &mut self.router,
            &mut self.maker,
            files,
            net,
            &mut finished,
            moment,
            conv,
        )?;
        Ok(finished.flows)
    }
}
