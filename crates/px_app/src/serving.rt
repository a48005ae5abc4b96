//! A run of many conversations: each thing heard is worked off, and then the flows that it finished are printed and saved.
//!
//! Between two things heard the state is a function of the trace: the router stands for it, and what is printed and saved is what is
//! due of its finished flows. Each clause holds for every trace that the router stands for, and for whoever makes conversations and
//! answers hooks.
ghost use Rattle.std.specs.Prelude.{◌≡◌, ◌≢◌, ◌≤◌, ◌<◌, ◌⊎◌, ◌++◌, ◌∷◌, ℕ, [], false, Some, Err, List, Option, IfOk, IfErr, OnOk, OnErr};
ghost use Rattle.std.specs.List.{flat_map};
ghost use Rattle.px_message.specs.declared.address.Address.{Address as PeerAddress};
ghost use Rattle.px_event.specs.Layer.{Move};
ghost use Rattle.px_event.specs.Trace.{Trace};
ghost use Rattle.px_event.specs.declared.step.Step.TheVariants.{Heard as WasHeard};
ghost use Rattle.px_outside.specs.Count.{Rose};
ghost use Rattle.px_core.specs.Answers.{AnswererState, FilesMeaning, files_meaning, state_of};
ghost use Rattle.px_core.specs.Course.{Course};
ghost use Rattle.px_core.specs.Due.{Due};
ghost use Rattle.px_core.specs.Router.{RouterStands};
ghost use Rattle.px_core.specs.Run.{IsDueOf, Tells, done_of};
ghost use Rattle.px_app.specs.Operating.{OperatorsStand};
ghost use Rattle.px_app.specs.Over.{Goes, KeepsLosses, LeavesBehind};
ghost use Rattle.px_app.specs.Run.{Told, ToldNext};
ghost use Rattle.px_app.specs.Saved.{SavesTo, saves_to_of};
ghost use Rattle.px_app.specs.Serving.{Between, BrokeOff, IsSound, Ran, RestsNow, TurnBroke, Turned};
ghost use Rattle.px_app.specs.Statuses.{is_end, heard_count};

use crate::finished::{Before, Finished};
use crate::operators::Operators;
use crate::printing::Printing;
use crate::replaying::Replaying;
use crate::saving::Saving;
use crate::status::Status;
use px_core::{Answerer, Maker, Owes, Router};
use px_event::Heard;
use px_message::Flow;
use px_outside::{Files, Net, Sink};
use px_text::NoMemory;
use std::alloc::Global;
use std::marker::Brand;

/// The conversations of a run, its operators, who makes conversations, where flows are saved, how printing and saving went, and how far it came with the requests that it
/// sends again.
#[derive(Drop)]
pub(crate) struct Serving<C, A, M> {
    pub(crate) router: Router<C, A>,
    pub(crate) operators: Operators,
    pub(crate) maker: M,
    pub(crate) saving: Option<Saving>,
    pub(crate) printing: Printing,
    pub(crate) replaying: Replaying,
}

impl<C: Owes, A: Answerer, M: Maker<C>> Serving<C, A, M> {
    /// Nothing was heard yet.
    pub(crate) fn new(
        alloc: Global,
        answerer: A,
        maker: M,
        saving: Option<Saving>,
    ) -> Serving<C, A, M>
        ensures rests { (due : Due) (files : FilesMeaning) (total : ℕ) (start : Option (List ℕ)) → RestsNow C.stands C.awaited C.number C.due A.answers A.drops A.names A.state due (record { own = A.state answerer; files = files }) (saves_to_of result.saving) files result.router result.operators result.printing result.replaying total start start false 0 [] }
        ensures answerer { A.state result.router.answerer ≡ A.state answerer }
        ensures maker { result.maker ≡ maker }
        ensures saving { result.saving ≡ saving }
        ensures printing { result.printing ≡ Printing.Whole }
    {
        Serving {
            router: Router::new(alloc, answerer),
            operators: Operators::new(alloc),
            maker,
            saving,
            printing: Printing::Whole,
            replaying: Replaying::new(),
        }
    }

    /// Works off one thing that the network has just told; tells whether the run ends by it, and gives the flows that it finished.
    fn finish<K: Before, N: Net, F: Files>(
        &mut self,
        alloc: Global,
        net: &mut N,
        files: &mut F,
        moment: u64,
        heard: Heard,
    ) -> Result<(bool, Vec<Flow>), NoMemory>
        requires sound { IsSound C.stands C.awaited C.number C.due A.answers A.drops A.names A.state (M.due self.old.maker) (files_meaning F.contents F.calls F.misses F.faults F.losses files.old) self.old.router }
        ensures ok { (due : Due) (course : Course A.State) (trace : Trace) → IsDueOf (M.due self.old.maker) due → RouterStands C.stands C.awaited C.number C.due A.answers A.state due course (files_meaning F.contents F.calls F.misses F.faults F.losses files.old) self.old.router trace → OperatorsStand self.old.operators trace →
            IfOk result (λ given. Turned C.stands C.awaited C.number C.due A.answers A.drops A.names A.state due (files_meaning F.contents F.calls F.misses F.faults F.losses files.new) self.new.router self.new.operators trace course moment heard given.0 (N.trace net.old) (N.trace net.new)) }
        ensures breaks { (due : Due) (course : Course A.State) (trace told : Trace) → IsDueOf (M.due self.old.maker) due → RouterStands C.stands C.awaited C.number C.due A.answers A.state due course (files_meaning F.contents F.calls F.misses F.faults F.losses files.old) self.old.router trace → OperatorsStand self.old.operators trace → N.trace net.old ≡ Some told →
            OnErr result (TurnBroke A.answers A.drops A.names A.fails due trace course moment heard told (N.trace net.new) (files_meaning F.contents F.calls F.misses F.faults F.losses files.new)) }
        ensures sound { OnOk result (IsSound C.stands C.awaited C.number C.due A.answers A.drops A.names A.state (M.due self.new.maker) (files_meaning F.contents F.calls F.misses F.faults F.losses files.new) self.new.router) }
        ensures finished { (trace : Trace) → N.trace net.old ≡ Some trace → K.before ≡ flat_map done_of trace →
            IfOk result (λ given. Tells (λ told. K.before ++ given.1.items ≡ flat_map done_of told) trace (N.trace net.new)) }
        ensures due { (number : ℕ) (at : Option PeerAddress) (moves : List Move) → M.due self.new.maker number at moves ≡ M.due self.old.maker number at moves }
        ensures count { M.alone self.new.maker ≡ M.alone self.old.maker }
        ensures printing { self.new.printing ≡ self.old.printing }
        ensures saving { self.new.saving ≡ self.old.saving }
        ensures replaying { self.new.replaying ≡ self.old.replaying }
        ensures files { (to : Option SavesTo) → LeavesBehind A.answers A.drops A.fails to (state_of A.state F.contents F.calls F.misses F.faults F.losses self.old.router.answerer files.old) (files_meaning F.contents F.calls F.misses F.faults F.losses files.new) }
        ensures given { (to : Option SavesTo) → OnOk result (Goes A.answers A.drops to (state_of A.state F.contents F.calls F.misses F.faults F.losses self.old.router.answerer files.old) (state_of A.state F.contents F.calls F.misses F.faults F.losses self.new.router.answerer files.new)) }
        ensures listening { N.listening net.new ≡ N.listening net.old }
        ensures faults { N.faults net.new ≡ N.faults net.old }
    {
        let mut finished = Finished::<K>::new(alloc);
        let over = self.turn(alloc, net, files, &mut finished, moment, heard)?;
        Ok((over, finished.flows))
    }

    /// Works off one thing that the network has just told, and then prints and saves the flows that it finished; tells whether the run ends by it. After `NoMemory` so it is
    /// with a prefix of them.
    fn take<N: Net, F: Files, S: Sink>(
        &mut self,
        alloc: Global,
        net: &mut N,
        files: &mut F,
        out: &mut S,
        moment: u64,
        heard: Heard,
    ) -> Result<bool, NoMemory>
        requires losses { KeepsLosses A.answers A.fails }
        requires sound { IsSound C.stands C.awaited C.number C.due A.answers A.drops A.names A.state (M.due self.old.maker) (files_meaning F.contents F.calls F.misses F.faults F.losses files.old) self.old.router }
        ensures ok { (due : Due) (first : AnswererState A.State) (start : Option (List ℕ)) (trace : Trace) → IsDueOf (M.due self.old.maker) due → Between C.stands C.awaited C.number C.due A.answers A.drops A.names A.state due first (saves_to_of self.old.saving) (files_meaning F.contents F.calls F.misses F.faults F.losses files.old) self.old.router self.old.operators self.old.printing self.old.replaying (M.alone self.old.maker) start (S.written out.old) trace →
            N.trace net.old ≡ Some (trace ++ WasHeard moment heard ∷ []) →
            IfOk result (λ over. ToldNext (RestsNow C.stands C.awaited C.number C.due A.answers A.drops A.names A.state due first (saves_to_of self.old.saving) (files_meaning F.contents F.calls F.misses F.faults F.losses files.new) self.new.router self.new.operators self.new.printing self.new.replaying (M.alone self.old.maker) start (S.written out.new) over moment) trace (N.trace net.new)) }
        ensures err { (due : Due) (first : AnswererState A.State) (start : Option (List ℕ)) (trace : Trace) → IsDueOf (M.due self.old.maker) due → Between C.stands C.awaited C.number C.due A.answers A.drops A.names A.state due first (saves_to_of self.old.saving) (files_meaning F.contents F.calls F.misses F.faults F.losses files.old) self.old.router self.old.operators self.old.printing self.old.replaying (M.alone self.old.maker) start (S.written out.old) trace →
            N.trace net.old ≡ Some (trace ++ WasHeard moment heard ∷ []) →
            OnErr result (ToldNext (BrokeOff A.answers A.drops A.names A.fails due first (saves_to_of self.old.saving) (files_meaning F.contents F.calls F.misses F.faults F.losses files.new) (M.alone self.old.maker) start (S.written out.new)) trace (N.trace net.new)) }
        ensures sound { OnOk result (IsSound C.stands C.awaited C.number C.due A.answers A.drops A.names A.state (M.due self.new.maker) (files_meaning F.contents F.calls F.misses F.faults F.losses files.new) self.new.router) }
        ensures due { (number : ℕ) (at : Option PeerAddress) (moves : List Move) → M.due self.new.maker number at moves ≡ M.due self.old.maker number at moves }
        ensures count { M.alone self.new.maker ≡ M.alone self.old.maker }
        ensures saving { self.new.saving ≡ self.old.saving }
        ensures failed { (first lost : ℕ) → first ≤ S.faults out.old → lost ≤ F.losses files.old → (self.old.printing ≡ Printing.Failed → Rose first (S.faults out.old) ⊎ Rose lost (F.losses files.old)) →
            self.new.printing ≡ Printing.Failed → Rose first (S.faults out.new) ⊎ Rose lost (F.losses files.new) }
        ensures later_out { S.faults out.old ≤ S.faults out.new }
        ensures later_losses { F.losses files.old ≤ F.losses files.new }
        ensures files { LeavesBehind A.answers A.drops A.fails (saves_to_of self.old.saving) (state_of A.state F.contents F.calls F.misses F.faults F.losses self.old.router.answerer files.old) (files_meaning F.contents F.calls F.misses F.faults F.losses files.new) }
        ensures given { OnOk result (Goes A.answers A.drops (saves_to_of self.old.saving) (state_of A.state F.contents F.calls F.misses F.faults F.losses self.old.router.answerer files.old) (state_of A.state F.contents F.calls F.misses F.faults F.losses self.new.router.answerer files.new)) }
        ensures listening { N.listening net.new ≡ N.listening net.old }
        ensures faults { N.faults net.new ≡ N.faults net.old }
    {
        let (over, flows) = self.finish::<Brand, N, F>(alloc, net, files, moment, heard)?;
        self.replaying = self.replaying.behind(&flows);
        self.printing = self
            .printing
            .put_flows(alloc, self.saving.as_ref(), files, out, flows)?;
        Ok(over)
    }

    /// Hears one thing, works it off, and prints and saves the flows that it finished; then the requests begin that wait to be sent again; or the run ends.
    fn hear<N: Net, F: Files, S: Sink>(
        &mut self,
        alloc: Global,
        net: &mut N,
        files: &mut F,
        out: &mut S,
    ) -> Result<(), Status>
        requires losses { KeepsLosses A.answers A.fails }
        requires sound { IsSound C.stands C.awaited C.number C.due A.answers A.drops A.names A.state (M.due self.old.maker) (files_meaning F.contents F.calls F.misses F.faults F.losses files.old) self.old.router }
        ensures ok { (due : Due) (first : AnswererState A.State) (start : Option (List ℕ)) (trace : Trace) → IsDueOf (M.due self.old.maker) due → Between C.stands C.awaited C.number C.due A.answers A.drops A.names A.state due first (saves_to_of self.old.saving) (files_meaning F.contents F.calls F.misses F.faults F.losses files.old) self.old.router self.old.operators self.old.printing self.old.replaying (M.alone self.old.maker) start (S.written out.old) trace → N.trace net.old ≡ Some trace →
            OnOk result (ToldNext (Between C.stands C.awaited C.number C.due A.answers A.drops A.names A.state due first (saves_to_of self.old.saving) (files_meaning F.contents F.calls F.misses F.faults F.losses files.new) self.new.router self.new.operators self.new.printing self.new.replaying (M.alone self.old.maker) start (S.written out.new)) trace (N.trace net.new)) }
        ensures err { (due : Due) (first : AnswererState A.State) (start : Option (List ℕ)) (trace : Trace) (budget : ℕ) → IsDueOf (M.due self.old.maker) due → Between C.stands C.awaited C.number C.due A.answers A.drops A.names A.state due first (saves_to_of self.old.saving) (files_meaning F.contents F.calls F.misses F.faults F.losses files.old) self.old.router self.old.operators self.old.printing self.old.replaying (M.alone self.old.maker) start (S.written out.old) trace → N.trace net.old ≡ Some trace →
            heard_count trace < budget → IfErr result (λ status. Told (Ran A.answers A.drops A.names A.fails due first (saves_to_of self.old.saving) budget status self.new.printing (files_meaning F.contents F.calls F.misses F.faults F.losses files.new) (M.alone self.old.maker) start (S.written out.new)) (N.trace net.new)) }
        ensures sound { OnOk result (IsSound C.stands C.awaited C.number C.due A.answers A.drops A.names A.state (M.due self.new.maker) (files_meaning F.contents F.calls F.misses F.faults F.losses files.new) self.new.router) }
        ensures due { (number : ℕ) (at : Option PeerAddress) (moves : List Move) → M.due self.new.maker number at moves ≡ M.due self.old.maker number at moves }
        ensures count { M.alone self.new.maker ≡ M.alone self.old.maker }
        ensures saving { self.new.saving ≡ self.old.saving }
        ensures failed { (first lost : ℕ) → first ≤ S.faults out.old → lost ≤ F.losses files.old → (self.old.printing ≡ Printing.Failed → Rose first (S.faults out.old) ⊎ Rose lost (F.losses files.old)) →
            self.new.printing ≡ Printing.Failed → Rose first (S.faults out.new) ⊎ Rose lost (F.losses files.new) }
        ensures later_out { S.faults out.old ≤ S.faults out.new }
        ensures later_losses { F.losses files.old ≤ F.losses files.new }
        ensures files { LeavesBehind A.answers A.drops A.fails (saves_to_of self.old.saving) (state_of A.state F.contents F.calls F.misses F.faults F.losses self.old.router.answerer files.old) (files_meaning F.contents F.calls F.misses F.faults F.losses files.new) }
        ensures given { OnOk result (Goes A.answers A.drops (saves_to_of self.old.saving) (state_of A.state F.contents F.calls F.misses F.faults F.losses self.old.router.answerer files.old) (state_of A.state F.contents F.calls F.misses F.faults F.losses self.new.router.answerer files.new)) }
        ensures listening { N.listening net.new ≡ N.listening net.old }
        ensures later { N.faults net.old ≤ N.faults net.new }
        ensures fault { result ≡ Err Status.NetFault → Rose (N.faults net.old) (N.faults net.new) }
        ensures output { result ≢ Err Status.OutputFailed }
    {
        let (moment, heard) = net.next()?;
        let over = self.take(alloc, net, files, out, moment, heard)?;
        if over {
            return Err(Status::Ended);
        }
        self.begin_replays(alloc, net, files, out, moment)?;
        Ok(())
    }
}

/// Whether nothing more will be heard.
pub(crate) fn is_end(heard: &Heard) -> bool
    ensures { result ≡ is_end heard.now }
{
    match heard {
        Heard::End => true,
        Heard::Accepted { .. }
        | Heard::Piece { .. }
        | Heard::Closed { .. }
        | Heard::Dialled { .. } => false,
    }
}

/// The requests begin that wait to be sent again; then it hears and works off one thing after the other, until the net ends or so many were heard.
pub(crate) fn serve_all<C: Owes, A: Answerer, M: Maker<C>, N: Net, F: Files, S: Sink>(
    alloc: Global,
    serving: &mut Serving<C, A, M>,
    net: &mut N,
    files: &mut F,
    out: &mut S,
    budget: u64,
) -> Status
    requires losses { KeepsLosses A.answers A.fails }
    requires sound { IsSound C.stands C.awaited C.number C.due A.answers A.drops A.names A.state (M.due serving.old.maker) (files_meaning F.contents F.calls F.misses F.faults F.losses files.old) serving.old.router }
    ensures run { (due : Due) (first : AnswererState A.State) (start : Option (List ℕ)) → IsDueOf (M.due serving.old.maker) due → RestsNow C.stands C.awaited C.number C.due A.answers A.drops A.names A.state due first (saves_to_of serving.old.saving) (files_meaning F.contents F.calls F.misses F.faults F.losses files.old) serving.old.router serving.old.operators serving.old.printing serving.old.replaying (M.alone serving.old.maker) start (S.written out.old) false 0 [] → N.trace net.old ≡ Some [] →
        Told (Ran A.answers A.drops A.names A.fails due first (saves_to_of serving.old.saving) budget result serving.new.printing (files_meaning F.contents F.calls F.misses F.faults F.losses files.new) (M.alone serving.old.maker) start (S.written out.new)) (N.trace net.new) }
    ensures failed { (first lost : ℕ) → first ≤ S.faults out.old → lost ≤ F.losses files.old → (serving.old.printing ≡ Printing.Failed → Rose first (S.faults out.old) ⊎ Rose lost (F.losses files.old)) →
        serving.new.printing ≡ Printing.Failed → Rose first (S.faults out.new) ⊎ Rose lost (F.losses files.new) }
    ensures later { S.faults out.old ≤ S.faults out.new }
    ensures files { LeavesBehind A.answers A.drops A.fails (saves_to_of serving.old.saving) (state_of A.state F.contents F.calls F.misses F.faults F.losses serving.old.router.answerer files.old) (files_meaning F.contents F.calls F.misses F.faults F.losses files.new) }
    ensures listening { N.listening net.new ≡ N.listening net.old }
    ensures fault { result ≡ Status.NetFault → Rose (N.faults net.old) (N.faults net.new) }
    ensures output { result ≢ Status.OutputFailed }
{
    if let Err(NoMemory) = serving.begin_replays(alloc, net, files, out, 0) {
        return Status::NoMemory;
    }
    'turns: for turn in 0..budget {
        if let Err(status) = serving.hear(alloc, net, files, out) {
            return status;
        }
    }
    Status::BudgetSpent
}
