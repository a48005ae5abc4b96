//! Many conversations, each handed its own events.
//!
//! A router stands for a trace (`RouterStands`): each live conversation stands for the calls of its number in the trace
//! and gave what the trace has of it; of one that has ended the trace has all that will ever be due; the trace is served;
//! and the answerer came over it by a course (`specs/Course.antt`): from what it was at first, by what it answered and by the
//! changes of the course, to what it is with the files as they are. Each call holds for every trace that the router stands for,
//! so it needs no word of the network. No conversation that has ended is held: of it only its number is kept, in a run of
//! neighbours. No call walks over the conversations.
//!
//! Steps are given to the caller once the whole call has succeeded. A router in which memory ran out answers so for ever.
ghost use Rattle.std.specs.Prelude.{◌≡◌, ◌≢◌, ◌≤◌, ◌&&◌, ℕ, List, is_some, Some, None, Err, IsErr, IsSome, true, false, [], IfOk, IfErr, IfSome, OnOk, OnErr};
ghost use Rattle.px_message.specs.declared.address.Address.{Address as PeerAddress};
ghost use Rattle.px_core.specs.Answers.{ByAnswers, FilesAfter, FilesMeaning, files_meaning, state_of};
ghost use Rattle.px_core.specs.Due.{Due};
ghost use Rattle.px_core.specs.Held.{IsHeardNews};
ghost use Rattle.px_core.specs.Addons.{has_name, without_first};
ghost use Rattle.px_core.specs.Answers.{AnswererState};
ghost use Rattle.px_core.specs.Calls.{calls};
ghost use Rattle.px_core.specs.Course.{Course, begins_at};
ghost use Rattle.px_core.specs.Drafts.{answers_for, edited_at};
ghost use Rattle.px_core.specs.Held.{IsReleased};
ghost use Rattle.px_core.specs.Live.{AreLive, IsLastAsked, hook_in, is_live, shown_in, waiting_hook};
ghost use Rattle.px_core.specs.Router.{found, hook_at, place_of, refusal_at, refusal_of, EditsAt, HoldsNoEnded, IsJudged, is_known, keeps_no_body, kept_in, AwaitsFor, IsTabled, TableStands, RouterStands, IsRouted, IsRefused, MovesBy, IsAtKey, HearsAt, Hands, Admits, MarksAt, Operates, ReleasesAt, Routes, BeginsNone};
ghost use Rattle.px_core.specs.declared.operation.OperateError.TheVariants.{NoMemory as RanOut, NoSuchAddon as NoneSuch};
ghost use Rattle.px_core.specs.declared.operation.Operation.TheVariants.{DropAddon as Drops, Edit as Edits, Mark as Marks};
ghost use Rattle.px_draft.specs.Edits.{changed};
ghost use Rattle.px_event.specs.declared.step.Step.{Step as GivenStep};
ghost use Rattle.px_message.specs.declared.flow.FlowId.{FlowId as FlowIdOf};
ghost use Rattle.slab.specs.Slab.{get as held_under};
ghost use Rattle.std.specs.Str.{is_utf8};
ghost use Rattle.px_core.specs.declared.table.Entry.TheVariants.{Live as IsLiveUnder};
ghost use Rattle.px_event.specs.Trace.{Trace};

use crate::held::{Call, Held};
use crate::news::{News, news_of};
use crate::runs::Runs;
use crate::table::{Conversations, Entry};
use crate::{Answerer, NoSuchAddon, OperateError, Operation, Owes};
use px_draft::{Edit, EditError};
use px_event::{Ask, Event, Heard, Hook, Step};
use px_message::{Flow, FlowId};
use px_outside::Files;
use px_text::NoMemory;
use std::alloc::Global;

/// Conversations by number, and who answers their hooks.
#[derive(Drop)]
pub struct Router<C, A> {
    alloc: Global,
    answerer: A,
    table: Conversations<C>,
    poisoned: bool,
}

impl<C: Owes, A: Answerer> Router<C, A> {
    /// No conversation was admitted. It stands for the empty trace, with any files, and the answerer is the one that is given; nothing has
    /// changed it yet.
    pub fn new(alloc: Global, answerer: A) -> Router<C, A>
        ensures stands { (due : Due) (files : FilesMeaning) → RouterStands C.stands C.awaited C.number C.due A.answers A.state due (begins_at (record { own = A.state answerer; files = files })) files result [] }
        ensures sound { IsRouted C.stands C.awaited C.number C.due A.answers result }
        ensures goes_on { HoldsNoEnded C.ended result.table }
        ensures answerer { result.answerer ≡ answerer }
    {
        Router {
            alloc,
            answerer,
            table: Conversations::new(alloc),
            poisoned: false,
        }
    }

    /// Whether a conversation of this number was admitted: exactly where it has begun in the trace that the router stands for.
    pub fn knows(&self, conv: u32) -> bool
        ensures known { result ≡ is_known self.now conv }
        ensures begun { (due : Due) (course : Course A.State) (files : FilesMeaning) (trace : Trace) → RouterStands C.stands C.awaited C.number C.due A.answers A.state due course files self.now trace →
            result ≡ is_some (calls conv trace).peer }
    {
        self.table.place(conv).is_some()
    }

    /// How many bytes the conversation keeps; 0 where it is unknown or has ended. One that keeps no body keeps at most twice 65,536 + 1,024,
    /// whatever was heard and however long its messages are.
    pub fn kept(&self, conv: u32) -> usize
        ensures kept { result ≡ kept_in C.kept (found self.now.table conv) }
        ensures bound { (due : Due) (course : Course A.State) (files : FilesMeaning) (trace : Trace) → RouterStands C.stands C.awaited C.number C.due A.answers A.state due course files self.now trace →
            keeps_no_body C.keeps_no_body (found self.now.table conv) ≡ true → result ≤ 133120 }
    {
        match self.table.place(conv) {
            Some(Entry::Live(key)) => match self.table.live.get(key) {
                Some(held) => held.conversation.kept(),
                None => 0,
            },
            Some(Entry::Ended) | None => 0,
        }
    }

    /// Admits a conversation under its number, hands it `Begun` at this moment in microseconds since 1970, and works it
    /// off. After `NoMemory` the router answers so for ever, and no step was added.
    pub fn admit<F: Files>(
        &mut self,
        moment: u64,
        conv: u32,
        conversation: C,
        files: &mut F,
        out: &mut Vec<Step>,
    ) -> Result<(), NoMemory>
        requires sound { IsRouted C.stands C.awaited C.number C.due A.answers self.old }
        requires unknown { is_known self.old conv ≡ false }
        requires number { C.number conversation ≡ conv }
        requires stands { C.stands conversation conversation [] [] }
        requires free { C.awaited conversation ≡ None }
        ensures admits { OnOk result (Admits C.stands C.awaited C.number C.due A.answers conv moment conversation self.old.table self.new.table (state_of A.state F.contents F.calls F.misses F.faults F.losses self.old.answerer files.old) (state_of A.state F.contents F.calls F.misses F.faults F.losses self.new.answerer files.new) out.old.items out.new.items) }
        ensures poisoned { self.old.poisoned ≡ true → IsErr result }
        ensures err { OnErr result ((self.new.poisoned ≡ true) × (out.new.items ≡ out.old.items)) }
        ensures ok { OnOk result (self.new.poisoned ≡ false) }
        ensures files { FilesAfter A.answers A.fails (state_of A.state F.contents F.calls F.misses F.faults F.losses self.old.answerer files.old) (files_meaning F.contents F.calls F.misses F.faults F.losses files.new) }
        ensures given { OnOk result (ByAnswers A.answers (state_of A.state F.contents F.calls F.misses F.faults F.losses self.old.answerer files.old) (state_of A.state F.contents F.calls F.misses F.faults F.losses self.new.answerer files.new)) }
        ensures goes_on { HoldsNoEnded C.ended self.old.table → OnOk result (HoldsNoEnded C.ended self.new.table) }
    {
        if self.poisoned {
            return Err(NoMemory);
        }
        self.poisoned = true;
        let mut steps = Vec::new(self.alloc);
        let call = Call {
            alloc: self.alloc,
            conv,
            moment,
        };
        self.begin(call, conversation, files, &mut steps)?;
        out.append(&mut steps)?;
        self.poisoned = false;
        Ok(())
    }

    /// Takes something heard at this moment in microseconds since 1970, and works its conversation off. News of no
    /// conversation, of one that is unknown or has ended, of a side that is not connected or of a dial that is not awaited
    /// are ignored. After `NoMemory` the router answers so for ever, and no step was added.
    pub fn take<F: Files>(
        &mut self,
        moment: u64,
        heard: Heard,
        files: &mut F,
        out: &mut Vec<Step>,
    ) -> Result<(), NoMemory>
        requires sound { IsRouted C.stands C.awaited C.number C.due A.answers self.old }
        requires begins { BeginsNone self.old heard }
        ensures routes { OnOk result (Routes C.stands C.awaited C.number C.due A.answers moment heard self.old.table self.new.table (state_of A.state F.contents F.calls F.misses F.faults F.losses self.old.answerer files.old) (state_of A.state F.contents F.calls F.misses F.faults F.losses self.new.answerer files.new) out.old.items out.new.items) }
        ensures poisoned { self.old.poisoned ≡ true → IsErr result }
        ensures err { OnErr result ((self.new.poisoned ≡ true) × (out.new.items ≡ out.old.items)) }
        ensures ok { OnOk result (self.new.poisoned ≡ false) }
        ensures files { FilesAfter A.answers A.fails (state_of A.state F.contents F.calls F.misses F.faults F.losses self.old.answerer files.old) (files_meaning F.contents F.calls F.misses F.faults F.losses files.new) }
        ensures given { OnOk result (ByAnswers A.answers (state_of A.state F.contents F.calls F.misses F.faults F.losses self.old.answerer files.old) (state_of A.state F.contents F.calls F.misses F.faults F.losses self.new.answerer files.new)) }
        ensures goes_on { HoldsNoEnded C.ended self.old.table → OnOk result (HoldsNoEnded C.ended self.new.table) }
    {
        if self.poisoned {
            return Err(NoMemory);
        }
        self.poisoned = true;
        let mut steps = Vec::new(self.alloc);
        self.hear(moment, heard, files, &mut steps)?;
        out.append(&mut steps)?;
        self.poisoned = false;
        Ok(())
    }

    /// Does what an operator asks for, at the moment of what was heard last, in microseconds since 1970.
    ///
    /// A resume or a kill answers the hook of its flow that waits: with the draft with which it waits, as edits left it, or with `Kill`; what follows is worked off
    /// as of something heard, and its steps are added. An edit changes that draft, and nothing else: it shows in the reply alone. A mark stands in the flow from when it is asked about next, or is finished. An addon that is
    /// dropped is the first of its name.
    ///
    /// `NoSuchFlow` exactly where no hook of the flow was asked or it is finished; `NotWaiting`, at a resume, a kill or an edit, exactly where it is live
    /// and no hook of it waits; behind these, at an edit, `NotThere` and `BadValue` exactly where the draft refuses the change so; `NoSuchAddon` exactly where no addon has the name, as none has one that is no UTF-8. After these nothing has
    /// changed. After `NoMemory` the router answers so for ever, and no step was added.
    pub fn operate<F: Files>(
        &mut self,
        moment: u64,
        operation: &Operation,
        files: &mut F,
        out: &mut Vec<Step>,
    ) -> Result<(), OperateError>
        requires sound { IsRouted C.stands C.awaited C.number C.due A.answers self.old }
        ensures operates { OnOk result (Operates C.stands C.awaited C.number C.due A.answers moment operation.now self.old.table self.new.table (state_of A.state F.contents F.calls F.misses F.faults F.losses self.old.answerer files.old) (state_of A.state F.contents F.calls F.misses F.faults F.losses self.new.answerer files.new) out.old.items out.new.items) }
        ensures names { (name : List ℕ) → operation.now ≡ Drops name → OnOk result (A.names (A.state self.new.answerer) ≡ without_first name (A.names (A.state self.old.answerer))) }
        ensures moves { OnOk result (MovesBy A.answers A.drops operation.now (state_of A.state F.contents F.calls F.misses F.faults F.losses self.old.answerer files.old) (state_of A.state F.contents F.calls F.misses F.faults F.losses self.new.answerer files.new)) }
        ensures done { (due : Due) (course : Course A.State) (trace : Trace) → RouterStands C.stands C.awaited C.number C.due A.answers A.state due course (files_meaning F.contents F.calls F.misses F.faults F.losses files.old) self.old trace →
            OnOk result (IsJudged A.answers due course (state_of A.state F.contents F.calls F.misses F.faults F.losses self.old.answerer files.old) (A.names (A.state self.old.answerer)) trace operation.now None) }
        ensures refused { (due : Due) (course : Course A.State) (trace : Trace) → RouterStands C.stands C.awaited C.number C.due A.answers A.state due course (files_meaning F.contents F.calls F.misses F.faults F.losses files.old) self.old trace →
            IfErr result (λ error. error ≢ RanOut → IsJudged A.answers due course (state_of A.state F.contents F.calls F.misses F.faults F.losses self.old.answerer files.old) (A.names (A.state self.old.answerer)) trace operation.now (Some error)) }
        ensures unchanged { IfErr result (λ error. error ≢ RanOut → IsRefused A.state self.old self.new × (files.new ≡ files.old)) }
        ensures poisoned { self.old.poisoned ≡ true → result ≡ Err RanOut }
        ensures err { OnErr result (out.new.items ≡ out.old.items) }
        ensures no_memory { result ≡ Err RanOut → self.new.poisoned ≡ true }
        ensures ok { OnOk result (self.new.poisoned ≡ false) }
        ensures files { FilesAfter A.answers A.fails (record { own = A.state self.old.answerer; files = files_meaning F.contents F.calls F.misses F.faults F.losses files.old }) (files_meaning F.contents F.calls F.misses F.faults F.losses files.new) }
        ensures goes_on { HoldsNoEnded C.ended self.old.table → OnOk result (HoldsNoEnded C.ended self.new.table) }
    {
        if self.poisoned {
            return Err(OperateError::NoMemory);
        }
        match answered_flow(operation) {
            Some(id) => self.release(moment, operation, id, files, out),
            None => self.change(operation),
        }
    }

    /// The flow as it was when it was asked about last, with the mark that it had then; none exactly where no hook of it was asked or it is finished.
    pub fn flow(&self, id: FlowId) -> Option<&Flow>
        ensures shown { (due : Due) (course : Course A.State) (files : FilesMeaning) (trace : Trace) → RouterStands C.stands C.awaited C.number C.due A.answers A.state due course files self.now trace →
            IfSome result (λ flow. (is_live id trace ≡ true) × IsLastAsked A.answers due course trace id flow.now) }
        ensures none { (due : Due) (course : Course A.State) (files : FilesMeaning) (trace : Trace) → RouterStands C.stands C.awaited C.number C.due A.answers A.state due course files self.now trace →
            result ≡ None → is_live id trace ≡ false }
    {
        self.table.flows.get(id)
    }

    /// The live flows, those of which a hook was asked and that are not finished, in rising order, each with its hook that waits.
    pub fn live(&self) -> Result<Vec<(FlowId, Option<Hook>)>, NoMemory>
        ensures live { (due : Due) (course : Course A.State) (files : FilesMeaning) (trace : Trace) → RouterStands C.stands C.awaited C.number C.due A.answers A.state due course files self.now trace →
            IfOk result (λ list. AreLive trace list.items) }
    {
        let mut list = Vec::new(self.alloc);
        for number in self.table.flows.asked.keys() {
            let id = FlowId {
                conv: number.0,
                index: number.1,
            };
            list.push((id, self.waiting(id)))?;
        }
        Ok(list)
    }

    /// Memory ran out where the router could not see it: it answers so for ever.
    pub(crate) fn poison(&mut self)
        ensures poisoned { self.new.poisoned ≡ true }
        ensures table { self.new.table ≡ self.old.table }
    {
        self.poisoned = true;
    }

    /// Hands what was heard to its conversation.
    fn hear<F: Files>(
        &mut self,
        moment: u64,
        heard: Heard,
        files: &mut F,
        steps: &mut Vec<Step>,
    ) -> Result<(), NoMemory>
        requires sound { IsTabled C.stands C.awaited C.number C.due A.answers self.old.table }
        requires begins { BeginsNone self.old heard }
        ensures routes { OnOk result (Routes C.stands C.awaited C.number C.due A.answers moment heard self.old.table self.new.table (state_of A.state F.contents F.calls F.misses F.faults F.losses self.old.answerer files.old) (state_of A.state F.contents F.calls F.misses F.faults F.losses self.new.answerer files.new) steps.old.items steps.new.items) }
        ensures poisoned { self.new.poisoned ≡ self.old.poisoned }
        ensures files { FilesAfter A.answers A.fails (state_of A.state F.contents F.calls F.misses F.faults F.losses self.old.answerer files.old) (files_meaning F.contents F.calls F.misses F.faults F.losses files.new) }
        ensures given { OnOk result (ByAnswers A.answers (state_of A.state F.contents F.calls F.misses F.faults F.losses self.old.answerer files.old) (state_of A.state F.contents F.calls F.misses F.faults F.losses self.new.answerer files.new)) }
        ensures goes_on { HoldsNoEnded C.ended self.old.table → OnOk result (HoldsNoEnded C.ended self.new.table) }
    {
        match news_of(heard) {
            Some((conv, news)) => {
                let call = Call {
                    alloc: self.alloc,
                    conv,
                    moment,
                };
                self.hand(call, news, files, steps)
            }
            None => Ok(()),
        }
    }

    /// Hands news to the conversation, if it is live.
    fn hand<F: Files>(
        &mut self,
        call: Call,
        news: News,
        files: &mut F,
        steps: &mut Vec<Step>,
    ) -> Result<(), NoMemory>
        requires sound { IsTabled C.stands C.awaited C.number C.due A.answers self.old.table }
        requires begins { (peer : PeerAddress) → news ≡ News.Begun peer → is_known self.old call.conv ≡ true }
        requires news { IsHeardNews news }
        ensures hands { OnOk result (Hands C.stands C.awaited C.number C.due A.answers call.conv call.moment news self.old.table self.new.table (state_of A.state F.contents F.calls F.misses F.faults F.losses self.old.answerer files.old) (state_of A.state F.contents F.calls F.misses F.faults F.losses self.new.answerer files.new) steps.old.items steps.new.items) }
        ensures poisoned { self.new.poisoned ≡ self.old.poisoned }
        ensures files { FilesAfter A.answers A.fails (state_of A.state F.contents F.calls F.misses F.faults F.losses self.old.answerer files.old) (files_meaning F.contents F.calls F.misses F.faults F.losses files.new) }
        ensures given { OnOk result (ByAnswers A.answers (state_of A.state F.contents F.calls F.misses F.faults F.losses self.old.answerer files.old) (state_of A.state F.contents F.calls F.misses F.faults F.losses self.new.answerer files.new)) }
        ensures goes_on { HoldsNoEnded C.ended self.old.table → OnOk result (HoldsNoEnded C.ended self.new.table) }
    {
        match self.table.place(call.conv) {
            Some(Entry::Live(key)) => {
                let over = self.hear_at(call, key, news, files, steps)?;
                if over {
                    self.table.end(call.conv, key)
                } else {
                    Ok(())
                }
            }
            Some(Entry::Ended) => Ok(()),
            None => Ok(()),
        }
    }

    /// Hands news to the conversation under this key, and tells whether it has ended.
    fn hear_at<F: Files>(
        &mut self,
        call: Call,
        key: usize,
        news: News,
        files: &mut F,
        steps: &mut Vec<Step>,
    ) -> Result<bool, NoMemory>
        requires held { IsAtKey C.stands C.awaited C.number C.due call.conv key self.old.table }
        requires news { IsHeardNews news }
        ensures hears { IfOk result (λ over. HearsAt C.stands C.awaited C.number C.due A.answers C.ended call.conv call.moment news key self.old.table self.new.table (state_of A.state F.contents F.calls F.misses F.faults F.losses self.old.answerer files.old) (state_of A.state F.contents F.calls F.misses F.faults F.losses self.new.answerer files.new) over steps.old.items steps.new.items) }
        ensures poisoned { self.new.poisoned ≡ self.old.poisoned }
        ensures files { FilesAfter A.answers A.fails (state_of A.state F.contents F.calls F.misses F.faults F.losses self.old.answerer files.old) (files_meaning F.contents F.calls F.misses F.faults F.losses files.new) }
        ensures given { OnOk result (ByAnswers A.answers (state_of A.state F.contents F.calls F.misses F.faults F.losses self.old.answerer files.old) (state_of A.state F.contents F.calls F.misses F.faults F.losses self.new.answerer files.new)) }
    {
        let Some(held) = self.table.live.get_mut(key) else {
            unreachable!()
        };
        held.hear(
            call,
            news,
            &mut self.answerer,
            files,
            &mut self.table.flows,
            steps,
        )?;
        Ok(held.conversation.ended())
    }

    /// Begins a conversation, and holds it unless it has ended.
    fn begin<F: Files>(
        &mut self,
        call: Call,
        conversation: C,
        files: &mut F,
        steps: &mut Vec<Step>,
    ) -> Result<(), NoMemory>
        requires sound { IsTabled C.stands C.awaited C.number C.due A.answers self.old.table }
        requires unknown { is_known self.old call.conv ≡ false }
        requires number { C.number conversation ≡ call.conv }
        requires stands { C.stands conversation conversation [] [] }
        requires free { C.awaited conversation ≡ None }
        ensures admits { OnOk result (Admits C.stands C.awaited C.number C.due A.answers call.conv call.moment conversation self.old.table self.new.table (state_of A.state F.contents F.calls F.misses F.faults F.losses self.old.answerer files.old) (state_of A.state F.contents F.calls F.misses F.faults F.losses self.new.answerer files.new) steps.old.items steps.new.items) }
        ensures poisoned { self.new.poisoned ≡ self.old.poisoned }
        ensures files { FilesAfter A.answers A.fails (state_of A.state F.contents F.calls F.misses F.faults F.losses self.old.answerer files.old) (files_meaning F.contents F.calls F.misses F.faults F.losses files.new) }
        ensures given { OnOk result (ByAnswers A.answers (state_of A.state F.contents F.calls F.misses F.faults F.losses self.old.answerer files.old) (state_of A.state F.contents F.calls F.misses F.faults F.losses self.new.answerer files.new)) }
        ensures goes_on { HoldsNoEnded C.ended self.old.table → OnOk result (HoldsNoEnded C.ended self.new.table) }
    {
        let mut held = Held {
            conversation,
            connected: Runs::new(call.alloc),
            draft: None,
            marks: Runs::new(call.alloc),
        };
        held.hand(
            call,
            Event::Begun,
            &mut self.answerer,
            files,
            &mut self.table.flows,
            steps,
        )?;
        if held.conversation.ended() {
            self.table.note_end(call.conv)
        } else {
            self.table.add(call.conv, held)?;
            Ok(())
        }
    }

    /// The hook of the flow that waits, if one does.
    fn waiting(&self, id: FlowId) -> Option<Hook>
        ensures { result ≡ hook_at C.awaited id.index (found self.now.table id.conv) }
    {
        match self.table.place(id.conv) {
            Some(Entry::Live(key)) => match self.table.live.get(key) {
                Some(held) => hook_of(held.conversation.waiting(), id.index),
                None => None,
            },
            Some(Entry::Ended) | None => None,
        }
    }

    /// The key of the flow's conversation, if a hook of the flow waits.
    fn key_of(&self, id: FlowId) -> Option<usize>
        ensures key { IfSome result (λ key. (place_of self.now.table id.conv ≡ Some (IsLiveUnder key)) × IsSome (hook_at C.awaited id.index (found self.now.table id.conv))) }
        ensures none { result ≡ None → hook_at C.awaited id.index (found self.now.table id.conv) ≡ None }
    {
        match self.table.place(id.conv) {
            Some(Entry::Live(key)) => {
                if self.waiting(id).is_some() {
                    Some(key)
                } else {
                    None
                }
            }
            Some(Entry::Ended) | None => None,
        }
    }

    /// Changes a draft, marks a flow or takes an addon away.
    fn change(&mut self, operation: &Operation) -> Result<(), OperateError>
        requires sound { IsTabled C.stands C.awaited C.number C.due A.answers self.old.table }
        requires no_flow { answers_for operation.now ≡ None }
        ensures operates { (moment : ℕ) (files : FilesMeaning) (out : List GivenStep) → OnOk result (Operates C.stands C.awaited C.number C.due A.answers moment operation.now self.old.table self.new.table (record { own = A.state self.old.answerer; files = files }) (record { own = A.state self.new.answerer; files = files }) out out) }
        ensures names { (name : List ℕ) → operation.now ≡ Drops name → OnOk result (A.names (A.state self.new.answerer) ≡ without_first name (A.names (A.state self.old.answerer))) }
        ensures moves { (files : FilesMeaning) → OnOk result (MovesBy A.answers A.drops operation.now (record { own = A.state self.old.answerer; files = files }) (record { own = A.state self.new.answerer; files = files })) }
        ensures done { (due : Due) (course : Course A.State) (files : FilesMeaning) (trace : Trace) → RouterStands C.stands C.awaited C.number C.due A.answers A.state due course files self.old trace → OnOk result (IsJudged A.answers due course (record { own = A.state self.old.answerer; files = files }) (A.names (A.state self.old.answerer)) trace operation.now None) }
        ensures refused { (due : Due) (course : Course A.State) (files : FilesMeaning) (trace : Trace) → RouterStands C.stands C.awaited C.number C.due A.answers A.state due course files self.old trace → IfErr result (λ error. error ≢ RanOut → IsJudged A.answers due course (record { own = A.state self.old.answerer; files = files }) (A.names (A.state self.old.answerer)) trace operation.now (Some error)) }
        ensures unchanged { IfErr result (λ error. error ≢ RanOut → IsRefused A.state self.old self.new) }
        ensures no_memory { result ≡ Err RanOut → self.new.poisoned ≡ true }
        ensures ok { OnOk result (self.new.poisoned ≡ self.old.poisoned) }
        ensures goes_on { HoldsNoEnded C.ended self.old.table → OnOk result (HoldsNoEnded C.ended self.new.table) }
    {
        match operation {
            Operation::Edit(id, change) => self.edit(*id, change),
            Operation::Mark(id) => self.mark(*id),
            Operation::DropAddon(name) => self.drop_named(name.as_slice()),
            Operation::Resume(_) | Operation::Kill(_) => unreachable!(),
        }
    }

    /// Answers the hook of the flow that waits, if one does, and works off what follows.
    fn release<F: Files>(
        &mut self,
        moment: u64,
        operation: &Operation,
        id: FlowId,
        files: &mut F,
        out: &mut Vec<Step>,
    ) -> Result<(), OperateError>
        requires sound { IsTabled C.stands C.awaited C.number C.due A.answers self.old.table }
        requires flow { answers_for operation.now ≡ Some id }
        ensures operates { OnOk result (Operates C.stands C.awaited C.number C.due A.answers moment operation.now self.old.table self.new.table (state_of A.state F.contents F.calls F.misses F.faults F.losses self.old.answerer files.old) (state_of A.state F.contents F.calls F.misses F.faults F.losses self.new.answerer files.new) out.old.items out.new.items) }
        ensures done { (due : Due) (course : Course A.State) (trace : Trace) → RouterStands C.stands C.awaited C.number C.due A.answers A.state due course (files_meaning F.contents F.calls F.misses F.faults F.losses files.old) self.old trace → OnOk result (refusal_at (is_live id trace) (is_some (waiting_hook id trace)) ≡ None) }
        ensures refused { (due : Due) (course : Course A.State) (trace : Trace) → RouterStands C.stands C.awaited C.number C.due A.answers A.state due course (files_meaning F.contents F.calls F.misses F.faults F.losses files.old) self.old trace → IfErr result (λ error. error ≢ RanOut → refusal_at (is_live id trace) (is_some (waiting_hook id trace)) ≡ Some error) }
        ensures unchanged { IfErr result (λ error. error ≢ RanOut → IsRefused A.state self.old self.new × (files.new ≡ files.old)) }
        ensures err { OnErr result (out.new.items ≡ out.old.items) }
        ensures no_memory { result ≡ Err RanOut → self.new.poisoned ≡ true }
        ensures ok { OnOk result (self.new.poisoned ≡ false) }
        ensures files { FilesAfter A.answers A.fails (state_of A.state F.contents F.calls F.misses F.faults F.losses self.old.answerer files.old) (files_meaning F.contents F.calls F.misses F.faults F.losses files.new) }
        ensures given { OnOk result (ByAnswers A.answers (state_of A.state F.contents F.calls F.misses F.faults F.losses self.old.answerer files.old) (state_of A.state F.contents F.calls F.misses F.faults F.losses self.new.answerer files.new)) }
        ensures goes_on { HoldsNoEnded C.ended self.old.table → OnOk result (HoldsNoEnded C.ended self.new.table) }
    {
        if self.shows(id) {
            self.release_shown(moment, operation, id, files, out)
        } else {
            Err(OperateError::NoSuchFlow)
        }
    }

    /// Answers the hook of the flow, which is live, if it waits, and works off what follows.
    fn release_shown<F: Files>(
        &mut self,
        moment: u64,
        operation: &Operation,
        id: FlowId,
        files: &mut F,
        out: &mut Vec<Step>,
    ) -> Result<(), OperateError>
        requires sound { IsTabled C.stands C.awaited C.number C.due A.answers self.old.table }
        requires flow { answers_for operation.now ≡ Some id }
        requires shows { is_some (shown_in self.old.table.flows id.conv id.index) ≡ true }
        ensures operates { OnOk result (Operates C.stands C.awaited C.number C.due A.answers moment operation.now self.old.table self.new.table (state_of A.state F.contents F.calls F.misses F.faults F.losses self.old.answerer files.old) (state_of A.state F.contents F.calls F.misses F.faults F.losses self.new.answerer files.new) out.old.items out.new.items) }
        ensures done { (due : Due) (course : Course A.State) (trace : Trace) → RouterStands C.stands C.awaited C.number C.due A.answers A.state due course (files_meaning F.contents F.calls F.misses F.faults F.losses files.old) self.old trace → OnOk result (refusal_at (is_live id trace) (is_some (waiting_hook id trace)) ≡ None) }
        ensures refused { (due : Due) (course : Course A.State) (trace : Trace) → RouterStands C.stands C.awaited C.number C.due A.answers A.state due course (files_meaning F.contents F.calls F.misses F.faults F.losses files.old) self.old trace → IfErr result (λ error. error ≢ RanOut → refusal_at (is_live id trace) (is_some (waiting_hook id trace)) ≡ Some error) }
        ensures unchanged { IfErr result (λ error. error ≢ RanOut → IsRefused A.state self.old self.new × (files.new ≡ files.old)) }
        ensures err { OnErr result (out.new.items ≡ out.old.items) }
        ensures no_memory { result ≡ Err RanOut → self.new.poisoned ≡ true }
        ensures ok { OnOk result (self.new.poisoned ≡ false) }
        ensures files { FilesAfter A.answers A.fails (state_of A.state F.contents F.calls F.misses F.faults F.losses self.old.answerer files.old) (files_meaning F.contents F.calls F.misses F.faults F.losses files.new) }
        ensures given { OnOk result (ByAnswers A.answers (state_of A.state F.contents F.calls F.misses F.faults F.losses self.old.answerer files.old) (state_of A.state F.contents F.calls F.misses F.faults F.losses self.new.answerer files.new)) }
        ensures goes_on { HoldsNoEnded C.ended self.old.table → OnOk result (HoldsNoEnded C.ended self.new.table) }
    {
        match self.key_of(id) {
            Some(key) => {
                let call = Call {
                    alloc: self.alloc,
                    conv: id.conv,
                    moment,
                };
                match self.release_out(call, operation, key, files, out) {
                    Ok(()) => Ok(()),
                    Err(NoMemory) => Err(OperateError::NoMemory),
                }
            }
            None => Err(OperateError::NotWaiting),
        }
    }

    /// Whether the flow is live.
    fn shows(&self, id: FlowId) -> bool
        ensures { result ≡ is_some (shown_in self.now.table.flows id.conv id.index) }
    {
        self.table.flows.get(id).is_some()
    }

    /// Answers the hook that the conversation under this key awaits, and gives the steps that follow.
    fn release_out<F: Files>(
        &mut self,
        call: Call,
        operation: &Operation,
        key: usize,
        files: &mut F,
        out: &mut Vec<Step>,
    ) -> Result<(), NoMemory>
        requires sound { IsTabled C.stands C.awaited C.number C.due A.answers self.old.table }
        requires flow { (id : FlowIdOf) × (answers_for operation.now ≡ Some id) × (id.conv ≡ call.conv) }
        requires place { place_of self.old.table call.conv ≡ Some (IsLiveUnder key) }
        requires waits { AwaitsFor C.awaited call.conv operation.now (found self.old.table call.conv) }
        ensures operates { OnOk result (Operates C.stands C.awaited C.number C.due A.answers call.moment operation.now self.old.table self.new.table (state_of A.state F.contents F.calls F.misses F.faults F.losses self.old.answerer files.old) (state_of A.state F.contents F.calls F.misses F.faults F.losses self.new.answerer files.new) out.old.items out.new.items) }
        ensures err { OnErr result ((self.new.poisoned ≡ true) × (out.new.items ≡ out.old.items)) }
        ensures ok { OnOk result (self.new.poisoned ≡ false) }
        ensures files { FilesAfter A.answers A.fails (state_of A.state F.contents F.calls F.misses F.faults F.losses self.old.answerer files.old) (files_meaning F.contents F.calls F.misses F.faults F.losses files.new) }
        ensures given { OnOk result (ByAnswers A.answers (state_of A.state F.contents F.calls F.misses F.faults F.losses self.old.answerer files.old) (state_of A.state F.contents F.calls F.misses F.faults F.losses self.new.answerer files.new)) }
        ensures goes_on { HoldsNoEnded C.ended self.old.table → OnOk result (HoldsNoEnded C.ended self.new.table) }
    {
        self.poisoned = true;
        let mut steps = Vec::new(self.alloc);
        self.release_in(call, operation, key, files, &mut steps)?;
        out.append(&mut steps)?;
        self.poisoned = false;
        Ok(())
    }

    /// Answers the hook that the conversation under this key awaits, and lets go of the conversation if it has ended.
    fn release_in<F: Files>(
        &mut self,
        call: Call,
        operation: &Operation,
        key: usize,
        files: &mut F,
        steps: &mut Vec<Step>,
    ) -> Result<(), NoMemory>
        requires sound { IsTabled C.stands C.awaited C.number C.due A.answers self.old.table }
        requires flow { (id : FlowIdOf) × (answers_for operation.now ≡ Some id) × (id.conv ≡ call.conv) }
        requires place { place_of self.old.table call.conv ≡ Some (IsLiveUnder key) }
        requires waits { AwaitsFor C.awaited call.conv operation.now (found self.old.table call.conv) }
        ensures operates { OnOk result (Operates C.stands C.awaited C.number C.due A.answers call.moment operation.now self.old.table self.new.table (state_of A.state F.contents F.calls F.misses F.faults F.losses self.old.answerer files.old) (state_of A.state F.contents F.calls F.misses F.faults F.losses self.new.answerer files.new) steps.old.items steps.new.items) }
        ensures poisoned { self.new.poisoned ≡ self.old.poisoned }
        ensures files { FilesAfter A.answers A.fails (state_of A.state F.contents F.calls F.misses F.faults F.losses self.old.answerer files.old) (files_meaning F.contents F.calls F.misses F.faults F.losses files.new) }
        ensures given { OnOk result (ByAnswers A.answers (state_of A.state F.contents F.calls F.misses F.faults F.losses self.old.answerer files.old) (state_of A.state F.contents F.calls F.misses F.faults F.losses self.new.answerer files.new)) }
        ensures goes_on { HoldsNoEnded C.ended self.old.table → OnOk result (HoldsNoEnded C.ended self.new.table) }
    {
        let over = self.release_at(call, operation, key, files, steps)?;
        if over {
            self.table.end(call.conv, key)
        } else {
            Ok(())
        }
    }

    /// Answers the hook that the conversation under this key awaits, and tells whether the conversation has ended.
    fn release_at<F: Files>(
        &mut self,
        call: Call,
        operation: &Operation,
        key: usize,
        files: &mut F,
        steps: &mut Vec<Step>,
    ) -> Result<bool, NoMemory>
        requires held { IsAtKey C.stands C.awaited C.number C.due call.conv key self.old.table }
        requires waits { (held : _) → held_under self.old.table.live key ≡ Some held → IsReleased C.awaited call.conv operation.now held }
        ensures releases { IfOk result (λ over. ReleasesAt C.stands C.awaited C.number C.due A.answers C.ended call.conv call.moment operation.now key self.old.table self.new.table (state_of A.state F.contents F.calls F.misses F.faults F.losses self.old.answerer files.old) (state_of A.state F.contents F.calls F.misses F.faults F.losses self.new.answerer files.new) over steps.old.items steps.new.items) }
        ensures poisoned { self.new.poisoned ≡ self.old.poisoned }
        ensures files { FilesAfter A.answers A.fails (state_of A.state F.contents F.calls F.misses F.faults F.losses self.old.answerer files.old) (files_meaning F.contents F.calls F.misses F.faults F.losses files.new) }
        ensures given { OnOk result (ByAnswers A.answers (state_of A.state F.contents F.calls F.misses F.faults F.losses self.old.answerer files.old) (state_of A.state F.contents F.calls F.misses F.faults F.losses self.new.answerer files.new)) }
    {
        let Some(held) = self.table.live.get_mut(key) else {
            unreachable!()
        };
        held.release(
            call,
            operation,
            &mut self.answerer,
            files,
            &mut self.table.flows,
            steps,
        )?;
        Ok(held.conversation.ended())
    }

    /// Changes the draft of the flow, if it waits.
    fn edit(&mut self, id: FlowId, change: &Edit) -> Result<(), OperateError>
        requires sound { IsTabled C.stands C.awaited C.number C.due A.answers self.old.table }
        ensures operates { (moment : ℕ) (at : AnswererState A.State) (out : List GivenStep) → OnOk result (Operates C.stands C.awaited C.number C.due A.answers moment (Edits id change.now) self.old.table self.new.table at at out out) }
        ensures done { (due : Due) (course : Course A.State) (now : AnswererState A.State) (names : List (List ℕ)) (trace : Trace) → TableStands C.stands C.awaited C.number C.due A.answers due course now self.old.table trace → OnOk result (IsJudged A.answers due course now names trace (Edits id change.now) None) }
        ensures refused { (due : Due) (course : Course A.State) (now : AnswererState A.State) (names : List (List ℕ)) (trace : Trace) → TableStands C.stands C.awaited C.number C.due A.answers due course now self.old.table trace → IfErr result (λ error. error ≢ RanOut → IsJudged A.answers due course now names trace (Edits id change.now) (Some error)) }
        ensures unchanged { IfErr result (λ error. error ≢ RanOut → IsRefused A.state self.old self.new) }
        ensures answerer { self.new.answerer ≡ self.old.answerer }
        ensures no_memory { result ≡ Err RanOut → self.new.poisoned ≡ true }
        ensures ok { OnOk result (self.new.poisoned ≡ self.old.poisoned) }
        ensures goes_on { HoldsNoEnded C.ended self.old.table → OnOk result (HoldsNoEnded C.ended self.new.table) }
    {
        if self.shows(id) {
            self.edit_shown(id, change)
        } else {
            Err(OperateError::NoSuchFlow)
        }
    }

    /// Changes the draft of the flow, which is live, if it waits.
    fn edit_shown(&mut self, id: FlowId, change: &Edit) -> Result<(), OperateError>
        requires shows { is_some (shown_in self.old.table.flows id.conv id.index) ≡ true }
        requires sound { IsTabled C.stands C.awaited C.number C.due A.answers self.old.table }
        ensures operates { (moment : ℕ) (at : AnswererState A.State) (out : List GivenStep) → OnOk result (Operates C.stands C.awaited C.number C.due A.answers moment (Edits id change.now) self.old.table self.new.table at at out out) }
        ensures done { (due : Due) (course : Course A.State) (now : AnswererState A.State) (names : List (List ℕ)) (trace : Trace) → TableStands C.stands C.awaited C.number C.due A.answers due course now self.old.table trace → OnOk result (IsJudged A.answers due course now names trace (Edits id change.now) None) }
        ensures refused { (due : Due) (course : Course A.State) (now : AnswererState A.State) (names : List (List ℕ)) (trace : Trace) → TableStands C.stands C.awaited C.number C.due A.answers due course now self.old.table trace → IfErr result (λ error. error ≢ RanOut → IsJudged A.answers due course now names trace (Edits id change.now) (Some error)) }
        ensures unchanged { IfErr result (λ error. error ≢ RanOut → IsRefused A.state self.old self.new) }
        ensures answerer { self.new.answerer ≡ self.old.answerer }
        ensures no_memory { result ≡ Err RanOut → self.new.poisoned ≡ true }
        ensures ok { OnOk result (self.new.poisoned ≡ self.old.poisoned) }
        ensures goes_on { HoldsNoEnded C.ended self.old.table → OnOk result (HoldsNoEnded C.ended self.new.table) }
    {
        match self.key_of(id) {
            Some(key) => match self.waiting(id) {
                Some(hook) => self.edit_at(key, hook, change),
                None => Err(OperateError::NotWaiting),
            },
            None => Err(OperateError::NotWaiting),
        }
    }

    /// Changes the draft with which the conversation under this key waits, at this hook.
    fn edit_at(&mut self, key: usize, hook: Hook, change: &Edit) -> Result<(), OperateError>
        requires held { IsSome (held_under self.old.table.live key) }
        requires waits { (held : _) → held_under self.old.table.live key ≡ Some held → IsSome held.draft }
        ensures edits { (held : _) → held_under self.old.table.live key ≡ Some held → OnOk result (EditsAt key hook change.now held self.old.table self.new.table) }
        ensures refused { (held kept : _) → held_under self.old.table.live key ≡ Some held → held.draft ≡ Some kept → IfErr result (λ error. error ≢ RanOut → refusal_of (changed change.now (edited_at hook kept.draft kept.edited)) ≡ Some error) }
        ensures unchanged { IfErr result (λ error. error ≢ RanOut → IsRefused A.state self.old self.new) }
        ensures answerer { self.new.answerer ≡ self.old.answerer }
        ensures no_memory { result ≡ Err RanOut → self.new.poisoned ≡ true }
        ensures ok { OnOk result (self.new.poisoned ≡ self.old.poisoned) }
    {
        let alloc = self.alloc;
        let Some(held) = self.table.live.get_mut(key) else {
            unreachable!()
        };
        match held.edit(alloc, hook, change) {
            Ok(()) => Ok(()),
            Err(EditError::NotThere) => Err(OperateError::NotThere),
            Err(EditError::BadValue) => Err(OperateError::BadValue),
            Err(EditError::NoMemory) => {
                self.poisoned = true;
                Err(OperateError::NoMemory)
            }
        }
    }

    /// Marks the flow, if it is live.
    fn mark(&mut self, id: FlowId) -> Result<(), OperateError>
        requires sound { IsTabled C.stands C.awaited C.number C.due A.answers self.old.table }
        ensures operates { (moment : ℕ) (at : AnswererState A.State) (out : List GivenStep) → OnOk result (Operates C.stands C.awaited C.number C.due A.answers moment (Marks id) self.old.table self.new.table at at out out) }
        ensures done { (due : Due) (course : Course A.State) (files : FilesMeaning) (trace : Trace) → RouterStands C.stands C.awaited C.number C.due A.answers A.state due course files self.old trace → OnOk result (is_live id trace ≡ true) }
        ensures refused { (due : Due) (course : Course A.State) (files : FilesMeaning) (trace : Trace) → RouterStands C.stands C.awaited C.number C.due A.answers A.state due course files self.old trace → IfErr result (λ error. error ≢ RanOut → refusal_at (is_live id trace) true ≡ Some error) }
        ensures unchanged { IfErr result (λ error. error ≢ RanOut → IsRefused A.state self.old self.new) }
        ensures answerer { self.new.answerer ≡ self.old.answerer }
        ensures no_memory { result ≡ Err RanOut → self.new.poisoned ≡ true }
        ensures ok { OnOk result (self.new.poisoned ≡ self.old.poisoned) }
        ensures goes_on { HoldsNoEnded C.ended self.old.table → OnOk result (HoldsNoEnded C.ended self.new.table) }
    {
        if self.shows(id) {
            self.mark_shown(id)
        } else {
            Err(OperateError::NoSuchFlow)
        }
    }

    /// Marks the flow, which is live.
    fn mark_shown(&mut self, id: FlowId) -> Result<(), OperateError>
        requires shows { is_some (shown_in self.old.table.flows id.conv id.index) ≡ true }
        requires sound { IsTabled C.stands C.awaited C.number C.due A.answers self.old.table }
        ensures operates { (moment : ℕ) (at : AnswererState A.State) (out : List GivenStep) → OnOk result (Operates C.stands C.awaited C.number C.due A.answers moment (Marks id) self.old.table self.new.table at at out out) }
        ensures done { (due : Due) (course : Course A.State) (files : FilesMeaning) (trace : Trace) → RouterStands C.stands C.awaited C.number C.due A.answers A.state due course files self.old trace → OnOk result (is_live id trace ≡ true) }
        ensures refused { (due : Due) (course : Course A.State) (files : FilesMeaning) (trace : Trace) → RouterStands C.stands C.awaited C.number C.due A.answers A.state due course files self.old trace → IfErr result (λ error. error ≢ RanOut → refusal_at (is_live id trace) true ≡ Some error) }
        ensures unchanged { IfErr result (λ error. error ≢ RanOut → IsRefused A.state self.old self.new) }
        ensures answerer { self.new.answerer ≡ self.old.answerer }
        ensures no_memory { result ≡ Err RanOut → self.new.poisoned ≡ true }
        ensures ok { OnOk result (self.new.poisoned ≡ self.old.poisoned) }
        ensures goes_on { HoldsNoEnded C.ended self.old.table → OnOk result (HoldsNoEnded C.ended self.new.table) }
    {
        match self.table.place(id.conv) {
            Some(Entry::Live(key)) => self.mark_at(key, id.index),
            Some(Entry::Ended) => Ok(()),
            None => Err(OperateError::NoSuchFlow),
        }
    }

    /// Marks the flow of this index in the conversation under this key.
    fn mark_at(&mut self, key: usize, index: u32) -> Result<(), OperateError>
        requires held { IsSome (held_under self.old.table.live key) }
        ensures marks { (held : _) → held_under self.old.table.live key ≡ Some held → OnOk result (MarksAt key index held self.old.table self.new.table) }
        ensures answerer { self.new.answerer ≡ self.old.answerer }
        ensures err { IfErr result (λ error. (error ≡ RanOut) × (self.new.poisoned ≡ true)) }
        ensures ok { OnOk result (self.new.poisoned ≡ self.old.poisoned) }
    {
        let Some(held) = self.table.live.get_mut(key) else {
            unreachable!()
        };
        match held.marks.add(index) {
            Ok(()) => Ok(()),
            Err(NoMemory) => {
                self.poisoned = true;
                Err(OperateError::NoMemory)
            }
        }
    }

    /// Takes the first addon of this name away.
    fn drop_named(&mut self, name: &[u8]) -> Result<(), OperateError>
        ensures drops { OnOk result (A.drops name.now (A.state self.old.answerer) (A.state self.new.answerer)) }
        ensures names { OnOk result (A.names (A.state self.new.answerer) ≡ without_first name.now (A.names (A.state self.old.answerer))) }
        ensures done { OnOk result ((is_utf8 name.now && has_name name.now (A.names (A.state self.old.answerer))) ≡ true) }
        ensures refused { IfErr result (λ error. (error ≡ NoneSuch) × ((is_utf8 name.now && has_name name.now (A.names (A.state self.old.answerer))) ≡ false) × (A.state self.new.answerer ≡ A.state self.old.answerer)) }
        ensures table { self.new.table ≡ self.old.table }
        ensures poisoned { self.new.poisoned ≡ self.old.poisoned }
    {
        let Ok(name) = str::from_utf8(name) else {
            return Err(OperateError::NoSuchAddon);
        };
        match self.answerer.drop_addon(name) {
            Ok(()) => Ok(()),
            Err(NoSuchAddon) => Err(OperateError::NoSuchAddon),
        }
    }
}

/// The hook that is awaited, where it is one of the flow of this index.
fn hook_of(awaited: Option<Ask>, index: u32) -> Option<Hook>
    ensures { result ≡ hook_in index awaited }
{
    match awaited {
        Some(Ask::Hook { flow, hook }) => { if flow == index { Some(hook) } else { None } }
        Some(Ask::Dial { .. }) | None => None,
    }
}

/// The flow whose hook the operation answers.
fn answered_flow(operation: &Operation) -> Option<FlowId>
    ensures { result ≡ answers_for operation.now }
{
    match operation {
        Operation::Resume(id) | Operation::Kill(id) => Some(*id),
        Operation::Edit(..) | Operation::Mark(_) | Operation::DropAddon(_) => None,
    }
}
