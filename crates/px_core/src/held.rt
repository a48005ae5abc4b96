//! A conversation as the router holds it.
//!
//! Within a step the trace lags behind the conversation: it gave commands that are not told yet. So `Within` says where it
//! stands with the commands that are still to be told, and each step that is told takes one of them. An answer stands in
//! the trace before what it causes; so each prefix of the steps has no more than is due by the calls in that prefix.
ghost use Rattle.std.specs.Prelude.{◌≡◌, ◌<◌, true, ◌++◌, ◌∷◌, [], ℕ, None, Some, IsSome, OnOk, OnErr, IfOk, IfErr, map};
ghost use Rattle.px_event.specs.Layer.{IsSound, IsNews, MayAnswer, Took, Replied};
ghost use Rattle.px_event.specs.declared.ask.Ask.TheVariants.{Hook as AsksHook, Dial as AsksDial};
ghost use Rattle.px_core.specs.Answers.{ByAnswers, FilesAfter, files_meaning, state_of};
ghost use Rattle.px_core.specs.Calls.{dial_reply, is_dialling};
ghost use Rattle.px_core.specs.Conversation.{AllNamed};
ghost use Rattle.px_core.specs.Answered.{with_shown};
ghost use Rattle.px_core.specs.Drafts.{released_by, reply_of, with_edits};
ghost use Rattle.px_core.specs.Held.{is_side, servers_by, step_of, question_about, question_by, question_in, asked_from, dial_of, shown_by, Replies, Gives, Works, Takes, Hears, Releases, ShowsTold, IsHeardNews, IsEdit, IsReleased, IsUnchanged, Asks, IsNext, IsReady, IsSettled, turns_left};
ghost use Rattle.px_core.specs.Live.{shown_in};
ghost use Rattle.px_core.specs.Runs.{has};
ghost use Rattle.px_core.specs.Unmarked.{all_marked, mark_on, with_mark};

use crate::flows::Flows;
use crate::news::News;
use crate::runs::Runs;
use crate::waiting::Waiting;
use crate::{Answer, Answerer, Operation, Owes};
use px_draft::{Edit, EditError};
use px_event::{Ask, Command, Event, Hook, Reply, Said, Side, Step};
use px_message::{Fault, Flow};
use px_outside::Files;
use px_text::NoMemory;
use std::alloc::Global;

/// A live conversation, the numbers of the servers that are connected, the draft of its hook if that waits, with what lines made of it, and the indices
/// of its flows that an operator marked.
#[derive(Drop)]
pub struct Held<C> {
    pub(crate) conversation: C,
    pub(crate) connected: Runs,
    pub(crate) draft: Option<Waiting>,
    pub(crate) marks: Runs,
}

/// A hook that is asked and not answered.
#[derive(Debug, Drop)]
pub struct Question {
    ask: Ask,
    hook: Hook,
    flow: Flow,
}

/// The call in which a conversation is worked off.
#[derive(Clone, Copy)]
pub struct Call {
    pub(crate) alloc: Global,
    pub(crate) conv: u32,
    pub(crate) moment: u64,
}

impl<C: Owes> Held<C> {
    /// Takes news of the conversation, and works it off. An event counts where its side is connected, the end of a dial
    /// where that dial is awaited.
    pub(crate) fn hear<A: Answerer, F: Files>(
        &mut self,
        call: Call,
        news: News,
        answerer: &mut A,
        files: &mut F,
        flows: &mut Flows,
        steps: &mut Vec<Step>,
    ) -> Result<(), NoMemory>
        requires sound { IsSound C.stands self.old.conversation }
        requires number { C.number self.old.conversation ≡ call.conv }
        requires settled { IsSettled C.awaited self.old }
        requires news { IsHeardNews news }
        ensures hears { OnOk result (Hears C.stands C.awaited C.number C.due A.answers call.conv call.moment news self.old self.new flows.old flows.new (state_of A.state F.contents F.calls F.misses F.faults F.losses answerer.old files.old) (state_of A.state F.contents F.calls F.misses F.faults F.losses answerer.new files.new) steps.old.items steps.new.items) }
        ensures files { FilesAfter A.answers A.fails (state_of A.state F.contents F.calls F.misses F.faults F.losses answerer.old files.old) (files_meaning F.contents F.calls F.misses F.faults F.losses files.new) }
        ensures given { OnOk result (ByAnswers A.answers (state_of A.state F.contents F.calls F.misses F.faults F.losses answerer.old files.old) (state_of A.state F.contents F.calls F.misses F.faults F.losses answerer.new files.new)) }
    {
        match news {
            News::Begun { peer: _peer } => Ok(()),
            News::Event { side, event } => {
                if self.is_connected(side) {
                    self.hand(call, event, answerer, files, flows, steps)
                } else {
                    Ok(())
                }
            }
            News::Dialled { server, ok } => {
                if self.is_dialling(server) {
                    self.end_dial(call, server, ok, answerer, files, flows, steps)
                } else {
                    Ok(())
                }
            }
        }
    }

    /// Takes an event, and works it off.
    pub(crate) fn hand<A: Answerer, F: Files>(
        &mut self,
        call: Call,
        event: Event,
        answerer: &mut A,
        files: &mut F,
        flows: &mut Flows,
        steps: &mut Vec<Step>,
    ) -> Result<(), NoMemory>
        requires sound { IsSound C.stands self.old.conversation }
        requires number { C.number self.old.conversation ≡ call.conv }
        requires settled { IsSettled C.awaited self.old }
        requires news { IsNews event }
        ensures takes { OnOk result (Takes C.stands C.awaited C.number C.due A.answers call.conv call.moment (Took call.moment event) (dial_of (C.awaited self.old.conversation)) (has self.old.connected) self.old self.new flows.old flows.new (state_of A.state F.contents F.calls F.misses F.faults F.losses answerer.old files.old) (state_of A.state F.contents F.calls F.misses F.faults F.losses answerer.new files.new) steps.old.items steps.new.items) }
        ensures files { FilesAfter A.answers A.fails (state_of A.state F.contents F.calls F.misses F.faults F.losses answerer.old files.old) (files_meaning F.contents F.calls F.misses F.faults F.losses files.new) }
        ensures given { OnOk result (ByAnswers A.answers (state_of A.state F.contents F.calls F.misses F.faults F.losses answerer.old files.old) (state_of A.state F.contents F.calls F.misses F.faults F.losses answerer.new files.new)) }
    {
        let commands = self.take_event(call, event)?;
        self.work_off(call, commands, answerer, files, flows, steps)
    }

    /// Takes the end of the dial that is awaited, and works it off.
    fn end_dial<A: Answerer, F: Files>(
        &mut self,
        call: Call,
        server: u32,
        ok: bool,
        answerer: &mut A,
        files: &mut F,
        flows: &mut Flows,
        steps: &mut Vec<Step>,
    ) -> Result<(), NoMemory>
        requires sound { IsSound C.stands self.old.conversation }
        requires number { C.number self.old.conversation ≡ call.conv }
        requires awaited { C.awaited self.old.conversation ≡ Some (AsksDial server) }
        ensures takes { OnOk result (Takes C.stands C.awaited C.number C.due A.answers call.conv call.moment (Replied call.moment (dial_reply ok)) None (servers_by server ok (has self.old.connected)) self.old self.new flows.old flows.new (state_of A.state F.contents F.calls F.misses F.faults F.losses answerer.old files.old) (state_of A.state F.contents F.calls F.misses F.faults F.losses answerer.new files.new) steps.old.items steps.new.items) }
        ensures files { FilesAfter A.answers A.fails (state_of A.state F.contents F.calls F.misses F.faults F.losses answerer.old files.old) (files_meaning F.contents F.calls F.misses F.faults F.losses files.new) }
        ensures given { OnOk result (ByAnswers A.answers (state_of A.state F.contents F.calls F.misses F.faults F.losses answerer.old files.old) (state_of A.state F.contents F.calls F.misses F.faults F.losses answerer.new files.new)) }
    {
        self.connect(server, ok)?;
        let commands = self.take_end(call, server, ok)?;
        self.work_off(call, commands, answerer, files, flows, steps)
    }

    /// Whether the side is the client, or a server that is connected.
    fn is_connected(&self, side: Side) -> bool
        ensures { result ≡ is_side side (has self.now.connected) }
    {
        match side {
            Side::Client => true,
            Side::Server(number) => self.connected.has(number),
        }
    }

    /// Whether the end of the dial of this server is awaited.
    fn is_dialling(&self, server: u32) -> bool
        ensures dialling { result ≡ is_dialling server (dial_of (C.awaited self.now.conversation)) }
        ensures awaited { result ≡ true → C.awaited self.now.conversation ≡ Some (AsksDial server) }
    {
        match self.conversation.waiting() {
            Some(Ask::Dial { server: other }) => other == server,
            _ => false,
        }
    }

    /// Notes the server, if it is connected.
    fn connect(&mut self, server: u32, ok: bool) -> Result<(), NoMemory>
        ensures connected { OnOk result ((number : ℕ) → has self.new.connected number ≡ servers_by server ok (has self.old.connected) number) }
        ensures conversation { self.new.conversation ≡ self.old.conversation }
        ensures draft { self.new.draft ≡ self.old.draft }
        ensures marks { self.new.marks ≡ self.old.marks }
    {
        if ok {
            self.connected.add(server)?;
        }
        Ok(())
    }

    /// Has the conversation take an event, and gives its commands.
    fn take_event(&mut self, call: Call, event: Event) -> Result<Vec<Command>, NoMemory>
        requires sound { IsSound C.stands self.old.conversation }
        requires number { C.number self.old.conversation ≡ call.conv }
        requires settled { IsSettled C.awaited self.old }
        requires news { IsNews event }
        ensures gives { IfOk result (λ given. Gives C.stands C.awaited (Took call.moment event) (dial_of (C.awaited self.old.conversation)) self.old.conversation self.new.conversation given.items) }
        ensures sound { OnOk result (IsSound C.stands self.new.conversation) }
        ensures number { OnOk result (C.number self.new.conversation ≡ call.conv) }
        ensures named { IfOk result (λ given. AllNamed call.conv given.items) }
        ensures ready { IfOk result (λ given. IsReady C.awaited self.new given.items) }
        ensures connected { self.new.connected ≡ self.old.connected }
        ensures draft { self.new.draft ≡ self.old.draft }
        ensures marks { self.new.marks ≡ self.old.marks }
    {
        let mut commands = Vec::new(call.alloc);
        self.conversation.take(call.moment, event, &mut commands)?;
        Ok(commands)
    }

    /// Has the conversation take the end of the dial that is awaited, and gives its commands.
    fn take_end(&mut self, call: Call, server: u32, ok: bool) -> Result<Vec<Command>, NoMemory>
        requires sound { IsSound C.stands self.old.conversation }
        requires number { C.number self.old.conversation ≡ call.conv }
        requires awaited { C.awaited self.old.conversation ≡ Some (AsksDial server) }
        ensures gives { IfOk result (λ given. Gives C.stands C.awaited (Replied call.moment (dial_reply ok)) None self.old.conversation self.new.conversation given.items) }
        ensures sound { OnOk result (IsSound C.stands self.new.conversation) }
        ensures number { OnOk result (C.number self.new.conversation ≡ call.conv) }
        ensures named { IfOk result (λ given. AllNamed call.conv given.items) }
        ensures ready { IfOk result (λ given. IsReady C.awaited self.new given.items) }
        ensures connected { self.new.connected ≡ self.old.connected }
        ensures draft { self.new.draft ≡ self.old.draft }
        ensures marks { self.new.marks ≡ self.old.marks }
    {
        let mut commands = Vec::new(call.alloc);
        let ask = Ask::Dial { server };
        let reply = end_of_dial(ok);
        self.conversation
            .take(call.moment, Event::Answered { ask, reply }, &mut commands)?;
        Ok(commands)
    }

    /// Tells the commands that the conversation gave, and answers hooks until none is open or one waits.
    fn work_off<A: Answerer, F: Files>(
        &mut self,
        call: Call,
        commands: Vec<Command>,
        answerer: &mut A,
        files: &mut F,
        flows: &mut Flows,
        steps: &mut Vec<Step>,
    ) -> Result<(), NoMemory>
        requires sound { IsSound C.stands self.old.conversation }
        requires number { C.number self.old.conversation ≡ call.conv }
        requires named { AllNamed call.conv commands.items }
        requires ready { IsReady C.awaited self.old commands.items }
        ensures works { OnOk result (Works C.stands C.awaited C.number C.due A.answers call.conv call.moment commands.items self.old self.new flows.old flows.new (state_of A.state F.contents F.calls F.misses F.faults F.losses answerer.old files.old) (state_of A.state F.contents F.calls F.misses F.faults F.losses answerer.new files.new) None steps.old.items steps.new.items) }
        ensures sound { OnOk result (IsSound C.stands self.new.conversation) }
        ensures number { OnOk result (C.number self.new.conversation ≡ call.conv) }
        ensures files { FilesAfter A.answers A.fails (state_of A.state F.contents F.calls F.misses F.faults F.losses answerer.old files.old) (files_meaning F.contents F.calls F.misses F.faults F.losses files.new) }
        ensures given { OnOk result (ByAnswers A.answers (state_of A.state F.contents F.calls F.misses F.faults F.losses answerer.old files.old) (state_of A.state F.contents F.calls F.misses F.faults F.losses answerer.new files.new)) }
    {
        let open = tell(call.conv, &self.marks, commands, flows, steps)?;
        self.answer_all(call, open, answerer, files, flows, steps)
    }

    /// Answers the hook that waits as an operator says, and works off what follows.
    pub(crate) fn release<A: Answerer, F: Files>(
        &mut self,
        call: Call,
        operation: &Operation,
        answerer: &mut A,
        files: &mut F,
        flows: &mut Flows,
        steps: &mut Vec<Step>,
    ) -> Result<(), NoMemory>
        requires sound { IsSound C.stands self.old.conversation }
        requires number { C.number self.old.conversation ≡ call.conv }
        requires settled { IsSettled C.awaited self.old }
        requires waits { IsReleased C.awaited call.conv operation.now self.old }
        ensures releases { OnOk result (Releases C.stands C.awaited C.number C.due A.answers call.conv call.moment operation.now self.old self.new flows.old flows.new (state_of A.state F.contents F.calls F.misses F.faults F.losses answerer.old files.old) (state_of A.state F.contents F.calls F.misses F.faults F.losses answerer.new files.new) steps.old.items steps.new.items) }
        ensures files { FilesAfter A.answers A.fails (state_of A.state F.contents F.calls F.misses F.faults F.losses answerer.old files.old) (files_meaning F.contents F.calls F.misses F.faults F.losses files.new) }
        ensures given { OnOk result (ByAnswers A.answers (state_of A.state F.contents F.calls F.misses F.faults F.losses answerer.old files.old) (state_of A.state F.contents F.calls F.misses F.faults F.losses answerer.new files.new)) }
    {
        let (Some(ask), Some(draft)) = (self.conversation.waiting(), self.draft.take()) else {
            unreachable!()
        };
        let reply = released_by(call.alloc, operation, draft)?;
        let open = self.reply(call, ask, reply, flows, steps)?;
        self.answer_all(call, open, answerer, files, flows, steps)
    }

    /// Changes the draft with which its hook waits, which is this one. After a refusal nothing has changed.
    pub(crate) fn edit(&mut self, alloc: Global, hook: Hook, change: &Edit) -> Result<(), EditError>
        requires waits { IsSome self.old.draft }
        ensures edits { OnOk result (IsEdit hook change.now self.old self.new) }
        ensures refused { (kept : _) → self.old.draft ≡ Some kept → IfErr result (IsUnchanged hook change.now kept) }
        ensures unchanged { OnErr result (self.new ≡ self.old) }
    {
        let Some(draft) = &mut self.draft else {
            unreachable!()
        };
        draft.change(alloc, hook, change)
    }

    /// Answers hooks until none is open or one waits.
    fn answer_all<A: Answerer, F: Files>(
        &mut self,
        call: Call,
        question: Option<Question>,
        answerer: &mut A,
        files: &mut F,
        flows: &mut Flows,
        steps: &mut Vec<Step>,
    ) -> Result<(), NoMemory>
        requires sound { IsSound C.stands self.old.conversation }
        requires number { C.number self.old.conversation ≡ call.conv }
        requires next { IsNext C.awaited self.old question }
        ensures asks { OnOk result (Asks C.stands C.awaited C.number C.due A.answers call.conv call.moment question self.old self.new flows.old flows.new (state_of A.state F.contents F.calls F.misses F.faults F.losses answerer.old files.old) (state_of A.state F.contents F.calls F.misses F.faults F.losses answerer.new files.new) None steps.old.items steps.new.items) }
        ensures sound { OnOk result (IsSound C.stands self.new.conversation) }
        ensures number { OnOk result (C.number self.new.conversation ≡ call.conv) }
        ensures files { FilesAfter A.answers A.fails (state_of A.state F.contents F.calls F.misses F.faults F.losses answerer.old files.old) (files_meaning F.contents F.calls F.misses F.faults F.losses files.new) }
        ensures given { OnOk result (ByAnswers A.answers (state_of A.state F.contents F.calls F.misses F.faults F.losses answerer.old files.old) (state_of A.state F.contents F.calls F.misses F.faults F.losses answerer.new files.new)) }
    {
        let mut open = question;
        while let Some(question) = open {
            open = self.ask(call, question, answerer, files, flows, steps)?;
        }
        Ok(())
    }

    /// Has the hook answered, and tells what follows; or lets it wait.
    fn ask<A: Answerer, F: Files>(
        &mut self,
        call: Call,
        question: Question,
        answerer: &mut A,
        files: &mut F,
        flows: &mut Flows,
        steps: &mut Vec<Step>,
    ) -> Result<Option<Question>, NoMemory>
        requires sound { IsSound C.stands self.old.conversation }
        requires number { C.number self.old.conversation ≡ call.conv }
        requires next { IsNext C.awaited self.old (Some question) }
        ensures asks { IfOk result (λ now_open. Asks C.stands C.awaited C.number C.due A.answers call.conv call.moment (Some question) self.old self.new flows.old flows.new (state_of A.state F.contents F.calls F.misses F.faults F.losses answerer.old files.old) (state_of A.state F.contents F.calls F.misses F.faults F.losses answerer.new files.new) now_open steps.old.items steps.new.items) }
        ensures sound { OnOk result (IsSound C.stands self.new.conversation) }
        ensures number { OnOk result (C.number self.new.conversation ≡ call.conv) }
        ensures left { IfOk result (λ now_open. turns_left (C.left self.new.conversation) now_open < turns_left (C.left self.old.conversation) (Some question)) }
        ensures files { FilesAfter A.answers A.fails (state_of A.state F.contents F.calls F.misses F.faults F.losses answerer.old files.old) (files_meaning F.contents F.calls F.misses F.faults F.losses files.new) }
        ensures given { OnOk result (ByAnswers A.answers (state_of A.state F.contents F.calls F.misses F.faults F.losses answerer.old files.old) (state_of A.state F.contents F.calls F.misses F.faults F.losses answerer.new files.new)) }
    {
        let Question { ask, hook, flow } = question;
        match answerer.answer(hook, flow, files)? {
            Answer::Wait(draft) => {
                self.draft = Some(Waiting::new(draft));
                Ok(None)
            }
            Answer::Reply(reply) => self.reply(call, ask, reply, flows, steps),
        }
    }

    /// Gives the reply to the hook that is awaited, and tells what follows.
    fn reply(
        &mut self,
        call: Call,
        ask: Ask,
        reply: Reply,
        flows: &mut Flows,
        steps: &mut Vec<Step>,
    ) -> Result<Option<Question>, NoMemory>
        requires sound { IsSound C.stands self.old.conversation }
        requires number { C.number self.old.conversation ≡ call.conv }
        requires awaited { C.awaited self.old.conversation ≡ Some ask }
        requires hook { (flow : _) × (hook : _) × (ask ≡ AsksHook flow hook) }
        ensures replies { IfOk result (λ question. Replies C.stands C.awaited call.conv call.moment ask reply self.old self.new flows.old flows.new question steps.old.items steps.new.items) }
        ensures sound { OnOk result (IsSound C.stands self.new.conversation) }
        ensures number { OnOk result (C.number self.new.conversation ≡ call.conv) }
        ensures left { OnOk result (C.left self.new.conversation < C.left self.old.conversation) }
    {
        let answered = Step::Answered {
            conv: call.conv,
            ask,
            reply: reply.try_clone()?,
        };
        steps.push(answered)?;
        let mut commands = Vec::new(call.alloc);
        self.conversation
            .take(call.moment, Event::Answered { ask, reply }, &mut commands)?;
        tell(call.conv, &self.marks, commands, flows, steps)
    }
}

/// What the end of a dial says to the conversation.
fn end_of_dial(ok: bool) -> Reply
    ensures reply { result ≡ dial_reply ok }
    ensures may { (server : ℕ) → MayAnswer (Some (AsksDial server)) result }
{
    if ok {
        Reply::Dialled
    } else {
        Reply::Refused(Fault::NoConnection)
    }
}

/// With what an operator answers a hook that waits with this draft, as lines left it.
fn released_by(alloc: Global, operation: &Operation, draft: Waiting) -> Result<Reply, NoMemory>
    ensures { IfOk result (λ reply. reply ≡ released_by operation.now (with_edits draft.edited draft.draft)) }
{
    match operation {
        Operation::Kill(_) => {
            drop(draft);
            Ok(Reply::Kill)
        }
        Operation::Resume(_) | Operation::Edit(..) | Operation::Mark(_) | Operation::DropAddon(_) =>
            reply_with(alloc, draft),
    }
}

/// The reply that a draft is, as lines left it.
fn reply_with(alloc: Global, draft: Waiting) -> Result<Reply, NoMemory>
    ensures { IfOk result (λ reply. reply ≡ reply_of (with_edits draft.edited draft.draft)) }
{
    match draft.into_draft(alloc) {
        Ok(draft) => Ok(draft.into_reply()),
        Err(NoMemory) => Err(NoMemory),
    }
}

/// Adds the step of each command, with the marks of flows, and gives the last hook that they ask. Flows that are asked about are shown, and those that are
/// finished no more.
fn tell(
    conv: u32,
    marks: &Runs,
    commands: Vec<Command>,
    flows: &mut Flows,
    steps: &mut Vec<Step>,
) -> Result<Option<Question>, NoMemory>
    ensures told { OnOk result (steps.new.items ≡ steps.old.items ++ map (step_of conv) (all_marked (has marks.now) commands.items)) }
    ensures asked { IfOk result (λ question. question ≡ asked_from None (all_marked (has marks.now) commands.items)) }
    ensures shows { OnOk result (ShowsTold (all_marked (has marks.now) commands.items) flows.old flows.new) }
{
    let mut open = None;
    for command in commands {
        let question = tell_one(conv, marks, command, flows, steps)?;
        put_later(&mut open, question);
    }
    Ok(open)
}

/// Puts the later question, if there is one, in the place of the earlier.
fn put_later(earlier: &mut Option<Question>, question: Option<Question>)
    ensures { earlier.new ≡ question_by question earlier.old }
{
    if let Some(question) = question {
        *earlier = Some(question);
    }
}

/// Adds the step of a command, and gives the hook that it asks, if it asks one. What the command has moves into the step.
fn tell_one(
    conv: u32,
    marks: &Runs,
    command: Command,
    flows: &mut Flows,
    steps: &mut Vec<Step>,
) -> Result<Option<Question>, NoMemory>
    ensures told { OnOk result (steps.new.items ≡ steps.old.items ++ step_of conv (mark_on (has marks.now) command) ∷ []) }
    ensures question { IfOk result (λ question. question ≡ question_in (mark_on (has marks.now) command)) }
    ensures shows { OnOk result ((other index : ℕ) → shown_in flows.new other index ≡ shown_by (mark_on (has marks.now) command) (shown_in flows.old) other index) }
{
    match command {
        Command::Send { side, bytes } => tell_said(conv, Said::Send { side, bytes }, steps),
        Command::Close { side } => tell_said(conv, Said::Close { side }, steps),
        Command::Dial {
            server,
            address,
            ..
        } => tell_said(conv, Said::Dial { server, address }, steps),
        Command::Ask { ask, flow } => tell_asked(conv, ask, mark(marks, flow), flows, steps),
        Command::Done { flow } => tell_done(mark(marks, flow), flows, steps),
    }
}

/// The flow, with its mark where it has one.
fn mark(marks: &Runs, flow: Flow) -> Flow
    ensures { result ≡ with_mark (has marks.now flow.id.index) flow }
{
    let mut flow = flow;
    flow.marked = marks.has(flow.id.index);
    flow
}

fn tell_said(conv: u32, said: Said, steps: &mut Vec<Step>) -> Result<Option<Question>, NoMemory>
    ensures told { OnOk result (steps.new.items ≡ steps.old.items ++ Step.Said conv said ∷ []) }
    ensures question { IfOk result (λ question. question ≡ None) }
{
    steps.push(Step::Said { conv, said })?;
    Ok(None)
}

fn tell_asked(
    conv: u32,
    ask: Ask,
    flow: Flow,
    flows: &mut Flows,
    steps: &mut Vec<Step>,
) -> Result<Option<Question>, NoMemory>
    ensures told { OnOk result (steps.new.items ≡ steps.old.items ++ Step.Asked conv ask ∷ []) }
    ensures question { IfOk result (λ question. question ≡ question_about ask flow) }
    ensures shows { OnOk result ((other index : ℕ) → shown_in flows.new other index ≡ with_shown flow.id.conv flow.id.index (Some flow) (shown_in flows.old) other index) }
{
    match note_asked(conv, ask, &flow, flows, steps) {
        Ok(()) => Ok(asking(ask, flow)),
        Err(_) => {
            drop(flow);
            Err(NoMemory)
        }
    }
}

/// Adds the step of a hook that is asked, and shows its flow.
fn note_asked(
    conv: u32,
    ask: Ask,
    flow: &Flow,
    flows: &mut Flows,
    steps: &mut Vec<Step>,
) -> Result<(), NoMemory>
    ensures told { OnOk result (steps.new.items ≡ steps.old.items ++ Step.Asked conv ask ∷ []) }
    ensures shows { OnOk result ((other index : ℕ) → shown_in flows.new other index ≡ with_shown flow.now.id.conv flow.now.id.index (Some flow.now) (shown_in flows.old) other index) }
{
    flows.show(flow)?;
    steps.push(Step::Asked { conv, ask })?;
    Ok(())
}

fn tell_done(
    flow: Flow,
    flows: &mut Flows,
    steps: &mut Vec<Step>,
) -> Result<Option<Question>, NoMemory>
    ensures told { OnOk result (steps.new.items ≡ steps.old.items ++ Step.Done flow ∷ []) }
    ensures question { IfOk result (λ question. question ≡ None) }
    ensures shows { OnOk result ((other index : ℕ) → shown_in flows.new other index ≡ with_shown flow.id.conv flow.id.index None (shown_in flows.old) other index) }
{
    flows.hide(flow.id);
    steps.push(Step::Done { flow })?;
    Ok(None)
}

/// The hook that is asked about this flow.
fn asking(ask: Ask, flow: Flow) -> Option<Question>
    ensures { result ≡ question_about ask flow }
{
    match ask {
        Ask::Hook { hook, .. } => Some(Question { ask, hook, flow }),
        Ask::Dial { .. } => None,
    }
}
