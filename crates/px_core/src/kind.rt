//! Kinds of answers: what holds of each that an answerer gives.
ghost use Rattle.px_message.specs.declared.flow.Flow.{Flow as AskedFlow};
ghost use Rattle.px_event.specs.declared.ask.Hook.{Hook as AskedHook};
ghost use Rattle.px_core.specs.declared.answerer.Answer.{Answer as GivenAnswer};
ghost use Rattle.px_core.specs.Answers.{Answering};
ghost use Rattle.px_core.specs.Kind.{KeepsKind};

/// A kind of answers, and who keeps it. The law `answers_are_of_their_kind` says what then holds of each trace.
pub trait Kind {
    /// The states of the answerer.
    ghost State: { Type 0 };

    /// Which answers it gives, as an answerer's.
    ghost answers: { Answering State };

    /// A property of its own states.
    ghost is_so: { State → Type 0 };

    /// Which answers to a hook about a flow are of the kind.
    ghost gives: { AskedHook → AskedFlow → GivenAnswer → Type 0 };

    /// From each state that is so each answer leads to one that is so, and is of the kind.
    ghost keeps: { KeepsKind answers is_so gives };
}
