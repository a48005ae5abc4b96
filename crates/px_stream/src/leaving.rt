//! Leaving a phase, and entering the next one.
ghost use Rattle.std.specs.Prelude.{◌≡◌, None};
ghost use Rattle.px_stream.specs.Stands.{IsSome, awaited_in};

use crate::phase::{Asked, Phase, Wanted};
use std::mem;

/// What is looked for, where no answer is awaited.
pub(crate) fn take_looked(phase: &mut Phase) -> Wanted
    requires { awaited_in phase.old ≡ None }
    ensures { phase.old ≡ Phase.Ready result }
{
    match mem::replace(phase, Phase::Ready(Wanted::Over)) {
        Phase::Ready(ready) => ready,
        Phase::Asked(_) => unreachable!(),
    }
}

/// What was asked, where an answer is awaited.
pub(crate) fn take_asked(phase: &mut Phase) -> Asked
    requires { IsSome (awaited_in phase.old) }
    ensures { phase.old ≡ Phase.Asked result }
{
    match mem::replace(phase, Phase::Ready(Wanted::Over)) {
        Phase::Asked(asked) => asked,
        Phase::Ready(_) => unreachable!(),
    }
}

/// The phase that a flow enters.
pub(crate) fn enter(phase: &mut Phase, next: Phase)
    ensures { phase.new ≡ next }
{
    *phase = next;
}
