//! Telling a network what was asked, answered and finished.
ghost use Rattle.std.specs.Prelude.{◌≡◌, ◌∷◌, [], OnOk, OnErr};
ghost use Rattle.px_gen.specs.Noted.{HasGrownByFront, is_noted, noted, with_steps};

use px_event::Step;
use px_outside::Net;
use px_text::NoMemory;

/// Notes what is asked, answered and finished in these steps, in their order, and nothing else of them. After `NoMemory` the first of
/// them are noted, and where the network listens and how often it failed is what it was.
pub fn note_all<N: Net>(net: &mut N, steps: &[Step]) -> Result<(), NoMemory>
    ensures noted { OnOk result (N.trace net.new ≡ with_steps (N.trace net.old) (noted steps.now)) }
    ensures part { OnErr result (HasGrownByFront (noted steps.now) (N.trace net.old) (N.trace net.new)) }
    ensures listening { N.listening net.new ≡ N.listening net.old }
    ensures faults { N.faults net.new ≡ N.faults net.old }
{
    for step in steps {
        note_one(net, step)?;
    }
    Ok(())
}

fn note_one<N: Net>(net: &mut N, step: &Step) -> Result<(), NoMemory>
    ensures noted { OnOk result (N.trace net.new ≡ with_steps (N.trace net.old) (noted (step.now ∷ []))) }
    ensures err { OnErr result (N.trace net.new ≡ N.trace net.old) }
    ensures listening { N.listening net.new ≡ N.listening net.old }
    ensures faults { N.faults net.new ≡ N.faults net.old }
{
    if !is_noted(step) {
        return Ok(());
    }
    net.note(step)
}

// Whether the step is a beginning, an ask, an answer or the end of a flow.
fn is_noted(step: &Step) -> bool
    ensures { result ≡ is_noted step.now }
{
    match step {
        Step::Begun { .. } | Step::Asked { .. } | Step::Answered { .. } | Step::Done { .. } => true,
        Step::Heard { .. } | Step::Said { .. } => false,
    }
}
