//! Generated flows: the script of px_gen runs through the program's own conversations, over a network in memory.
//!
//! What was heard is told by the type of that network, so the run is one over this script, as any run is. What was asked, answered
//! and finished in it is told to the network that was handed in, and the counts are printed.
ghost use Rattle.std.specs.Prelude.{◌≡◌, ◌≢◌, ◌≤◌, ◌⊎◌, [], Some, None, Err, IfOk, OnOk};
ghost use Rattle.rand_chacha.specs.ChaCha.{key_of};
ghost use Rattle.px_outside.specs.Count.{Rose};
ghost use Rattle.px_outside.specs.Sink.{Writes, WritesPart};
ghost use Rattle.px_core.specs.Answers.{files_meaning};
ghost use Rattle.px_gen.specs.Script.{script as script_of};
ghost use Rattle.px_map.specs.View.{local_views};
ghost use Rattle.px_gen.specs.Counts.{counts_in, counts_text as text_of_counts};
ghost use Rattle.px_gen.specs.Noted.{HasGrownByFront, noted, with_steps};
ghost use Rattle.px_resend.specs.Due.{most_replayed};
ghost use Rattle.px_app.specs.Dues.{run_due};
ghost use Rattle.px_app.specs.Generates.{Generates, generator_mode, generator_settings};
ghost use Rattle.px_app.specs.Opened.{AreRulesOf, BeginsWith};
ghost use Rattle.px_words.specs.Outside.{outside};
ghost use Rattle.px_app.specs.Over.{LeavesBehind};
ghost use Rattle.px_app.specs.Run.{Told};
ghost use Rattle.px_app.specs.Serving.{Ran};

use crate::printing::Printing;
use crate::serve::{maker_of, serve_by};
use crate::status::Status;
use px_addons::{Addon, Chain, Rules};
use px_core::Answerer;
use px_event::{Heard, Step};
use px_gen::{
    Generated, Nowhere, Scripted, counts_of, counts_text, note_all, rules, script, server,
};
use px_outside::{Files, Net, Sink, SinkError};
use px_stack::Mode;
use px_text::NoMemory;
use px_words::NO_MEMORY;
use std::alloc::Global;
use std::marker::Brand;

/// Runs so many generated flows with the rules of the generator, no addon and this key for the masks of frames. What was asked, answered and finished in that run is
/// told to `net`, which is asked nothing else; then its counts are printed, and nothing is told to `notes`. Answers the exit status: 0
/// where all is printed, 7 where it was not printed whole, 8 where memory ran out.
pub(crate) fn generate<N: Net, F: Files, S: Sink, T: Sink>(
    alloc: Global,
    count: u64,
    net: &mut N,
    files: &mut F,
    out: &mut S,
    notes: &T,
    addons: Vec<Box<dyn Addon>>,
    mask_key: [u8; 32],
) -> u8
    requires small { count ≤ 10000 }
    ensures { Generates ⟦<Chain as Answerer>⟧.answers ⟦<Chain as Answerer>⟧.drops ⟦<Chain as Answerer>⟧.names ⟦<Chain as Answerer>⟧.fails (key_of mask_key) (λ settings chain. AreRulesOf settings chain.rules × BeginsWith settings [] chain.replay chain.cookies chain.auth × (chain.addons.items ≡ [])) (Rose (S.faults out.old) (S.faults out.new)) count
        (outside N.trace N.listening F.contents F.calls F.misses F.faults F.losses S.written T.written net.old files.old out.old notes.now)
        (outside N.trace N.listening F.contents F.calls F.misses F.faults F.losses S.written T.written net.new files.new out.new notes.now) result }
{
    drop(addons);
    let Ok(rules) = generator_rules(alloc) else {
        return NO_MEMORY;
    };
    let chain = Chain::new(rules, Vec::new(alloc));
    run_script::<Brand, N, F, S, T>(alloc, count, chain, mask_key, net, files, out, notes)
}

// The same, by this chain, which reads no file and lets no flow wait.
fn run_script<K: Scripted, N: Net, F: Files, S: Sink, T: Sink>(
    alloc: Global,
    count: u64,
    chain: Chain,
    mask_key: [u8; 32],
    net: &mut N,
    files: &mut F,
    out: &mut S,
    notes: &T,
) -> u8
    requires small { count ≤ 10000 }
    requires count { K.count ≡ count }
    requires local { local_views chain.rules.local ≡ [] }
    requires intercept { chain.rules.intercept ≡ None }
    ensures { Generates ⟦<Chain as Answerer>⟧.answers ⟦<Chain as Answerer>⟧.drops ⟦<Chain as Answerer>⟧.names ⟦<Chain as Answerer>⟧.fails (key_of mask_key) (λ settings other. other ≡ chain) (Rose (S.faults out.old) (S.faults out.new)) count
        (outside N.trace N.listening F.contents F.calls F.misses F.faults F.losses S.written T.written net.old files.old out.old notes.now)
        (outside N.trace N.listening F.contents F.calls F.misses F.faults F.losses S.written T.written net.new files.new out.new notes.now) result }
{
    let Ok((mode, script)) = generated_places(alloc, count) else {
        drop(chain);
        return NO_MEMORY;
    };
    let mut generated = Generated::<K>::new(alloc, script);
    match serve_generated(alloc, mode, mask_key, chain, &mut generated, files) {
        Ok(()) => tell_run(alloc, generated.trace(), net, out),
        Err(NoMemory) => NO_MEMORY,
    }
}

// Serves the network of a run of generated flows in this mode and with this key, whose hooks this chain answers, to its end.
fn serve_generated<K: Scripted, F: Files>(
    alloc: Global,
    mode: Mode,
    mask_key: [u8; 32],
    chain: Chain,
    generated: &mut Generated<K>,
    files: &mut F,
) -> Result<(), NoMemory>
    ensures ok { ⟦<Generated<K> as Net>⟧.trace generated.old ≡ Some [] → OnOk result ((printing : Printing) × Told (Ran ⟦<Chain as Answerer>⟧.answers ⟦<Chain as Answerer>⟧.drops ⟦<Chain as Answerer>⟧.names ⟦<Chain as Answerer>⟧.fails (run_due mode (key_of mask_key) []) (record { own = chain; files = files_meaning F.contents F.calls F.misses F.faults F.losses files.old }) None 18446744073709551615 Status.Ended printing (files_meaning F.contents F.calls F.misses F.faults F.losses files.new) (most_replayed []) None None) (⟦<Generated<K> as Net>⟧.trace generated.new)) }
    ensures files { LeavesBehind ⟦<Chain as Answerer>⟧.answers ⟦<Chain as Answerer>⟧.drops ⟦<Chain as Answerer>⟧.fails None (record { own = chain; files = files_meaning F.contents F.calls F.misses F.faults F.losses files.old }) (files_meaning F.contents F.calls F.misses F.faults F.losses files.new) }
{
    let Ok(maker) = maker_of(alloc, mode, mask_key, Vec::new(alloc)) else {
        drop(chain);
        return Err(NoMemory);
    };
    let ending = serve_by(
        alloc,
        maker,
        chain,
        None,
        generated,
        files,
        &mut Nowhere,
        u64::MAX,
    );
    match ending.status {
        Status::Ended => Ok(()),
        _ => Err(NoMemory),
    }
}

// Where generated requests go, and what is heard of so many flows.
fn generated_places(alloc: Global, count: u64) -> Result<(Mode, Vec<(u64, Heard)>), NoMemory>
    requires small { count ≤ 10000 }
    ensures mode { IfOk result (λ made. made.0 ≡ generator_mode) }
    ensures script { IfOk result (λ made. made.1.items ≡ script_of count) }
{
    let server = server(alloc)?;
    let script = script(alloc, count)?;
    Ok((Mode::Reverse(server), script))
}

// The rules of generated runs.
fn generator_rules(alloc: Global) -> Result<Rules, NoMemory>
    ensures { IfOk result (λ made. AreRulesOf generator_settings made) }
{
    let (headers, bodies) = rules(alloc)?;
    let mut rules = Rules::none(alloc);
    rules.headers = headers;
    rules.bodies = bodies;
    Ok(rules)
}

// Tells the run, and prints its counts.
fn tell_run<N: Net, S: Sink>(alloc: Global, steps: &[Step], net: &mut N, out: &mut S) -> u8
    ensures told { result ≢ 8 → N.trace net.new ≡ with_steps (N.trace net.old) (noted steps.now) }
    ensures told_part { HasGrownByFront (noted steps.now) (N.trace net.old) (N.trace net.new) }
    ensures listening { N.listening net.new ≡ N.listening net.old }
    ensures begun { WritesPart (text_of_counts (counts_in steps.now)) (S.written out.old) (S.written out.new) }
    ensures prints { (result ≡ 0) ⊎ ((result ≢ 8) × ¬ (Rose (S.faults out.old) (S.faults out.new))) → Writes (text_of_counts (counts_in steps.now)) (S.written out.old) (S.written out.new) }
    ensures statuses { (result ≡ 0) ⊎ ((result ≡ 7) ⊎ (result ≡ 8)) }
    ensures lost { result ≡ 7 → Rose (S.faults out.old) (S.faults out.new) }
{
    if note_all(net, steps).is_err() {
        return NO_MEMORY;
    }
    match print_counts(alloc, steps, out) {
        Ok(()) => 0,
        Err(SinkError::Failed) => 7,
        Err(SinkError::NoMemory) => NO_MEMORY,
    }
}

// Prints the counts of these steps. After `NoMemory` nothing is printed.
fn print_counts<S: Sink>(alloc: Global, steps: &[Step], out: &mut S) -> Result<(), SinkError>
    ensures ok { OnOk result (Writes (text_of_counts (counts_in steps.now)) (S.written out.old) (S.written out.new)) }
    ensures part { result ≡ Err SinkError.Failed → WritesPart (text_of_counts (counts_in steps.now)) (S.written out.old) (S.written out.new) }
    ensures failed { result ≡ Err SinkError.Failed → Rose (S.faults out.old) (S.faults out.new) }
    ensures no_memory { result ≡ Err SinkError.NoMemory → S.written out.new ≡ S.written out.old }
    ensures later { S.faults out.old ≤ S.faults out.new }
{
    let mut text = Vec::new(alloc);
    if counts_text(alloc, &counts_of(steps), &mut text).is_err() {
        return Err(SinkError::NoMemory);
    }
    out.write(&text)
}
