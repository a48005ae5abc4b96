//! The program with lines over a wire as its network.
ghost use Rattle.std.specs.Prelude.{◌≡◌, ℕ, false, List, [], None, Some, map};
ghost use Rattle.std.specs.String.{string_bytes};
ghost use Rattle.rand_chacha.specs.ChaCha.{key_of};
ghost use Rattle.px_outside.specs.Count.{Rose};
ghost use Rattle.px_outside.specs.Net.{idle};
ghost use Rattle.px_core.specs.Answers.{files_meaning};
ghost use Rattle.px_words.specs.Flows.{Fetched, ListsFile};
ghost use Rattle.px_app.specs.Generates.{Generates};
ghost use Rattle.px_app.specs.Lines.{usage};
ghost use Rattle.px_app.specs.Opened.{AreRulesOf, BeginsWith, Opened};
ghost use Rattle.px_words.specs.Outside.{outside};
ghost use Rattle.px_app.specs.Serves.{ServesFile};
ghost use Rattle.px_words.specs.Stops.{Stops};
ghost use Rattle.px_app.specs.Statuses.{ends_heard};
ghost use Rattle.px_words.specs.Converts.{ConvertsFile, Taken};
ghost use Rattle.px_words.specs.Exports.{ExportsFile};
ghost use Rattle.px_words.specs.Picks.{Picked, PicksFile};
ghost use Rattle.px_app.specs.Words.{HasNoForm, IsConvert, IsFlows, IsGen, IsHar, IsPick, IsServe};
ghost use Rattle.px_wire.specs.Calls.{Calls, steps_of};
ghost use Rattle.px_wire.specs.Rules.{Obeys};
ghost use Rattle.px_proxy.specs.Failed.{LinesFailed};
ghost use Rattle.px_proxy.specs.TakenDue.{IsWiredBy};

use px_addons::{Addon, Chain};
use px_core::Answerer;
use px_outside::{Files, Sink};
use px_wire::{Lines, Wire};
use std::alloc::Global;

/// Runs the program with these words over these lines; the words, the statuses and what is printed are those of `px_app::run`.
/// What the wire took for each side is at every moment a beginning of what was sent to it, and for the sides of conversations of what is due to them, however the wire cut it.
pub fn run<W: Wire, F: Files, S: Sink, T: Sink>(
    alloc: Global,
    words: &[String],
    lines: &mut Lines<W>,
    files: &mut F,
    out: &mut S,
    notes: &mut T,
    addons: Vec<Box<dyn Addon>>,
    mask_key: [u8; 32],
) -> u8
    requires idle { W.listening lines.old.wire ≡ idle }

    // With the words `serve OPTIONS`: the files are read, and the run is as what came of that says. What the wire took for each side begins
    // what was sent to it and, but for operators, what is due to it, after each of its calls; and the run is ended by an operator's order alone.
    ensures serves { (path : List ℕ) → IsServe (map string_bytes words.now) path → (opened : Opened) × ServesFile ⟦<Chain as Answerer>⟧.answers ⟦<Chain as Answerer>⟧.drops ⟦<Chain as Answerer>⟧.names ⟦<Chain as Answerer>⟧.fails (key_of mask_key)
        (λ settings flows chain. AreRulesOf settings chain.rules × BeginsWith settings flows chain.replay chain.cookies chain.auth × (chain.addons ≡ addons)) (lines.new ≡ lines.old) (LinesFailed (W.faults lines.old.wire) lines.old.faults (W.faults lines.new.wire) lines.new.faults (W.calls lines.new.wire)) (Rose (S.faults out.old) (S.faults out.new)) (Rose (F.losses files.old) (F.losses files.new)) (Rose (T.faults notes.old) (T.faults notes.new)) path opened
        (outside W.steps W.listening F.contents F.calls F.misses F.faults F.losses S.written T.written lines.old.wire files.old out.old notes.old)
        (outside W.steps W.listening F.contents F.calls F.misses F.faults F.losses S.written T.written lines.new.wire files.new out.new notes.new) result
        × IsWiredBy (key_of mask_key) opened result (W.steps lines.old.wire) (W.calls lines.new.wire) }

    // With the words `flows FILE FILTER`: the lines of the file's flows.
    ensures lists { (path text : List ℕ) → IsFlows (map string_bytes words.now) path text → (what : Fetched) × ListsFile (lines.new ≡ lines.old) (Rose (S.faults out.old) (S.faults out.new)) (Rose (T.faults notes.old) (T.faults notes.new)) path text what
        (outside W.steps W.listening F.contents F.calls F.misses F.faults F.losses S.written T.written lines.old.wire files.old out.old notes.old)
        (outside W.steps W.listening F.contents F.calls F.misses F.faults F.losses S.written T.written lines.new.wire files.new out.new notes.new) result }

    // With the words `convert FILE OUT`: the entries of the file, written anew at the end of the other.
    ensures converts { (path to : List ℕ) → IsConvert (map string_bytes words.now) path to → (what : Taken) × ConvertsFile (lines.new ≡ lines.old) (Rose (S.faults out.old) (S.faults out.new)) (Rose (F.losses files.old) (F.losses files.new)) (Rose (T.faults notes.old) (T.faults notes.new)) path to what
        (outside W.steps W.listening F.contents F.calls F.misses F.faults F.losses S.written T.written lines.old.wire files.old out.old notes.old)
        (outside W.steps W.listening F.contents F.calls F.misses F.faults F.losses S.written T.written lines.new.wire files.new out.new notes.new) result }

    // With the words `pick FILE FILTER OUT`: the entries of the file on which the filter holds, written anew at the end of the other.
    ensures picks { (path text to : List ℕ) → IsPick (map string_bytes words.now) path text to → (what : Picked) × PicksFile (lines.new ≡ lines.old) (Rose (S.faults out.old) (S.faults out.new)) (Rose (F.losses files.old) (F.losses files.new)) (Rose (T.faults notes.old) (T.faults notes.new)) path text to what
        (outside W.steps W.listening F.contents F.calls F.misses F.faults F.losses S.written T.written lines.old.wire files.old out.old notes.old)
        (outside W.steps W.listening F.contents F.calls F.misses F.faults F.losses S.written T.written lines.new.wire files.new out.new notes.new) result }

    // With the words `har FILE FILTER`: the file's flows as an export of the format HAR 1.2.
    ensures exports { (path text : List ℕ) → IsHar (map string_bytes words.now) path text → (what : Fetched) × ExportsFile (lines.new ≡ lines.old) (Rose (S.faults out.old) (S.faults out.new)) (Rose (T.faults notes.old) (T.faults notes.new)) path text what
        (outside W.steps W.listening F.contents F.calls F.misses F.faults F.losses S.written T.written lines.old.wire files.old out.old notes.old)
        (outside W.steps W.listening F.contents F.calls F.misses F.faults F.losses S.written T.written lines.new.wire files.new out.new notes.new) result }

    // With the words `gen N`: the run of so many generated flows.
    ensures generates { (count : ℕ) → IsGen (map string_bytes words.now) count → Generates ⟦<Chain as Answerer>⟧.answers ⟦<Chain as Answerer>⟧.drops ⟦<Chain as Answerer>⟧.names ⟦<Chain as Answerer>⟧.fails (key_of mask_key)
        (λ settings chain. AreRulesOf settings chain.rules × BeginsWith settings [] chain.replay chain.cookies chain.auth × (chain.addons.items ≡ [])) (Rose (S.faults out.old) (S.faults out.new)) count
        (outside W.steps W.listening F.contents F.calls F.misses F.faults F.losses S.written T.written lines.old.wire files.old out.old notes.old)
        (outside W.steps W.listening F.contents F.calls F.misses F.faults F.losses S.written T.written lines.new.wire files.new out.new notes.new) result }

    // With any other words: the usage is printed, and nothing else is touched.
    ensures refuses { HasNoForm (map string_bytes words.now) → Stops (lines.new ≡ lines.old) (Rose (S.faults out.old) (S.faults out.new)) (Rose (T.faults notes.old) (T.faults notes.new)) 1 usage []
        (files_meaning F.contents F.calls F.misses F.faults F.losses files.old)
        (outside W.steps W.listening F.contents F.calls F.misses F.faults F.losses S.written T.written lines.old.wire files.old out.old notes.old)
        (outside W.steps W.listening F.contents F.calls F.misses F.faults F.losses S.written T.written lines.new.wire files.new out.new notes.new) result }

    // Each call of the wire was one that the rules allow, and where its calls are told the trace is told, and has their steps.
    ensures obeys { (list : Calls) → W.calls lines.new.wire ≡ Some list → Obeys list }
    ensures steps { (list : Calls) → W.calls lines.new.wire ≡ Some list → W.steps lines.new.wire ≡ Some (steps_of list) }

    // Where the calls are told the end is never heard.
    ensures endless { (list : Calls) → W.calls lines.new.wire ≡ Some list → ends_heard (steps_of list) ≡ false }
{
    let status = px_app::run(alloc, words, lines, files, out, notes, addons, mask_key);
    let _kept = lines.wire();
    status
}
