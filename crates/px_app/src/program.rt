//! What the program does: the words, then the run that they ask for.
//!
//! `run` is the whole program over a network, files, two sinks, addons and a key for the masks of frames that are handed in. Each promise is in a
//! clause of it.
//!
//! With the words `serve OPTIONS` the options file is read, once and first, and then the flow files that it names for `server_replay` and those for `client_replay`, in
//! their order; what came of that is told (`specs/Opened.antt`, `specs/Loaded.antt`). Where it says options and the flows of all those files were loaded, what each peer of each
//! conversation was sent is what is due to it in the options' mode and with that key (`specs/Dues.antt`), by where its client is and the calls that the trace has of the
//! conversation; the requests of `client_replay` are conversations without a client, each begun where the flow of the one before is finished (`specs/Replayed.antt`); each hook was
//! answered by the chain of the options' rules, the flows of `server_replay` and the addons, or by an operator where `intercept` is set; what is printed is a line of each finished flow of the trace, and the status's line behind them; and each status has its cause in the
//! trace or in a count of faults (`specs/Serves.antt`). With the words `flows FILE FILTER` the file is read, and the line of each of its flows on
//! which the filter holds is printed (px_words, `specs/Flows.antt`); with `har FILE FILTER` these flows are printed as an export (`Exports.antt`), with `convert FILE OUT` all of them are appended anew
//! to the other file (`Converts.antt`), and with `pick FILE FILTER OUT` these alone (`Picks.antt`). With the words `gen N` it is a run over what px_gen makes of that number
//! (`specs/Generates.antt`). Out of memory alone has no cause; after it each peer has got a prefix of what is due, and a prefix of the
//! lines is printed.
ghost use Rattle.std.specs.Prelude.{◌≡◌, ◌≤◌, ◌⊎◌, ◌++◌, ℕ, List, [], None, Option, map};
ghost use Rattle.std.specs.String.{string_bytes};
ghost use Rattle.rand_chacha.specs.ChaCha.{key_of};
ghost use Rattle.px_message.specs.declared.flow.Flow.{Flow as RecordedFlow};
ghost use Rattle.px_outside.specs.Count.{Rose};
ghost use Rattle.px_outside.specs.Net.{idle};
ghost use Rattle.px_outside.specs.declared.files.FileCall.{FileCall};
ghost use Rattle.px_core.specs.Answers.{FilesMeaning, files_meaning};
ghost use Rattle.px_map.specs.Reads.{Made, seen};
ghost use Rattle.px_addons.specs.Mapped.{seen_of};
ghost use Rattle.px_options.specs.Options.{Settings};
ghost use Rattle.px_options.specs.Shown.{refusal_line, refusal_note};
ghost use Rattle.px_options.specs.View.{settings};
ghost use Rattle.px_words.specs.Flows.{Fetched, ListsFile};
ghost use Rattle.px_app.specs.Generates.{Generates};
ghost use Rattle.px_app.specs.Lines.{line_of, usage};
ghost use Rattle.px_app.specs.Loaded.{Loaded, LoadsBoth, LoadsFiles, loaded, unloaded};
ghost use Rattle.px_app.specs.Opened.{Opened, AreRulesOf, BeginsWith};
ghost use Rattle.px_words.specs.Outside.{IsTold, outside};
ghost use Rattle.px_app.specs.Printed.{Has, Ends, at_end};
ghost use Rattle.px_app.specs.Opened.{error_code, error_line, error_note};
ghost use Rattle.px_app.specs.Serves.{RunsWith, Serves, ServesFile};
ghost use Rattle.px_words.specs.Stops.{Stops};
ghost use Rattle.px_app.specs.Setup.{IsSetupOf};
ghost use Rattle.px_app.specs.Statuses.{code_of};
ghost use Rattle.px_app.specs.Words.{HasNoForm, IsConvert, IsFlows, IsGen, IsHar, IsPick, IsServe};
ghost use Rattle.px_words.specs.Converts.{ConvertsFile, Taken};
ghost use Rattle.px_words.specs.Exports.{ExportsFile};
ghost use Rattle.px_words.specs.Picks.{Picked, PicksFile};

use crate::generate::generate;
use crate::loading::{load_flows, refuse_load};
use crate::opening::{OpenError, read_file};
use crate::printing::Printing;
use crate::serve::{Ending, serve};
use crate::setup::{Setup, setup_of};
use crate::status::Status;
use crate::words::{convert_words, flow_count, flow_words, har_words, options_path, pick_words};
use px_addons::{Addon, Chain};
use px_core::Answerer;
use px_message::Flow;
use px_options::{Options, OptionsError, refusal_line, refusal_note};
use px_outside::{Files, Net, Sink};
use px_text::NoMemory;
use px_words::{NO_MEMORY, Stop, cannot_read, convert, export, list_flows, pick, stop_with};
use std::alloc::Global;

// What is printed where the words have no form.
const USAGE: &str =
    "usage: mitm serve OPTIONS | flows FILE FILTER | convert FILE OUT | har FILE FILTER | pick FILE FILTER OUT | gen N\n";

/// Runs the program with these words, and answers the exit status.
///
/// `serve OPTIONS` reads the options file of that path, loads the flows of the files of `server_replay` and `client_replay`, listens where it says, tells a note of that, serves
/// each connection in the mode that it names by its rules, the flows of `server_replay` and these addons, with this key for the masks of frames, sends the requests of `client_replay`
/// again, one behind the other, and prints a line of each finished flow. `flows FILE FILTER` reads that file of flows
/// and prints the line of each on which the filter holds; `har FILE FILTER` prints these flows as an export of the format HAR 1.2; `convert FILE OUT` writes all of the file's
/// flows anew at the end of the other file, and `pick FILE FILTER OUT` those on which the filter holds. `gen N` runs N generated flows over a network in memory, tells `net` what was
/// asked, answered and finished, and prints three counts.
///
/// Where the options name a place for operators (`control`), it listens there too, and each whole line of such a connection is obeyed and answered.
///
/// The status is 0 at the net's end or where an operator ends the run, or where the flows of a file or the counts are printed; 1 where the words have no form; 2 where the
/// options file is none, or the filter; 3 where a file was not read; 4 at a place of a file of flows that has none; 5 where the net
/// failed; 6 where as many things were heard as the options allow and the last did not end the run; 7 where a line was not printed whole and
/// else it were 0, or while the flows of a file were printed, or where an append to the other file failed; 8 where memory ran out. The lines of 1 to 6 are printed behind those of the
/// flows; where a rule or a filter is refused, a note shows its text with a mark under the place. After a write to `out` that failed nothing
/// more is printed, and a run that serves goes on to its end; a sink that fails to take a status's line, or a note, changes no status.
pub fn run<N: Net, F: Files, S: Sink, T: Sink>(
    alloc: Global,
    words: &[String],
    net: &mut N,
    files: &mut F,
    out: &mut S,
    notes: &mut T,
    addons: Vec<Box<dyn Addon>>,
    mask_key: [u8; 32],
) -> u8
    requires idle { N.listening net.old ≡ idle }

    // With the words `serve OPTIONS`: the files are read, and the run is as what came of that says.
    ensures serves { (path : List ℕ) → IsServe (map string_bytes words.now) path → (opened : Opened) × ServesFile ⟦<Chain as Answerer>⟧.answers ⟦<Chain as Answerer>⟧.drops ⟦<Chain as Answerer>⟧.names ⟦<Chain as Answerer>⟧.fails (key_of mask_key)
        (λ settings flows chain. AreRulesOf settings chain.rules × BeginsWith settings flows chain.replay chain.cookies chain.auth × (chain.addons ≡ addons)) (net.new ≡ net.old) (Rose (N.faults net.old) (N.faults net.new)) (Rose (S.faults out.old) (S.faults out.new)) (Rose (F.losses files.old) (F.losses files.new)) (Rose (T.faults notes.old) (T.faults notes.new)) path opened
        (outside N.trace N.listening F.contents F.calls F.misses F.faults F.losses S.written T.written net.old files.old out.old notes.old)
        (outside N.trace N.listening F.contents F.calls F.misses F.faults F.losses S.written T.written net.new files.new out.new notes.new) result }

    // With the words `flows FILE FILTER`: the lines of the file's flows.
    ensures lists { (path text : List ℕ) → IsFlows (map string_bytes words.now) path text → (what : Fetched) × ListsFile (net.new ≡ net.old) (Rose (S.faults out.old) (S.faults out.new)) (Rose (T.faults notes.old) (T.faults notes.new)) path text what
        (outside N.trace N.listening F.contents F.calls F.misses F.faults F.losses S.written T.written net.old files.old out.old notes.old)
        (outside N.trace N.listening F.contents F.calls F.misses F.faults F.losses S.written T.written net.new files.new out.new notes.new) result }

    // With the words `convert FILE OUT`: the entries of the file, written anew at the end of the other.
    ensures converts { (path to : List ℕ) → IsConvert (map string_bytes words.now) path to → (what : Taken) × ConvertsFile (net.new ≡ net.old) (Rose (S.faults out.old) (S.faults out.new)) (Rose (F.losses files.old) (F.losses files.new)) (Rose (T.faults notes.old) (T.faults notes.new)) path to what
        (outside N.trace N.listening F.contents F.calls F.misses F.faults F.losses S.written T.written net.old files.old out.old notes.old)
        (outside N.trace N.listening F.contents F.calls F.misses F.faults F.losses S.written T.written net.new files.new out.new notes.new) result }

    // With the words `pick FILE FILTER OUT`: the entries of the file on which the filter holds, written anew at the end of the other.
    ensures picks { (path text to : List ℕ) → IsPick (map string_bytes words.now) path text to → (what : Picked) × PicksFile (net.new ≡ net.old) (Rose (S.faults out.old) (S.faults out.new)) (Rose (F.losses files.old) (F.losses files.new)) (Rose (T.faults notes.old) (T.faults notes.new)) path text to what
        (outside N.trace N.listening F.contents F.calls F.misses F.faults F.losses S.written T.written net.old files.old out.old notes.old)
        (outside N.trace N.listening F.contents F.calls F.misses F.faults F.losses S.written T.written net.new files.new out.new notes.new) result }

    // With the words `har FILE FILTER`: the file's flows as an export of the format HAR 1.2.
    ensures exports { (path text : List ℕ) → IsHar (map string_bytes words.now) path text → (what : Fetched) × ExportsFile (net.new ≡ net.old) (Rose (S.faults out.old) (S.faults out.new)) (Rose (T.faults notes.old) (T.faults notes.new)) path text what
        (outside N.trace N.listening F.contents F.calls F.misses F.faults F.losses S.written T.written net.old files.old out.old notes.old)
        (outside N.trace N.listening F.contents F.calls F.misses F.faults F.losses S.written T.written net.new files.new out.new notes.new) result }

    // With the words `gen N`: the run of so many generated flows.
    ensures generates { (count : ℕ) → IsGen (map string_bytes words.now) count → Generates ⟦<Chain as Answerer>⟧.answers ⟦<Chain as Answerer>⟧.drops ⟦<Chain as Answerer>⟧.names ⟦<Chain as Answerer>⟧.fails (key_of mask_key)
        (λ settings chain. AreRulesOf settings chain.rules × BeginsWith settings [] chain.replay chain.cookies chain.auth × (chain.addons.items ≡ [])) (Rose (S.faults out.old) (S.faults out.new)) count
        (outside N.trace N.listening F.contents F.calls F.misses F.faults F.losses S.written T.written net.old files.old out.old notes.old)
        (outside N.trace N.listening F.contents F.calls F.misses F.faults F.losses S.written T.written net.new files.new out.new notes.new) result }

    // With any other words: the usage is printed, and nothing else is touched.
    ensures refuses { HasNoForm (map string_bytes words.now) → Stops (net.new ≡ net.old) (Rose (S.faults out.old) (S.faults out.new)) (Rose (T.faults notes.old) (T.faults notes.new)) 1 usage []
        (files_meaning F.contents F.calls F.misses F.faults F.losses files.old)
        (outside N.trace N.listening F.contents F.calls F.misses F.faults F.losses S.written T.written net.old files.old out.old notes.old)
        (outside N.trace N.listening F.contents F.calls F.misses F.faults F.losses S.written T.written net.new files.new out.new notes.new) result }
{
    if let Some(path) = options_path(words) {
        return serve_file(alloc, path, net, files, out, notes, addons, mask_key);
    }
    if let Some(found) = flow_words(words) {
        drop(addons);
        return list_flows(alloc, found.0, found.1, &*net, files, out, notes);
    }
    if let Some(found) = convert_words(words) {
        drop(addons);
        return convert(alloc, found.0, found.1, &*net, files, out, notes);
    }
    if let Some(found) = har_words(words) {
        drop(addons);
        return export(alloc, found.0, found.1, &*net, files, out, notes);
    }
    if let Some(found) = pick_words(words) {
        drop(addons);
        return pick(alloc, found.0, found.1, found.2, &*net, files, out, notes);
    }
    if let Some(count) = flow_count(words) {
        return generate(alloc, count, net, files, out, &*notes, addons, mask_key);
    }
    drop(addons);
    stop_with(out, notes, Stop::Usage, USAGE.as_bytes(), b"")
}

// Reads the options file of this path, and serves as it says.
fn serve_file<N: Net, F: Files, S: Sink, T: Sink>(
    alloc: Global,
    path: &str,
    net: &mut N,
    files: &mut F,
    out: &mut S,
    notes: &mut T,
    addons: Vec<Box<dyn Addon>>,
    mask_key: [u8; 32],
) -> u8
    requires idle { N.listening net.old ≡ idle }
    ensures { (opened : Opened) × ServesFile ⟦<Chain as Answerer>⟧.answers ⟦<Chain as Answerer>⟧.drops ⟦<Chain as Answerer>⟧.names ⟦<Chain as Answerer>⟧.fails (key_of mask_key)
        (λ settings flows chain. AreRulesOf settings chain.rules × BeginsWith settings flows chain.replay chain.cookies chain.auth × (chain.addons ≡ addons)) (net.new ≡ net.old) (Rose (N.faults net.old) (N.faults net.new)) (Rose (S.faults out.old) (S.faults out.new)) (Rose (F.losses files.old) (F.losses files.new)) (Rose (T.faults notes.old) (T.faults notes.new)) path.now opened
        (outside N.trace N.listening F.contents F.calls F.misses F.faults F.losses S.written T.written net.old files.old out.old notes.old)
        (outside N.trace N.listening F.contents F.calls F.misses F.faults F.losses S.written T.written net.new files.new out.new notes.new) result }
{
    match read_file(alloc, path, files) {
        Ok(options) => serve_options(alloc, options, net, files, out, notes, addons, mask_key),
        Err(error) => {
            drop(addons);
            refuse(alloc, path, &error, out, notes)
        }
    }
}

// Prints why there are no options.
fn refuse<S: Sink, T: Sink>(
    alloc: Global,
    path: &str,
    error: &OpenError,
    out: &mut S,
    notes: &mut T,
) -> u8
    ensures status { (result ≡ error_code error.now) ⊎ (result ≡ 8) }
    ensures prints { IsTold (Rose (S.faults out.old) (S.faults out.new)) result (error_line path.now error.now) (S.written out.old) (S.written out.new) }
    ensures notes { IsTold (Rose (T.faults notes.old) (T.faults notes.new)) result (error_note error.now) (T.written notes.old) (T.written notes.new) }
{
    match error {
        OpenError::NotRead => match cannot_read(alloc, path) {
            Ok(line) => stop_with(out, notes, Stop::NotRead, &line, b""),
            Err(NoMemory) => NO_MEMORY,
        },
        OpenError::Refused(error) => refuse_options(alloc, error, out, notes),
        OpenError::NoMemory => NO_MEMORY,
    }
}

// Prints why the file is no options file, and shows the rule that is none.
fn refuse_options<S: Sink, T: Sink>(
    alloc: Global,
    error: &OptionsError,
    out: &mut S,
    notes: &mut T,
) -> u8
    ensures status { (result ≡ 2) ⊎ (result ≡ 8) }
    ensures prints { IsTold (Rose (S.faults out.old) (S.faults out.new)) result (refusal_line error.now) (S.written out.old) (S.written out.new) }
    ensures notes { IsTold (Rose (T.faults notes.old) (T.faults notes.new)) result (refusal_note error.now) (T.written notes.old) (T.written notes.new) }
{
    let mut line = Vec::new(alloc);
    if refusal_line(error, &mut line).is_err() {
        return NO_MEMORY;
    }
    let mut note = Vec::new(alloc);
    if refusal_note(error, &mut note).is_err() {
        return NO_MEMORY;
    }
    stop_with(out, notes, Stop::Refused, &line, &note)
}

// Loads the flows of the files that the options name, and serves as they say.
fn serve_options<N: Net, F: Files, S: Sink, T: Sink>(
    alloc: Global,
    options: Options,
    net: &mut N,
    files: &mut F,
    out: &mut S,
    notes: &mut T,
    addons: Vec<Box<dyn Addon>>,
    mask_key: [u8; 32],
) -> u8
    requires idle { N.listening net.old ≡ idle }
    ensures { (calls : List FileCall) × (recorded : Loaded) × (resent : Loaded) × (read : FilesMeaning) × LoadsBoth (settings options).server_replay (settings options).client_replay calls recorded resent
        × Made calls (seen F.contents F.calls F.misses F.faults F.losses files.old) (seen_of read)
        × RunsWith ⟦<Chain as Answerer>⟧.answers ⟦<Chain as Answerer>⟧.drops ⟦<Chain as Answerer>⟧.names ⟦<Chain as Answerer>⟧.fails (key_of mask_key)
        (λ settings flows chain. AreRulesOf settings chain.rules × BeginsWith settings flows chain.replay chain.cookies chain.auth × (chain.addons ≡ addons)) (net.new ≡ net.old) (Rose (N.faults net.old) (N.faults net.new)) (Rose (S.faults out.old) (S.faults out.new)) (Rose (F.losses files.old) (F.losses files.new)) (Rose (T.faults notes.old) (T.faults notes.new)) (settings options) recorded resent read
        (outside N.trace N.listening F.contents F.calls F.misses F.faults F.losses S.written T.written net.old files.old out.old notes.old)
        (outside N.trace N.listening F.contents F.calls F.misses F.faults F.losses S.written T.written net.new files.new out.new notes.new) result }
{
    match load_flows(alloc, options.server_replay.as_slice(), files) {
        Ok(flows) => serve_recorded(
            alloc, options, flows, net, files, out, notes, addons, mask_key,
        ),
        Err(error) => {
            drop(addons);
            let status = refuse_load(alloc, &error, out, notes);
            drop(options);
            status
        }
    }
}

// Loads the flows whose requests are sent again, and serves as the options say, with these flows that answer.
fn serve_recorded<N: Net, F: Files, S: Sink, T: Sink>(
    alloc: Global,
    options: Options,
    flows: Vec<Flow>,
    net: &mut N,
    files: &mut F,
    out: &mut S,
    notes: &mut T,
    addons: Vec<Box<dyn Addon>>,
    mask_key: [u8; 32],
) -> u8
    requires idle { N.listening net.old ≡ idle }
    ensures { (calls : List FileCall) × (resent : Loaded) × (read : FilesMeaning) × LoadsFiles (settings options).client_replay calls resent
        × Made calls (seen F.contents F.calls F.misses F.faults F.losses files.old) (seen_of read)
        × RunsWith ⟦<Chain as Answerer>⟧.answers ⟦<Chain as Answerer>⟧.drops ⟦<Chain as Answerer>⟧.names ⟦<Chain as Answerer>⟧.fails (key_of mask_key)
        (λ settings flows chain. AreRulesOf settings chain.rules × BeginsWith settings flows chain.replay chain.cookies chain.auth × (chain.addons ≡ addons)) (net.new ≡ net.old) (Rose (N.faults net.old) (N.faults net.new)) (Rose (S.faults out.old) (S.faults out.new)) (Rose (F.losses files.old) (F.losses files.new)) (Rose (T.faults notes.old) (T.faults notes.new)) (settings options) (loaded flows.items) resent read
        (outside N.trace N.listening F.contents F.calls F.misses F.faults F.losses S.written T.written net.old files.old out.old notes.old)
        (outside N.trace N.listening F.contents F.calls F.misses F.faults F.losses S.written T.written net.new files.new out.new notes.new) result }
{
    match load_flows(alloc, options.client_replay.as_slice(), files) {
        Ok(resent) => serve_flows(
            alloc, options, flows, resent, net, files, out, notes, addons, mask_key,
        ),
        Err(error) => {
            drop(addons);
            drop(flows);
            let status = refuse_load(alloc, &error, out, notes);
            drop(options);
            status
        }
    }
}

// Serves as the options say: these flows answer, and the requests of those are sent again.
fn serve_flows<N: Net, F: Files, S: Sink, T: Sink>(
    alloc: Global,
    options: Options,
    flows: Vec<Flow>,
    resent: Vec<Flow>,
    net: &mut N,
    files: &mut F,
    out: &mut S,
    notes: &mut T,
    addons: Vec<Box<dyn Addon>>,
    mask_key: [u8; 32],
) -> u8
    requires idle { N.listening net.old ≡ idle }
    ensures { (what : Loaded) × ((what ≡ loaded resent.items) ⊎ (what ≡ unloaded)) × RunsWith ⟦<Chain as Answerer>⟧.answers ⟦<Chain as Answerer>⟧.drops ⟦<Chain as Answerer>⟧.names ⟦<Chain as Answerer>⟧.fails (key_of mask_key)
        (λ settings flows chain. AreRulesOf settings chain.rules × BeginsWith settings flows chain.replay chain.cookies chain.auth × (chain.addons ≡ addons)) (net.new ≡ net.old) (Rose (N.faults net.old) (N.faults net.new)) (Rose (S.faults out.old) (S.faults out.new)) (Rose (F.losses files.old) (F.losses files.new)) (Rose (T.faults notes.old) (T.faults notes.new)) (settings options) (loaded flows.items) what (files_meaning F.contents F.calls F.misses F.faults F.losses files.old)
        (outside N.trace N.listening F.contents F.calls F.misses F.faults F.losses S.written T.written net.old files.old out.old notes.old)
        (outside N.trace N.listening F.contents F.calls F.misses F.faults F.losses S.written T.written net.new files.new out.new notes.new) result }
{
    match setup_of(alloc, options, flows) {
        Ok(setup) => serve_setup(
            alloc, setup, resent, net, files, out, notes, addons, mask_key,
        ),
        Err(NoMemory) => {
            drop(addons);
            drop(resent);
            NO_MEMORY
        }
    }
}

// Serves by this setup, and sends the requests of these flows again.
fn serve_setup<N: Net, F: Files, S: Sink, T: Sink>(
    alloc: Global,
    setup: Setup,
    resent: Vec<Flow>,
    net: &mut N,
    files: &mut F,
    out: &mut S,
    notes: &mut T,
    addons: Vec<Box<dyn Addon>>,
    mask_key: [u8; 32],
) -> u8
    requires idle { N.listening net.old ≡ idle }
    ensures { (settings : Settings) (flows : List RecordedFlow) → IsSetupOf settings flows setup → (chain : ⟦<Chain as Answerer>⟧.State)
        × (AreRulesOf settings chain.rules × BeginsWith settings flows chain.replay chain.cookies chain.auth × (chain.addons ≡ addons)) × Serves ⟦<Chain as Answerer>⟧.answers ⟦<Chain as Answerer>⟧.drops ⟦<Chain as Answerer>⟧.names ⟦<Chain as Answerer>⟧.fails (key_of mask_key)
        (Rose (N.faults net.old) (N.faults net.new)) (Rose (S.faults out.old) (S.faults out.new)) (Rose (F.losses files.old) (F.losses files.new)) (Rose (T.faults notes.old) (T.faults notes.new)) settings chain resent.items (files_meaning F.contents F.calls F.misses F.faults F.losses files.old)
        (outside N.trace N.listening F.contents F.calls F.misses F.faults F.losses S.written T.written net.old files.old out.old notes.old)
        (outside N.trace N.listening F.contents F.calls F.misses F.faults F.losses S.written T.written net.new files.new out.new notes.new) result }
{
    let Setup {
        rules,
        listen,
        control,
        mode,
        saving,
        events,
    } = setup;
    let chain = Chain::new(rules, addons);
    let ending = serve(
        alloc,
        &listen,
        control.as_ref(),
        mode,
        mask_key,
        resent,
        chain,
        saving,
        net,
        files,
        out,
        notes,
        events,
    );
    end(out, ending).code()
}

// Prints the status's line. At the net's end a write that failed makes the status; else a failure changes none.
fn end<S: Sink>(out: &mut S, ending: Ending) -> Status
    ensures status { (result ≡ at_end ending.printing ending.status) ⊎ (result ≡ Status.NoMemory) }
    ensures memory { ending.status ≡ Status.NoMemory → (result ≡ Status.NoMemory) × (S.written out.new ≡ S.written out.old) }
    ensures prints { (start : Option (List ℕ)) (text : List ℕ) → Has ending.printing text start (S.written out.old) →
        Ends ending.printing (text ++ line_of (code_of result)) start (S.written out.new) (S.faults out.old) (S.faults out.new) result }
    ensures still { ending.printing ≡ Printing.Failed → S.written out.new ≡ S.written out.old }
    ensures later { S.faults out.old ≤ S.faults out.new }
{
    let Ending { status, printing } = ending;
    match status {
        Status::Ended => match printing {
            Printing::Whole => Status::Ended,
            Printing::Failed => Status::OutputFailed,
        },
        Status::OutputFailed | Status::NoMemory => status,
        Status::NetFault | Status::BudgetSpent => {
            match printing.print(out, status.line().as_bytes()) {
                Ok(_) => status,
                Err(NoMemory) => Status::NoMemory,
            }
        }
    }
}
