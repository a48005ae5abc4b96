//! What follows of every run from the promises of its trace. Each is a function with nothing to do: its contract is the law.

ghost use Rattle.px_exchange.specs.declared.mode.Mode.{Mode};
ghost use Rattle.std.specs.Prelude.{◌≡◌, ◌≢◌, ◌++◌, ℕ, Bool, List, map, None, Option, Some};
ghost use Rattle.px_text.specs.Prefix.{IsPrefixOf};
ghost use Rattle.px_message.specs.declared.flow.Flow.{Flow};
ghost use Rattle.px_event.specs.Trace.{Trace, Always};
ghost use Rattle.px_outside.specs.Files.{Told};
ghost use Rattle.px_outside.specs.declared.files.FileCall.{FileCall};
ghost use Rattle.px_core.specs.Answers.{FilesMeaning};
ghost use Rattle.px_core.specs.Course.{Change, Operated};
ghost use Rattle.px_filter.specs.Expression.{Expression};
ghost use Rattle.px_core.specs.Due.{Due, IsWithinDue};
ghost use Rattle.px_core.specs.Kind.{EndsOfKind};
ghost use Rattle.px_core.specs.Ordered.{IsInOrder};
ghost use Rattle.px_map.specs.View.{local_views};
ghost use Rattle.px_addons.specs.Mapped.{ReadsOfRules};
ghost use Rattle.px_addons.specs.Quiet.{goes_on_unchanged};
ghost use Rattle.px_app.specs.Dues.{run_due};
ghost use Rattle.px_app.specs.Grown.{Grown, GrowsUnder, texts};
ghost use Rattle.px_app.specs.Loaded.{Loaded, LoadsBoth, LoadsFiles, loaded, path_read};
ghost use Rattle.px_app.specs.Over.{Reaches, SavedOver, finished_in};
ghost use Rattle.px_app.specs.Own.{IsOwn, IsIsolated};
ghost use Rattle.px_app.specs.Promises.{Promises};
ghost use Rattle.px_app.specs.Saved.{SavesTo, saved};
ghost use Rattle.px_words.specs.Appends.{Append};
ghost use Rattle.px_app.specs.Servers.{CountsServers};
ghost use Rattle.px_app.specs.Touched.{TouchesOnly};
ghost use Rattle.px_app.specs.declared.printing.Printing.{Printing};

use px_addons::Chain;
use px_core::{Answerer, Kind};

/// Where at every moment the trace is within what is due, at every moment the n-th dial of each conversation names its server n.
pub fn dials_count_up()
    ensures { (mode : Mode) (key : List ℕ) (resent : List Flow) (trace : Trace) → Always (IsWithinDue (run_due mode key resent)) trace → Always CountsServers trace }
{}

/// Where the trace is within what is due, no hook of a flow is asked once the flow is finished.
pub fn no_hook_is_asked_behind_its_end()
    ensures { (mode : Mode) (key : List ℕ) (resent : List Flow) (trace : Trace) → IsWithinDue (run_due mode key resent) trace → IsInOrder trace }
{}

/// Where each step is of the conversation that was heard last or has begun since, or follows from what an operator said, at every moment what is due to a conversation is what is due by its
/// own steps and by what operators said alone, with all that others heard and said left out. Of a conversation that begins with no one heard, the moment at which it does is kept.
pub fn conversations_do_not_touch_each_other()
    ensures { (due : Due) (trace : Trace) → IsOwn trace → Always (IsIsolated due) trace }
{}

/// In each run each step is of the conversation that was heard last, or of a request that has begun since to be sent again, or follows from what an operator said.
pub fn each_step_is_its_own(chain: &Chain)
    ensures { (mode : Mode) (key : List ℕ) (resent : List Flow) (files last : FilesMeaning) (intercept : Option Expression) (changes : List (Change ⟦<Chain as Answerer>⟧.State)) (operations : List Operated) (status : ℕ) (over : Bool) (told trace : Trace) →
        Promises ⟦<Chain as Answerer>⟧.answers ⟦<Chain as Answerer>⟧.drops ⟦<Chain as Answerer>⟧.names ⟦<Chain as Answerer>⟧.fails intercept mode key resent (record { own = chain.now; files = files }) changes operations last status over told trace →
        IsOwn trace }
{}

/// Where a run's chain has no rules and each of its addons leaves every draft as it is, nothing is changed, killed or streamed: each
/// answer goes on with the flow that was due when its hook was asked. So it is whatever is saved.
pub fn addons_that_leave_drafts_change_nothing(chain: &Chain)
    ensures { (mode : Mode) (key : List ℕ) (resent : List Flow) (files last : FilesMeaning) (intercept : Option Expression) (changes : List (Change ⟦<Chain as Answerer>⟧.State)) (operations : List Operated) (status : ℕ) (over : Bool) (told trace : Trace) →
        ⟦<Chain as Kind>⟧.is_so chain.now →
        Promises ⟦<Chain as Answerer>⟧.answers ⟦<Chain as Answerer>⟧.drops ⟦<Chain as Answerer>⟧.names ⟦<Chain as Answerer>⟧.fails intercept mode key resent (record { own = chain.now; files = files }) changes operations last status over told trace →
        Always (EndsOfKind goes_on_unchanged (run_due mode key resent)) trace }
{}

/// Behind its start, where the options file and then the flow files of `server_replay` and `client_replay` are read
/// ([`flow_files_are_read_in_order`]), a run reads no file but those that the map local rules of its chain name, and changes none but the one where its flows are saved: each
/// call of the files is an append there, or a read of a rule's own file, or of a path that is the rule's directory followed by a name of which no
/// segment is `..` and which does not begin with a slash. What stands under each path but that one is what stood there, and a read of it gave
/// that. Where no flows are saved, each call is such a read, and no file is changed.
pub fn a_run_touches_only_what_options_name(chain: &Chain)
    ensures touches { (mode : Mode) (key : List ℕ) (resent : List Flow) (files last : FilesMeaning) (to : Option SavesTo) (intercept : Option Expression) (changes : List (Change ⟦<Chain as Answerer>⟧.State)) (operations : List Operated) (placed : List Trace) (made : List Append) (reached : Printing) (status : ℕ) (over : Bool) (told trace : Trace) →
        Promises ⟦<Chain as Answerer>⟧.answers ⟦<Chain as Answerer>⟧.drops ⟦<Chain as Answerer>⟧.names ⟦<Chain as Answerer>⟧.fails intercept mode key resent (record { own = chain.now; files = files }) changes operations last status over told trace →
        SavedOver to reached changes placed made → TouchesOnly (local_views chain.now.rules.local) to files last }
    ensures unsaved { (mode : Mode) (key : List ℕ) (resent : List Flow) (files last : FilesMeaning) (intercept : Option Expression) (changes : List (Change ⟦<Chain as Answerer>⟧.State)) (operations : List Operated) (placed : List Trace) (made : List Append) (reached : Printing) (status : ℕ) (over : Bool) (told trace : Trace) →
        Promises ⟦<Chain as Answerer>⟧.answers ⟦<Chain as Answerer>⟧.drops ⟦<Chain as Answerer>⟧.names ⟦<Chain as Answerer>⟧.fails intercept mode key resent (record { own = chain.now; files = files }) changes operations last status over told trace →
        SavedOver None reached changes placed made → ReadsOfRules (local_views chain.now.rules.local) files last }
{}

/// At the start of a run the flow files of `server_replay` are read in their order, and then those of `client_replay` in theirs, each as often as it is named and no other file: the reads are of the first of the
/// paths, and where all flows were loaded of all of them.
pub fn flow_files_are_read_in_order()
    ensures front { (paths : List (List ℕ)) (calls : List FileCall) (what : Loaded) → LoadsFiles paths calls what → IsPrefixOf (map path_read calls) paths }
    ensures all { (paths : List (List ℕ)) (calls : List FileCall) (flows : List Flow) → LoadsFiles paths calls (loaded flows) → map path_read calls ≡ paths }
    ensures both_front { (first second : List (List ℕ)) (calls : List FileCall) (recorded resent : Loaded) → LoadsBoth first second calls recorded resent → IsPrefixOf (map path_read calls) (first ++ second) }
    ensures both_all { (first second : List (List ℕ)) (calls : List FileCall) (recorded resent : List Flow) → LoadsBoth first second calls (loaded recorded) (loaded resent) → map path_read calls ≡ first ++ second }
{}

/// Where a run's flows are saved, the file is what stood there, where an absent file counts as empty, with what was appended behind it: the text of
/// each append that was put, in their order, and of the one that was lost, if any, a prefix. Where memory ran out it is so with the first
/// of the appends. And where the run printed and saved all, it is what stood there with the texts of the flows behind it that finished and are to
/// be saved, in their order.
pub fn what_is_saved_stands_behind_what_stood_there(chain: &Chain)
    ensures part { (mode : Mode) (key : List ℕ) (resent : List Flow) (files last : FilesMeaning) (to : SavesTo) (intercept : Option Expression) (changes : List (Change ⟦<Chain as Answerer>⟧.State)) (operations : List Operated) (placed : List Trace) (made : List Append) (reached : Printing) (status : ℕ) (over : Bool) (told trace : Trace) →
        Promises ⟦<Chain as Answerer>⟧.answers ⟦<Chain as Answerer>⟧.drops ⟦<Chain as Answerer>⟧.names ⟦<Chain as Answerer>⟧.fails intercept mode key resent (record { own = chain.now; files = files }) changes operations last status over told trace →
        SavedOver (Some to) reached changes placed made → (so_far : List Append) × IsPrefixOf so_far made × Told (Grown to.path so_far) files.contents last.contents }
    ensures whole { (mode : Mode) (key : List ℕ) (resent : List Flow) (files last : FilesMeaning) (to : SavesTo) (intercept : Option Expression) (changes : List (Change ⟦<Chain as Answerer>⟧.State)) (operations : List Operated) (placed : List Trace) (made : List Append) (reached : Printing) (status : ℕ) (over : Bool) (told trace : Trace) →
        Promises ⟦<Chain as Answerer>⟧.answers ⟦<Chain as Answerer>⟧.drops ⟦<Chain as Answerer>⟧.names ⟦<Chain as Answerer>⟧.fails intercept mode key resent (record { own = chain.now; files = files }) changes operations last status over told trace →
        SavedOver (Some to) reached changes placed made → status ≢ 8 → Told (Grown to.path made) files.contents last.contents }
    ensures all { (mode : Mode) (key : List ℕ) (resent : List Flow) (files last : FilesMeaning) (to : SavesTo) (intercept : Option Expression) (changes : List (Change ⟦<Chain as Answerer>⟧.State)) (operations : List Operated) (made : List Append) (status : ℕ) (over : Bool) (told trace : Trace) (start now : Option (List ℕ)) →
        Promises ⟦<Chain as Answerer>⟧.answers ⟦<Chain as Answerer>⟧.drops ⟦<Chain as Answerer>⟧.names ⟦<Chain as Answerer>⟧.fails intercept mode key resent (record { own = chain.now; files = files }) changes operations last status over told trace →
        Reaches (Some to) Printing.Whole changes made trace start now → status ≢ 8 →
        Told (GrowsUnder to.path (texts (saved (Some to) (finished_in trace)))) files.contents last.contents }
{}
