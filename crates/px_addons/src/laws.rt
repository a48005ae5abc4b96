//! Laws of chains and addons. Each function does nothing; what it ensures is the law.
ghost use Rattle.std.specs.Prelude.{◌≡◌, ◌≢◌, ◌⊎◌, ◌==◌, ℕ, Bool, true, List, [], ◌∷◌, map, None, Some, Option, slice_get, if◌then◌else◌};
ghost use Rattle.px_addons.specs.Chain.{AddonsMove, ChainAnswers, ChainFails, Movers, SameAddons, TwoInTurn, intercept_of, may_wait, movers_of};
ghost use Rattle.px_addons.specs.Counter.{counted, counts};
ghost use Rattle.px_addons.specs.Mapped.{ReadsOfRules};
ghost use Rattle.px_addons.specs.Moving.{KeepsDrafts};
ghost use Rattle.px_addons.specs.Quiet.{NoRules};
ghost use Rattle.px_addons.specs.ReplayRuns.{AreOfRecorded};
ghost use Rattle.px_addons.specs.Replays.{moment_at, sent_as};
ghost use Rattle.px_addons.specs.Sizes.{AllAllowNone, AllKeepSizes, KeepsSizes, size_of};
ghost use Rattle.px_addons.specs.StickyRuns.{HasKeptSet, HasKeptShown, all_shown, cookies_set};
ghost use Rattle.px_addons.specs.Turns.{Given, InTurn};
ghost use Rattle.px_addons.specs.declared.rules.Rules.{Rules};
ghost use Rattle.px_core.specs.Answers.{AnswererState, FilesAfter, FilesMeaning};
ghost use Rattle.px_core.specs.declared.answerer.Answer.{Answer};
ghost use Rattle.px_core.specs.declared.answerer.Answer.TheVariants as answers;
ghost use Rattle.px_core.specs.declared.answerer.Draft.{Draft};
ghost use Rattle.px_core.specs.declared.answerer.Verdict.TheVariants as verdicts;
ghost use Rattle.px_event.specs.declared.ask.Hook.{Hook as AskedHook};
ghost use Rattle.px_event.specs.declared.ask.Hook.TheVariants as hooks;
ghost use Rattle.px_event.specs.declared.reply.Reply.TheVariants as replies;
ghost use Rattle.px_filter.specs.Expression.{Expression};
ghost use Rattle.px_filter.specs.Holds.{holds};
ghost use Rattle.px_map.specs.Block.{block_status};
ghost use Rattle.px_map.specs.Responses.{internal_error, not_found};
ghost use Rattle.px_map.specs.View.{block_views, local_views};
ghost use Rattle.px_message.specs.declared.flow.Flow.{Flow};
ghost use Rattle.px_message.specs.declared.response.Response.{Response};
ghost use Rattle.px_refresh.specs.Authorized.{authorizations, value_for};
ghost use Rattle.px_refresh.specs.Cookies.{Cookie, jar};
ghost use Rattle.px_refresh.specs.Kept.{firsts, latest};
ghost use Rattle.px_refresh.specs.Site.{is_same_cookie};
ghost use Rattle.px_refresh.specs.declared.authorization.StickyAuth.{StickyAuth};
ghost use Rattle.px_refresh.specs.declared.cookies.StickyCookies.{StickyCookies};
ghost use Rattle.px_refresh.specs.declared.key.CookieKey.{CookieKey};
ghost use Rattle.px_replay.specs.Replaying as replaying;
ghost use Rattle.px_replay.specs.Replaying.{Replaying, place_of, started};
ghost use Rattle.px_replay.specs.declared.options.KeyOptions.{KeyOptions};
ghost use Rattle.px_replay.specs.declared.replay.Extra.{Extra};
ghost use Rattle.px_write.specs.Short.{short_response};

use crate::{Addon, Chain};
use px_core::Answerer;

/// A chain without rules, recorded list, kept cookies and kept authorizations that has this addon alone, which leaves every draft as it is, answers every
/// hook with the flow as it was asked about, streams nothing and leaves files as they are; and it is such a chain still, without these and with the same
/// addon alone. Of chains of many addons, or of none, px_core's law `answers_are_of_their_kind` says it, at `Chain`, and of files the next law.
pub fn a_chain_that_changes_nothing(addon: &Box<dyn Addon>)
    ensures { (hook : AskedHook) (flow : Flow) (rules new_rules : Rules) (files new_files : FilesMeaning) (new : Movers _) (answer : Answer) →
        NoRules rules → KeepsDrafts (moves addon.now) →
        ChainAnswers title state moves hook flow rules (movers_of None None None (addon.now ∷ [])) files new_rules new new_files answer →
        (answer ≡ answers.Reply (replies.Go flow None)) × NoRules new_rules × (new.replay ≡ None) × (new.cookies ≡ None) × (new.auth ≡ None)
        × SameAddons title state moves (addon.now ∷ []) new.addons × (new_files ≡ files) }
{}

/// A chain without map local rules leaves files as they are, whatever its other rules and its addons: in each answer, where memory ran
/// out, and over any number of answers one behind the other.
pub fn a_chain_without_map_local_reads_nothing(addon: &Box<dyn Addon>)
    ensures given { (hook : AskedHook) (flow : Flow) (rules new_rules : Rules) (files new_files : FilesMeaning) (old new : _) (answer : Answer) →
        local_views rules.local ≡ [] → ChainAnswers title state moves hook flow rules old files new_rules new new_files answer → new_files ≡ files }
    ensures failed { (hook : AskedHook) (flow : Flow) (rules : Rules) (files new_files : FilesMeaning) (old : _) →
        local_views rules.local ≡ [] → ChainFails title state moves hook flow rules old files new_files → new_files ≡ files }
    ensures run { (first : AnswererState ⟦<Chain as Answerer>⟧.State) (files : FilesMeaning) → local_views first.own.rules.local ≡ [] →
        FilesAfter ⟦<Chain as Answerer>⟧.answers ⟦<Chain as Answerer>⟧.fails first files → files ≡ first.files }
{}

/// No request has a file read that the map local rules do not name. All that an answer does to files, also one that ran out of
/// memory, is to read: each call is a read of a rule's own file, or of a path that is the rule's directory followed by a name of which
/// no segment is `..` and which does not begin with a slash. So it is of any number of answers one behind the other.
pub fn map_local_reads_only_what_rules_name(addon: &Box<dyn Addon>)
    ensures given { (hook : AskedHook) (flow : Flow) (rules new_rules : Rules) (files new_files : FilesMeaning) (old new : _) (answer : Answer) →
        ChainAnswers title state moves hook flow rules old files new_rules new new_files answer → ReadsOfRules (local_views rules.local) files new_files }
    ensures failed { (hook : AskedHook) (flow : Flow) (rules : Rules) (files new_files : FilesMeaning) (old : _) →
        ChainFails title state moves hook flow rules old files new_files → ReadsOfRules (local_views rules.local) files new_files }
    ensures run { (first : AnswererState ⟦<Chain as Answerer>⟧.State) (files : FilesMeaning) →
        FilesAfter ⟦<Chain as Answerer>⟧.answers ⟦<Chain as Answerer>⟧.fails first files → ReadsOfRules (local_views first.own.rules.local) first.files files }
{}

/// Block rules come first. Where one of them holds at a request's head, the answer is the status of the first that does, whatever the
/// other rules and the addons: 444 closes the connection, and any other status is the response that says no more. No addon is
/// asked and no file is read, also where memory ran out.
pub fn a_block_rule_comes_first(addon: &Box<dyn Addon>)
    ensures given { (flow : Flow) (status : ℕ) (rules new_rules : Rules) (files new_files : FilesMeaning) (old new : _) (answer : Answer) →
        block_status (block_views rules.block) flow ≡ Some status →
        ChainAnswers title state moves hooks.RequestHead flow rules old files new_rules new new_files answer →
        (answer ≡ answers.Reply (if status == 444 then replies.Kill else replies.Respond (short_response status))) × (new ≡ old) × (new_files ≡ files) }
    ensures failed { (flow : Flow) (status : ℕ) (rules : Rules) (files new_files : FilesMeaning) (old : _) →
        block_status (block_views rules.block) flow ≡ Some status →
        ChainFails title state moves hooks.RequestHead flow rules old files new_files → new_files ≡ files }
{}

/// What map local answers where no file is there, or where a read failed, is the response that says no more than its status.
pub fn map_local_answers_with_short_responses()
    ensures absent { not_found ≡ short_response 404 }
    ensures failed { internal_error ≡ short_response 500 }
{}

/// An answer leaves the same addons in the same order, each with the name and the relation that it had.
pub fn an_answer_keeps_its_addons(addon: &Box<dyn Addon>)
    ensures same { (hook : AskedHook) (flow : Flow) (rules new_rules : Rules) (files new_files : FilesMeaning) (old new : Movers _) (answer : Answer) →
        ChainAnswers title state moves hook flow rules old files new_rules new new_files answer → SameAddons title state moves old.addons new.addons }
    ensures names { (hook : AskedHook) (flow : Flow) (rules new_rules : Rules) (files new_files : FilesMeaning) (old new : Movers _) (answer : Answer) →
        ChainAnswers title state moves hook flow rules old files new_rules new new_files answer → map title new.addons ≡ map title old.addons }
{}

/// Recorded flows are asked first about a whole request. Where one of them has the request's key and may answer, the answer is its response, with its dates
/// moved where the rules wish it; the first such place is used from then on, no addon is asked and no file is read. At any other hook the recorded list stays
/// as it is.
pub fn recorded_flows_come_first_at_a_whole_request(addon: &Box<dyn Addon>)
    ensures found { (flow : Flow) (rules new_rules : Rules) (files new_files : FilesMeaning) (old new : Movers _) (recorded : Replaying) (place : ℕ) (answer : Answer) →
        old.replay ≡ Some recorded → place_of recorded flow.request ≡ Some place →
        ChainAnswers title state moves hooks.RequestBody flow rules old files new_rules new new_files answer →
        (response : Response) × (slice_get (map (λ r. r.response) recorded.recordings) place ≡ Some response)
        × (answer ≡ answers.Reply (replies.Respond (sent_as rules.refresh flow (moment_at recorded place) response)))
        × (new.replay ≡ Some (replaying.after recorded (Some place))) × (new.addons ≡ old.addons) × (new_files ≡ files) }
    ensures elsewhere { (hook : AskedHook) (flow : Flow) (rules new_rules : Rules) (files new_files : FilesMeaning) (old new : Movers _) (answer : Answer) →
        hook ≢ hooks.RequestBody → ChainAnswers title state moves hook flow rules old files new_rules new new_files answer → new.replay ≡ old.replay }
{}

/// Over any number of answers one behind the other, each whole request gets the least recorded place with its key that no whole request
/// before it got, with reuse the least with its key, and is answered by the response there, with its dates moved where the rules wish it. Where it gets none,
/// it is answered by the extra answer; of a request that goes on, the parts behind decide.
pub fn each_whole_request_gets_the_least_place(addon: &Box<dyn Addon>)
    ensures { (how : KeyOptions) (reuse : Bool) (extra : Extra) (flows : List Flow) (rules : Rules) (first last : Movers _) (made : List Given) →
        first.replay ≡ Some (started how reuse extra flows) → InTurn title state moves rules first made last →
        AreOfRecorded rules.refresh (started how reuse extra flows) made }
{}

/// Moving dates is a matter of recorded responses alone: a chain without a recorded list answers in the same way whether it is wished or not.
pub fn without_recorded_flows_no_date_is_moved(addon: &Box<dyn Addon>)
    ensures { (hook : AskedHook) (flow : Flow) (rules new_rules : Rules) (files new_files : FilesMeaning) (old new : Movers _) (answer : Answer) (refresh : Bool) →
        old.replay ≡ None → ChainAnswers title state moves hook flow rules old files new_rules new new_files answer →
        ChainAnswers title state moves hook flow (record rules { refresh = refresh }) old files (record new_rules { refresh = refresh }) new new_files answer }
{}

/// Over any number of answers one behind the other, what a chain keeps is what comes of all cookies that were set by responses whose heads were asked about,
/// each as the header rules leave it, in the order of the asks: so each cookie has the value that it was set to last, and they stand in the order in which
/// they were first set. Which cookies a request is sent is told by that list and the filter, which stays. At any other hook nothing is kept or let go.
pub fn a_chain_keeps_the_cookies_of_all_responses(addon: &Box<dyn Addon>)
    ensures kept { (rules : Rules) (first last : Movers _) (cookies : StickyCookies) (made : List Given) → first.cookies ≡ Some cookies → cookies.jar ≡ [] →
        InTurn title state moves rules first made last → HasKeptSet cookies (cookies_set rules made) last.cookies }
    ensures value { (rules : Rules) (made : List Given) (key : CookieKey) →
        latest is_same_cookie key (jar (cookies_set rules made)) ≡ latest is_same_cookie key (cookies_set rules made) }
    ensures order { (rules : Rules) (made : List Given) →
        map (λ cookie. cookie.0) (jar (cookies_set rules made)) ≡ firsts is_same_cookie (map (λ cookie. cookie.0) (cookies_set rules made)) }
    ensures elsewhere { (hook : AskedHook) (flow : Flow) (rules new_rules : Rules) (files new_files : FilesMeaning) (old new : Movers _) (answer : Answer) →
        hook ≢ hooks.ResponseHead → ChainAnswers title state moves hook flow rules old files new_rules new new_files answer → new.cookies ≡ old.cookies }
    ensures none { (rules : Rules) (first last : Movers _) (made : List Given) → first.cookies ≡ None → InTurn title state moves rules first made last →
        last.cookies ≡ None }
{}

/// Over any number of answers one behind the other, what a chain keeps is what comes of all authorizations that were shown by requests whose heads were asked
/// about and that no block rule, map local rule or failure of map remote answered, each as the rules in front leave it, in the order of the asks: so each
/// host has the value that it was shown last, whether the filter held or not. The filter stays. At any other hook nothing is kept or let go.
pub fn a_chain_keeps_what_all_requests_showed(addon: &Box<dyn Addon>)
    ensures kept { (rules : Rules) (first last : Movers _) (auth : StickyAuth) (made : List Given) → first.auth ≡ Some auth → auth.shown ≡ [] →
        InTurn title state moves rules first made last → HasKeptShown auth (all_shown rules made) last.auth }
    ensures value { (rules : Rules) (made : List Given) (host : List ℕ) →
        value_for host (authorizations (all_shown rules made)) ≡ value_for host (all_shown rules made) }
    ensures elsewhere { (hook : AskedHook) (flow : Flow) (rules new_rules : Rules) (files new_files : FilesMeaning) (old new : Movers _) (answer : Answer) →
        hook ≢ hooks.RequestHead → ChainAnswers title state moves hook flow rules old files new_rules new new_files answer → new.auth ≡ old.auth }
    ensures none { (rules : Rules) (first last : Movers _) (made : List Given) → first.auth ≡ None → InTurn title state moves rules first made last →
        last.auth ≡ None }
{}

/// Where a request, a response or a WebSocket's message is whole, all parts let the flow go on, and the filter of the flows that wait holds on the
/// flow as they left it, the answer waits with that draft. An answer waits nowhere else, and with no other draft.
pub fn a_flow_that_the_filter_takes_waits(addon: &Box<dyn Addon>)
    ensures waits { (hook : AskedHook) (flow : Flow) (rules new_rules : Rules) (files new_files : FilesMeaning) (old new : Movers _) (answer : Answer) (filter : Expression) →
        (given : ChainAnswers title state moves hook flow rules old files new_rules new new_files answer) →
        may_wait hook ≡ true → given.end.verdict ≡ verdicts.Go → intercept_of rules ≡ Some filter → holds given.end.flow filter ≡ true → answer ≡ answers.Wait given.end }
    ensures only { (hook : AskedHook) (flow : Flow) (rules new_rules : Rules) (files new_files : FilesMeaning) (old new : Movers _) (answer : Answer) (draft : Draft) →
        (given : ChainAnswers title state moves hook flow rules old files new_rules new new_files answer) → answer ≡ answers.Wait draft →
        (draft ≡ given.end) × (may_wait hook ≡ true) × (draft.verdict ≡ verdicts.Go)
        × (filter : Expression) × (intercept_of rules ≡ Some filter) × (holds draft.flow filter ≡ true) }
{}

/// A chain without a filter of the flows that wait lets nothing wait; and an answer leaves the filter as it is.
pub fn a_chain_without_a_filter_lets_nothing_wait(addon: &Box<dyn Addon>)
    ensures nothing { (hook : AskedHook) (flow : Flow) (rules new_rules : Rules) (files new_files : FilesMeaning) (old new : Movers _) (answer : Answer) (draft : Draft) →
        rules.intercept ≡ None → ChainAnswers title state moves hook flow rules old files new_rules new new_files answer → answer ≢ answers.Wait draft }
    ensures stays { (hook : AskedHook) (flow : Flow) (rules new_rules : Rules) (files new_files : FilesMeaning) (old new : Movers _) (answer : Answer) →
        ChainAnswers title state moves hook flow rules old files new_rules new new_files answer → new_rules.intercept ≡ rules.intercept }
{}

/// Where recorded flows answer, or flows wait by a filter, no answer allows a size above which a body is streamed, whatever the option and the addons say. So it
/// is of any number of answers one behind the other.
pub fn nothing_is_streamed_where_flows_are_recorded_or_wait(addon: &Box<dyn Addon>)
    ensures recorded { (hook : AskedHook) (flow : Flow) (rules new_rules : Rules) (files new_files : FilesMeaning) (old new : Movers _) (answer : Answer) →
        old.replay ≢ None → ChainAnswers title state moves hook flow rules old files new_rules new new_files answer → size_of answer ≡ None }
    ensures waiting { (hook : AskedHook) (flow : Flow) (rules new_rules : Rules) (files new_files : FilesMeaning) (old new : Movers _) (answer : Answer) →
        rules.intercept ≢ None → ChainAnswers title state moves hook flow rules old files new_rules new new_files answer → size_of answer ≡ None }
    ensures run { (rules : Rules) (first last : Movers _) (made : List Given) → (rules.intercept ≢ None) ⊎ (first.replay ≢ None) →
        InTurn title state moves rules first made last → AllAllowNone made }
{}

/// Everywhere else an answer that goes on allows the size that the draft had when all parts were asked: the one that an addon set stands (`stands`), and where
/// no addon sets one it is that of the option (`option`).
pub fn an_addons_size_stands(addon: &Box<dyn Addon>)
    ensures stands { (hook : AskedHook) (flow goes : Flow) (rules new_rules : Rules) (files new_files : FilesMeaning) (old new : Movers _) (size : Option ℕ) →
        (given : ChainAnswers title state moves hook flow rules old files new_rules new new_files (answers.Reply (replies.Go goes size))) →
        rules.intercept ≡ None → old.replay ≡ None → size ≡ given.left.stream }
    ensures option { (hook : AskedHook) (flow goes : Flow) (rules new_rules : Rules) (files new_files : FilesMeaning) (old new : Movers _) (size : Option ℕ) →
        ChainAnswers title state moves hook flow rules old files new_rules new new_files (answers.Reply (replies.Go goes size)) →
        rules.intercept ≡ None → old.replay ≡ None → AllKeepSizes moves old.addons → size ≡ rules.stream }
{}

/// Of two addons the second is asked about the draft that the first left.
pub fn addons_see_what_those_before_did(addon: &Box<dyn Addon>)
    ensures { (hook : AskedHook) (draft end : Draft) (one other : _) (news : List _) → AddonsMove title state moves hook draft (one ∷ other ∷ []) end news →
        TwoInTurn title state moves hook draft one other end news }
{}

/// A flow counter changes no draft, and its count goes up by one at each request's head.
pub fn a_flow_counter_changes_no_draft()
    ensures keeps { KeepsDrafts counts }
    ensures sizes { KeepsSizes counts }
    ensures counts { (hook : AskedHook) (count : ℕ) (draft after : Draft) (new : List ℕ) → counts hook (count ∷ []) draft new after → new ≡ counted hook count ∷ [] }
{}
