//! The chain of rules, recorded flows and addons, which answers hooks.
//!
//! Both loops ask all that they go over, and each turn begins with the verdict: behind one that is not Go the turn does nothing.
ghost use Rattle.std.specs.Prelude.{◌≡◌, true, false, None, is_none, MatchOption, OnErr, OnOk};
ghost use Rattle.px_addons.specs.Chain.{AddonMoves, AddonsMove, IsFirstOfName, PartFails, PartInTurn, PartsFail, PartsMove, allowed_size, is_going, may_stream, movers_of};
ghost use Rattle.px_addons.specs.Moving.{SameMoves};
ghost use Rattle.px_addons.specs.Quiet.{AllKeepDrafts, NoRules};
ghost use Rattle.px_core.specs.Addons.{has_name_by};
ghost use Rattle.px_core.specs.Answers.{files_meaning};

use crate::parts::parts;
use crate::replaying::ask_replay;
use crate::sticking::{authorize, keep_cookies, send_cookies};
use crate::{Addon, Part, Rules};
use px_core::{Answer, Answerer, Draft, Kind, NoSuchAddon, Verdict};
use px_event::Hook;
use px_message::Flow;
use px_outside::Files;
use px_refresh::{StickyAuth, StickyCookies};
use px_replay::Recorded;
use px_text::NoMemory;
use std::alloc::Global;

/// Rules, recorded flows and addons, which answer hooks: at each hook its parts in their order, until a verdict that is not Go ends it
/// (`specs/Chain.antt`, `ChainAnswers`). The draft begins with the flow as it is asked about, the verdict Go and the rules' `stream`. Where a
/// request, a response or a WebSocket's message is whole, the parts let the flow go on, and the rules' `intercept` holds on the flow as they left
/// it, the answer waits with the draft (`answer_by`). Files are read for map local rules that match the flow, and for nothing else.
///
/// The answer allows the size that the draft has then, above which a body is streamed: that of the rules, or the one that an addon set. With a recorded list, or
/// with the rules' `intercept`, it allows none, whatever an addon set (`allowed`).
///
/// The rules never change. The recorded list is none of them here, since each whole request is asked of it and may use a place; nor are the kept
/// cookies, which each response's head may change, and the kept authorizations, which each request's head may.
#[derive(Drop)]
pub struct Chain {
    rules: Rules,
    replay: Option<Recorded>,
    cookies: Option<StickyCookies>,
    auth: Option<StickyAuth>,
    addons: Vec<Box<dyn Addon>>,
}

impl Chain {
    /// A chain of these rules and addons, the addons in the order of their list. Two may have one name. The recorded list of the rules, their cookies and
    /// their authorizations are taken out of them. Without rules, these three and filter of what waits, and where each addon leaves every draft as it is, it
    /// changes nothing.
    pub fn new(rules: Rules, addons: Vec<Box<dyn Addon>>) -> Chain
        ensures rules { result.rules ≡ record rules { replay = None; cookies = None; auth = None } }
        ensures replay { result.replay ≡ rules.replay }
        ensures cookies { result.cookies ≡ rules.cookies }
        ensures auth { result.auth ≡ rules.auth }
        ensures addons { result.addons ≡ addons }
        ensures quiet { NoRules rules → AllKeepDrafts moves addons.items → ⟦<Chain as Kind>⟧.is_so result }
    {
        let mut rules = rules;
        let replay = rules.replay.take();
        let cookies = rules.cookies.take();
        let auth = rules.auth.take();
        Chain {
            rules,
            replay,
            cookies,
            auth,
            addons,
        }
    }
}

impl Answerer for Chain {
    ghost use Rattle.std.specs.Prelude.{◌≡◌, map};
    ghost use Rattle.px_addons.specs.Chain.{ChainAnswers, ChainDrops, ChainFails, movers_of};

    ghost State = { Self };

    ghost state = { λ c. c };

    ghost answers = { λ hook flow old old_files new new_files answer.
        ChainAnswers (λ b. (Addon-box b).title b.value) (λ b. (Addon-box b).state b.value) (λ b. (Addon-box b).moves b.value)
        hook flow old.rules (movers_of old.replay old.cookies old.auth old.addons.items) old_files new.rules (movers_of new.replay new.cookies new.auth new.addons.items) new_files answer };

    ghost fails = { λ hook flow old old_files new_files.
        ChainFails (λ b. (Addon-box b).title b.value) (λ b. (Addon-box b).state b.value) (λ b. (Addon-box b).moves b.value)
        hook flow old.rules (movers_of old.replay old.cookies old.auth old.addons.items) old_files new_files };

    ghost names = { λ c. map (λ b. (Addon-box b).title b.value) c.addons.items };

    ghost drops = { λ name old new. ChainDrops (λ b. (Addon-box b).title b.value) name
        old.rules (movers_of old.replay old.cookies old.auth old.addons.items) new.rules (movers_of new.replay new.cookies new.auth new.addons.items) };

    fn answer<F: Files>(
        &mut self,
        hook: Hook,
        flow: Flow,
        files: &mut F,
    ) -> Result<Answer, NoMemory> {
        let alloc = *self.addons.allocator();
        let streams = may_stream(&self.rules, &self.replay);
        let mut draft = Draft {
            flow,
            stream: self.rules.stream,
            verdict: Verdict::Go,
        };
        match ask_parts(
            alloc,
            &self.rules,
            &mut self.replay,
            &mut self.cookies,
            &mut self.auth,
            &mut self.addons,
            parts(hook),
            hook,
            &mut draft,
            files,
        ) {
            Ok(()) => {
                draft.stream = allowed_size(streams, draft.stream);
                self.rules.answer_by(hook, draft)
            }
            Err(e) => {
                drop(draft);
                Err(e)
            }
        }
    }

    fn drop_addon(&mut self, name: &str) -> Result<(), NoSuchAddon> {
        match place_of(&self.addons, name) {
            None => Err(NoSuchAddon),
            Some(place) => {
                drop(self.addons.remove(place));
                Ok(())
            }
        }
    }
}

// A chain that changes nothing stays one, and each of its answers lets the flow go on unchanged.
impl Kind for Chain {
    ghost use Rattle.px_addons.specs.Chain.{ChainAnswers, movers_of};
    ghost use Rattle.px_addons.specs.Quiet.{ChangesNothing, goes_on_unchanged};
    ghost use Rattle.px_addons.specs.QuietLaws.{answers_unchanged, stays_quiet};

    ghost State = { Self };

    ghost answers = { λ hook flow old old_files new new_files answer.
        ChainAnswers (λ b. (Addon-box b).title b.value) (λ b. (Addon-box b).state b.value) (λ b. (Addon-box b).moves b.value)
        hook flow old.rules (movers_of old.replay old.cookies old.auth old.addons.items) old_files new.rules (movers_of new.replay new.cookies new.auth new.addons.items) new_files answer };

    ghost is_so = { λ c. ChangesNothing (λ b. (Addon-box b).moves b.value) c.rules (movers_of c.replay c.cookies c.auth c.addons.items) };

    ghost gives = { goes_on_unchanged };

    ghost keeps = { record {
      stays = λ hook flow old old_files new new_files given quiet by.
          stays_quiet (λ b. (Addon-box b).title b.value) (λ b. (Addon-box b).state b.value) (λ b. (Addon-box b).moves b.value)
          hook flow old.rules (movers_of old.replay old.cookies old.auth old.addons.items) old_files new.rules (movers_of new.replay new.cookies new.auth new.addons.items) new_files given quiet by;
      gives_so = λ hook flow old old_files new new_files given quiet by.
          answers_unchanged (λ b. (Addon-box b).title b.value) (λ b. (Addon-box b).state b.value) (λ b. (Addon-box b).moves b.value)
          hook flow old.rules (movers_of old.replay old.cookies old.auth old.addons.items) old_files new.rules (movers_of new.replay new.cookies new.auth new.addons.items) new_files given quiet by;
    } };
}

// Whether a body may be streamed at all.
fn may_stream(rules: &Rules, replay: &Option<Recorded>) -> bool
    ensures { result ≡ may_stream rules.now.intercept replay.now }
{
    match &rules.intercept {
        None => is_absent(replay),
        Some(_) => false,
    }
}

// Whether no recorded flow answers.
fn is_absent(replay: &Option<Recorded>) -> bool
    ensures { result ≡ is_none replay.now }
{
    replay.is_none()
}

// The size that is allowed, of the one that a draft has.
fn allowed_size(streams: bool, size: Option<u64>) -> Option<u64>
    ensures { result ≡ allowed_size streams size }
{
    if streams { size } else { None }
}

// Asks the parts in their order.
fn ask_parts<F: Files>(
    alloc: Global,
    rules: &Rules,
    replay: &mut Option<Recorded>,
    cookies: &mut Option<StickyCookies>,
    auth: &mut Option<StickyAuth>,
    addons: &mut [Box<dyn Addon>],
    parts: &[Part],
    hook: Hook,
    draft: &mut Draft,
    files: &mut F,
) -> Result<(), NoMemory>
    ensures moved { OnOk result (PartsMove title state moves rules.now hook parts.now
        draft.old (movers_of replay.old cookies.old auth.old addons.old) (files_meaning F.contents F.calls F.misses F.faults F.losses files.old)
        draft.new (movers_of replay.new cookies.new auth.new addons.new) (files_meaning F.contents F.calls F.misses F.faults F.losses files.new)) }
    ensures failed { OnErr result (PartsFail title state moves rules.now hook parts.now draft.old (movers_of replay.old cookies.old auth.old addons.old)
        (files_meaning F.contents F.calls F.misses F.faults F.losses files.old)
        (files_meaning F.contents F.calls F.misses F.faults F.losses files.new)) }
{
    for i in 0..parts.len() {
        ask_part(
            alloc, rules, replay, cookies, auth, addons, parts[i], hook, draft, files,
        )?;
    }
    Ok(())
}

// Asks one part, in its turn.
fn ask_part<F: Files>(
    alloc: Global,
    rules: &Rules,
    replay: &mut Option<Recorded>,
    cookies: &mut Option<StickyCookies>,
    auth: &mut Option<StickyAuth>,
    addons: &mut [Box<dyn Addon>],
    part: Part,
    hook: Hook,
    draft: &mut Draft,
    files: &mut F,
) -> Result<(), NoMemory>
    ensures moved { OnOk result (PartInTurn title state moves rules.now hook part
        draft.old (movers_of replay.old cookies.old auth.old addons.old) (files_meaning F.contents F.calls F.misses F.faults F.losses files.old)
        draft.new (movers_of replay.new cookies.new auth.new addons.new) (files_meaning F.contents F.calls F.misses F.faults F.losses files.new)) }
    ensures failed { OnErr result ((is_going draft.old.verdict ≡ true) × PartFails rules.now part draft.old
        (files_meaning F.contents F.calls F.misses F.faults F.losses files.old)
        (files_meaning F.contents F.calls F.misses F.faults F.losses files.new)) }
{
    if !is_going(&draft.verdict) {
        return Ok(());
    }
    match part {
        Part::Block => rules.ask_block(alloc, draft),
        Part::MapLocal => rules.ask_map_local(draft, files),
        Part::MapRemote => rules.ask_map_remote(alloc, draft),
        Part::ModifyHeaders => rules.modify_headers(hook, &mut draft.flow),
        Part::Anticache => rules.put_uncached(alloc, &mut draft.flow),
        Part::Anticomp => rules.put_uncoded(alloc, &mut draft.flow),
        Part::StickyCookies => send_cookies(cookies, &mut draft.flow),
        Part::StickyAuth => authorize(auth, draft),
        Part::KeepCookies => keep_cookies(cookies, draft),
        Part::ServerReplay => ask_replay(alloc, rules.refresh, replay, draft),
        Part::ModifyBody => rules.modify_body(hook, &mut draft.flow),
        Part::Addons => ask_addons(addons, hook, draft),
    }
}

// Asks the addons in their order.
fn ask_addons(addons: &mut [Box<dyn Addon>], hook: Hook, draft: &mut Draft) -> Result<(), NoMemory>
    ensures { OnOk result (AddonsMove title state moves hook draft.old addons.old draft.new addons.new) }
{
    for i in 0..addons.len() {
        ask_addon(&mut addons[i], hook, draft)?;
    }
    Ok(())
}

// Asks one addon, in its turn.
fn ask_addon(addon: &mut Box<dyn Addon>, hook: Hook, draft: &mut Draft) -> Result<(), NoMemory>
    ensures { OnOk result (AddonMoves title state moves hook draft.old addon.old draft.new addon.new) }
{
    if !is_going(&draft.verdict) {
        return Ok(());
    }
    ask(addon, hook, draft)
}

// Asks the addon.
fn ask(addon: &mut Box<dyn Addon>, hook: Hook, draft: &mut Draft) -> Result<(), NoMemory>
    ensures title { title addon.new ≡ title addon.old }
    ensures same { SameMoves (moves addon.old) (moves addon.new) }
    ensures moves { OnOk result (moves addon.old hook (state addon.old) draft.old (state addon.new) draft.new) }
{
    addon.on(hook, draft)
}

// Where the first addon of this name is.
fn place_of(addons: &[Box<dyn Addon>], name: &str) -> Option<usize>
    ensures { MatchOption result (has_name_by title name.now addons.now ≡ false) (λ place. IsFirstOfName title name.now addons.now place) }
{
    let Some((addon, others)) = addons.split_first() else {
        return None;
    };
    if addon.name() == name {
        return Some(0);
    }
    match place_of(others, name) {
        None => None,
        Some(place) => Some(place + 1),
    }
}

// Whether the order goes on behind this verdict.
pub(crate) fn is_going(verdict: &Verdict) -> bool
    ensures { result ≡ is_going verdict.now }
{
    matches!(verdict, Verdict::Go)
}
