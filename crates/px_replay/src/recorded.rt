//! The recorded list, and what it answers.
ghost use Rattle.std.specs.Prelude.{◌≡◌, ◌<◌, ◌++◌, Some, map, length, slice_get, IfOk, OnOk, OnErr};
ghost use Rattle.std.specs.List.{position};
ghost use Rattle.px_replay.specs.Key.{key_of};
ghost use Rattle.px_replay.specs.Left.{IsAnswerTo, left};
ghost use Rattle.px_replay.specs.Replaying.{IsAnswer, after, got, is_used, may_answer, moment_of, recording, recordings, started, use_at};

use crate::index::{give_unless, index_of};
use crate::places::Places;
use crate::{Extra, KeyOptions, MatchKey, Replay};
use px_message::{Flow, Request, Response, Shared, Times};
use px_text::NoMemory;
use std::alloc::Global;
use std::collections::BTreeMap;
use std::marker::Model;

/// A recorded flow: the key of its request, its moment, its response, and whether an ask got it.
#[derive(Debug, Drop)]
pub struct Recording {
    pub(crate) key: MatchKey,
    moment: u64,
    response: Shared<Response>,
    used: bool,
}

/// Recorded flows that answer requests (mitmproxy's option `server_replay`). In a contract they are a `Replaying`.
#[derive(Debug, Drop)]
pub struct Recorded {
    alloc: Global,
    how: KeyOptions,
    reuse: bool,
    extra: Extra,
    recordings: Vec<Recording>,
    // The places that are left of each key.
    index: BTreeMap<MatchKey, Places>,
}

impl Model for Recorded {
    ghost use Rattle.px_replay.specs.Left.{IsIndex, places_from};
    ghost use Rattle.px_replay.specs.Replaying.{Replaying, may_answer};

    ghost Value = { Replaying };

    ghost view = { λ r. record { how = r.how; reuse = r.reuse; extra = r.extra; recordings = r.recordings.items } };

    ghost invariant = { λ r. IsIndex ⟦<MatchKey as Ord>⟧.cmp r.index (λ key. places_from 0 (may_answer r.reuse key) r.recordings.items) };
}

impl Recorded {
    /// The flows that have a response, in their order, none of which answered yet. With `reuse` each may answer again and again.
    /// What no flow answers, `extra` does.
    pub fn new(
        alloc: Global,
        flows: Vec<Flow>,
        how: KeyOptions,
        reuse: bool,
        extra: Extra,
    ) -> Result<Recorded, NoMemory>
        ensures { IfOk result (λ made. made ≡ started how reuse extra flows.items) }
    {
        let recordings = recordings_of(alloc, flows, &how)?;
        let index = index_of(alloc, recordings.as_slice())?;
        Ok(Recorded {
            alloc,
            how,
            reuse,
            extra,
            recordings,
            index,
        })
    }

    /// How many flows may answer.
    pub fn len(&self) -> usize
        ensures { result ≡ length self.now.recordings }
    {
        self.recordings.len()
    }

    /// The response at the least place whose key is the request's and that no earlier ask got; with reuse the least place whose
    /// key is the request's. Where there is none, the extra answer. The place counts as used from then on. After
    /// `NoMemory` nothing has changed.
    pub fn answer(&mut self, request: &Request) -> Result<Replay, NoMemory>
        ensures answer { IfOk result (IsAnswer self.old request.now) }
        ensures after { IfOk result (λ replay. self.new ≡ after self.old (got replay)) }
        ensures unchanged { OnErr result (self.new ≡ self.old) }
    {
        let key = self.key_of(request)?;
        self.answer_to(&key)
    }

    // The key of the request.
    fn key_of(&self, request: &Request) -> Result<MatchKey, NoMemory>
        ensures { IfOk result (λ key. key ≡ key_of self.now.how request.now) }
    {
        MatchKey::of(self.alloc, request, &self.how)
    }

    // The answer to a request with that key.
    fn answer_to(&mut self, key: &MatchKey) -> Result<Replay, NoMemory>
        ensures answer { IfOk result (IsAnswerTo self.old key.now) }
        ensures after { IfOk result (λ replay. self.new ≡ after self.old (got replay)) }
        ensures unchanged { OnErr result (self.new ≡ self.old) }
    {
        match self.first_left(key) {
            None => Ok(Replay::Extra(self.extra)),
            Some(place) => Ok(Replay::Found(place, self.give(key, place)?)),
        }
    }

    /// The places of the flows with that key that no earlier ask got, or with reuse of all flows with that key, in rising order;
    /// none of a key that no flow has. It takes no memory.
    pub fn left(&self, key: &MatchKey) -> &[usize]
        ensures left { result.now ≡ left self.now key.now }
    {
        match self.index.get(key) {
            Some(places) => places.left(),
            None => &[],
        }
    }

    // The first of them.
    fn first_left(&self, key: &MatchKey) -> Option<usize>
        ensures { result ≡ position (may_answer self.now.reuse key.now) self.now.recordings }
    {
        self.left(key).first().copied()
    }

    // A copy of the response at that place, the first that is left of the key. It counts as used from then on.
    fn give(&mut self, key: &MatchKey, place: usize) -> Result<Response, NoMemory>
        requires first { position (may_answer self.old.reuse key.now) self.old.recordings ≡ Some place }
        requires within { place < length self.old.recordings }
        ensures response { IfOk result (λ response. slice_get (map (λ r. r.response) self.old.recordings) place ≡ Some response) }
        ensures after { OnOk result (self.new ≡ after self.old (Some place)) }
        ensures unchanged { OnErr result (self.new ≡ self.old) }
    {
        let response = self.response_at(place)?;
        self.mark(key, place);
        Ok(response)
    }

    // A copy of the response at that place.
    fn response_at(&self, place: usize) -> Result<Response, NoMemory>
        requires { place < length self.now.recordings }
        ensures { IfOk result (λ response. slice_get (map (λ r. r.response) self.now.recordings) place ≡ Some response) }
    {
        self.recordings[place].response.get().try_clone()
    }

    // The place, the first that is left of the key, counts as used from then on. It takes no memory.
    fn mark(&mut self, key: &MatchKey, place: usize)
        requires first { position (may_answer self.old.reuse key.now) self.old.recordings ≡ Some place }
        requires within { place < length self.old.recordings }
        ensures after { self.new ≡ after self.old (Some place) }
    {
        use_place(&mut self.recordings, place);
        give_unless(self.reuse, &mut self.index, key);
    }

    /// The moment of the recorded flow at that place, in microseconds since 1970: when its response began, or where that is not known when its
    /// request began.
    pub fn moment(&self, place: usize) -> u64
        requires { place < length self.now.recordings }
        ensures { slice_get (map (λ r. r.moment) self.now.recordings) place ≡ Some result }
    {
        self.recordings[place].moment
    }

    /// Whether an ask got that place. It takes no memory.
    pub fn used(&self, place: usize) -> bool
        ensures { result ≡ is_used place self.now.recordings }
    {
        match self.recordings.get(place) {
            Some(recording) => recording.used,
            None => false,
        }
    }
}

// The flows that have a response, with the keys of their requests. Each flow is dropped before the next one is looked at.
fn recordings_of(
    alloc: Global,
    flows: Vec<Flow>,
    how: &KeyOptions,
) -> Result<Vec<Recording>, NoMemory>
    ensures { IfOk result (λ made. made.items ≡ recordings how.now flows.items) }
{
    let mut made = Vec::new(alloc);
    for flow in flows {
        add(alloc, &mut made, &flow, how)?;
    }
    Ok(made)
}

// Adds the flow, if it has a response.
fn add(
    alloc: Global,
    made: &mut Vec<Recording>,
    flow: &Flow,
    how: &KeyOptions,
) -> Result<(), NoMemory>
    ensures { OnOk result (made.new.items ≡ made.old.items ++ recording how.now flow.now) }
{
    let Some(response) = &flow.response else {
        return Ok(());
    };
    let key = MatchKey::of(alloc, flow.request.get(), how)?;
    made.push(Recording {
        key,
        moment: moment_of(&flow.times),
        response: response.try_clone()?,
        used: false,
    })?;
    Ok(())
}

// The moment that a recorded flow is taken to be of.
fn moment_of(times: &Times) -> u64
    ensures { result ≡ moment_of times.now }
{
    times.response_start.unwrap_or(times.request_start)
}

// Marks the place as used.
fn use_place(recordings: &mut Vec<Recording>, place: usize)
    requires { place < length recordings.old.items }
    ensures { recordings.new.items ≡ use_at place recordings.old.items }
{
    recordings[place].used = true;
}
