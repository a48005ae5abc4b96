//! Laws of server replay. Each function does nothing; what it ensures is the law.
ghost use Rattle.std.specs.Prelude.{◌≡◌, ◌↔◌, ℕ, ◌<◌, Bool, true, List, length, map};
ghost use Rattle.px_message.specs.declared.flow.Flow.{Flow};
ghost use Rattle.px_message.specs.declared.request.Request.{Request};
ghost use Rattle.px_replay.specs.Agree.{Agree};
ghost use Rattle.px_replay.specs.Key.{key_of};
ghost use Rattle.px_replay.specs.Replayed.{AreReplayed, after_all, is_given, keys_in, places};
ghost use Rattle.px_replay.specs.Replaying.{is_used, recordings, started};
ghost use Rattle.px_replay.specs.Same.{is_same_key};
ghost use Rattle.px_replay.specs.declared.key.MatchKey.{MatchKey};
ghost use Rattle.px_replay.specs.declared.options.KeyOptions.{KeyOptions};
ghost use Rattle.px_replay.specs.declared.replay.Extra.{Extra};

/// Comparing keys part by part tells exactly whether they are equal.
pub fn keys_are_compared_whole()
    ensures { (a b : MatchKey) → (is_same_key a b ≡ true) ↔ (a ≡ b) }
{}

/// Two requests have equal keys exactly where they agree in what counts. So they differ at most in what the options ignore, in
/// their versions and trailers, and in fields that are not named; and where they differ in nothing else, their keys are equal.
pub fn equal_keys_agree_in_what_counts()
    ensures { (how : KeyOptions) (a b : Request) → (key_of how a ≡ key_of how b) ↔ Agree how a b }
{}

/// Whatever is asked, each ask gets the least place with its key that no ask before it got; with reuse, the least place with its
/// key.
pub fn an_ask_gets_the_least_place()
    ensures { (how : KeyOptions) (reuse : Bool) (extra : Extra) (flows : List Flow) (asked : List Request) →
        AreReplayed reuse (keys_in (started how reuse extra flows)) (map (key_of how) asked) (places (started how reuse extra flows) asked) }
{}

/// Whatever was asked, a place of the recorded list counts as used exactly where an ask got it, with reuse too.
pub fn a_place_is_used_where_an_ask_got_it()
    ensures { (how : KeyOptions) (reuse : Bool) (extra : Extra) (flows : List Flow) (asked : List Request) (place : ℕ) →
        place < length (recordings how flows) → is_used place (after_all (started how reuse extra flows) asked).recordings
        ≡ is_given place (places (started how reuse extra flows) asked) }
{}
