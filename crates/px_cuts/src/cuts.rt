//! However the network cuts the bytes into pieces, what is due is the same. Each law is the contract of a function that
//! does nothing.
//!
//! In one step it is the same to the last moment, with a premise on the replies that are used behind the pieces: none came in
//! an earlier step. A piece that waits is worked off in the later of its own step and that of the last reply; so one half of
//! a piece may have another moment than the whole had, where a reply in between came before both. In a run none did: a
//! reply that was there was used before the next piece came. With no premise on steps it is the same but for the moments
//! inside flows.
//!
//! A cut of the client's bytes never shows. Nor does one of a server's, but where the first half ends a response behind which the side is
//! kept, and bytes follow: in one piece with the response they are stray, and the side is closed; in the next one they are heard
//! behind the request that has gone to the kept side by then (`MayBeCut`). So of any number of pieces, and of whole streams, the premise is that
//! nothing stray stands behind a response (`NoneStrays`, `NothingStrays`): with no piece of either stream, where it is heard. It is on both
//! streams, since pieces that are joined may have something stray where none had it alone.
//!
//! A request that is streamed is sent on before it is whole, so of two bytes that come at once, one of the client and one of a server, the
//! first may decide. Neighbouring pieces of two sides may be swapped where no request goes up: beside one that does, a refused chunk of the
//! client before a response is an error text, and behind that response it is nothing. And neither may be of a side that is parked there
//! (`IsNotParked`): a byte of it ends its keeping where it comes before the client's request, and begins the response to that where it comes
//! behind. No more is needed: where nothing is found no response is whole, so none stands before either piece.
ghost use Rattle.std.specs.Prelude.{◌≡◌, ℕ, false, List, [], ◌∷◌, ◌++◌, map};
ghost use Rattle.std.specs.List.{flat_map};
ghost use Rattle.px_event.specs.Alike.{MayCome};
ghost use Rattle.px_event.specs.Chain.{Stamp, Stamped, walk_from, due};
ghost use Rattle.px_event.specs.Trace.{is_same_side};
ghost use Rattle.px_event.specs.declared.event.Event.{Event as Heard};
ghost use Rattle.px_event.specs.declared.event.Event.TheVariants.{Piece as HeardPiece};
ghost use Rattle.px_event.specs.declared.reply.Reply.{Reply as Answer};
ghost use Rattle.px_event.specs.declared.side.Side.{Side as Peer};
ghost use Rattle.px_chain.specs.Chain.{begin, http_chain, IsOnward};
ghost use Rattle.px_cuts.specs.Cuts.{AllowNoSize, all_kept, as_piece, EqualButForMoments, IsNoEarlier, IsNotParked, MayBeCut, MayBeHeard, MayStand, NoneGoesUp, NoneStrays, NothingStrays, SameStreams, piece_at, values_of};
ghost use Rattle.px_chain.specs.Sights.{Standing};
ghost use Rattle.px_chain.specs.Silent.{ParkedBelow};
ghost use Rattle.px_chain.specs.Stages.{At, Stage, idle};
ghost use Rattle.px_exchange.specs.declared.terms.Terms.{Terms as Made};

/// A conversation may begin, over no events, without a parked side; or with one whose server was connected before and so counts
/// among those that were dialled.
pub fn conversations_may_begin()
    ensures { (made : Made) (at : At) → ParkedBelow at.parked at.dials → MayStand made (begin (idle at)) [] }
{}

/// However the network cuts the bytes of a side into pieces, and in whatever steps they come, what is due is the same but
/// for the moments inside flows. The events are the same with all neighbouring pieces of a side joined, and the replies are
/// the same in the same order. In neither stream something stray stands behind a response.
pub fn same_streams_owe_the_same()
    ensures { (onward : Stage → Stage) (made : Made) (start : Standing) (these those : List (Stamped Heard)) (replies answers : List (Stamped Answer)) →
        IsOnward onward → MayStand made start [] → SameStreams these those → values_of replies ≡ values_of answers →
        NothingStrays onward made start replies [] these → NothingStrays onward made start answers [] those →
        EqualButForMoments (due (http_chain onward made) start these replies) (due (http_chain onward made) start those answers) }
{}

/// A piece of a side in two, cut anywhere but right behind a response whose side is kept, changes nothing of what is due: in one step
/// exactly, and in any steps but for the moments inside flows. One of the client may be cut anywhere.
pub fn cut_pieces_owe_the_same()
    ensures exactly { (onward : Stage → Stage) (made : Made) (start : Standing) (before after : List (Stamped Heard)) (replies : List (Stamped Answer))
        (stamp : Stamp) (side : Peer) (bytes more : List ℕ) → IsOnward onward → MayStand made start [] →
        MayBeCut made (walk_from (http_chain onward made) start before replies) side bytes more →
        MayCome (IsNoEarlier stamp) (walk_from (http_chain onward made) start before replies).unused →
        due (http_chain onward made) start (before ++ piece_at stamp side bytes ∷ piece_at stamp side more ∷ after) replies
        ≡ due (http_chain onward made) start (before ++ piece_at stamp side (bytes ++ more) ∷ after) replies }
    ensures at_any_moments { (onward : Stage → Stage) (made : Made) (start : Standing) (before after : List (Stamped Heard)) (replies : List (Stamped Answer))
        (stamp first second : Stamp) (side : Peer) (bytes more : List ℕ) → IsOnward onward → MayStand made start [] →
        MayBeCut made (walk_from (http_chain onward made) start before replies) side bytes more →
        EqualButForMoments (due (http_chain onward made) start (before ++ piece_at first side bytes ∷ piece_at second side more ∷ after) replies)
        (due (http_chain onward made) start (before ++ piece_at stamp side (bytes ++ more) ∷ after) replies) }
{}

/// However many pieces of a side come one behind the other, what is due is that of all their bytes in one piece, where with them nothing stray
/// stands behind a response: in one step exactly, and in any steps but for the moments inside flows.
pub fn joined_pieces_owe_the_same()
    ensures exactly { (onward : Stage → Stage) (made : Made) (start : Standing) (before after : List (Stamped Heard)) (replies : List (Stamped Answer))
        (stamp : Stamp) (side : Peer) (first : List ℕ) (rest : List (List ℕ)) → IsOnward onward → MayStand made start [] →
        NoneStrays made (walk_from (http_chain onward made) start before replies) (HeardPiece side (flat_map (λ bytes. bytes) (first ∷ rest))) →
        MayCome (IsNoEarlier stamp) (walk_from (http_chain onward made) start before replies).unused →
        due (http_chain onward made) start (before ++ (map (piece_at stamp side) (first ∷ rest) ++ after)) replies
        ≡ due (http_chain onward made) start (before ++ piece_at stamp side (flat_map (λ bytes. bytes) (first ∷ rest)) ∷ after) replies }
    ensures at_any_moments { (onward : Stage → Stage) (made : Made) (start : Standing) (before after : List (Stamped Heard)) (replies : List (Stamped Answer))
        (stamp : Stamp) (side : Peer) (first : Stamped (List ℕ)) (rest : List (Stamped (List ℕ))) → IsOnward onward → MayStand made start [] →
        NoneStrays made (walk_from (http_chain onward made) start before replies) (HeardPiece side (flat_map (λ bytes. bytes.value) (first ∷ rest))) →
        EqualButForMoments (due (http_chain onward made) start (before ++ (map (as_piece side) (first ∷ rest) ++ after)) replies)
        (due (http_chain onward made) start (before ++ piece_at stamp side (flat_map (λ bytes. bytes.value) (first ∷ rest)) ∷ after) replies) }
{}

/// Neighbouring pieces of two sides the other way round change nothing of what is due where no request goes up and neither side is parked, in
/// one step exactly, and in any steps but for the moments inside flows. Both sides may be heard by then: a side is the client's, or
/// that of a server that was dialled. In a run that is so: a server is heard once it is connected. Before its dial its bytes are not
/// heard at all.
pub fn swapped_pieces_owe_the_same()
    ensures exactly { (onward : Stage → Stage) (made : Made) (start : Standing) (before after : List (Stamped Heard)) (replies : List (Stamped Answer))
        (stamp : Stamp) (side other : Peer) (bytes more : List ℕ) → IsOnward onward → MayStand made start [] → is_same_side side other ≡ false →
        IsNotParked side (walk_from (http_chain onward made) start before replies).stage.stage →
        IsNotParked other (walk_from (http_chain onward made) start before replies).stage.stage →
        NoneGoesUp (walk_from (http_chain onward made) start before replies).stage.stage →
        MayBeHeard side (walk_from (http_chain onward made) start before replies).stage.stage →
        MayBeHeard other (walk_from (http_chain onward made) start before replies).stage.stage →
        MayCome (IsNoEarlier stamp) (walk_from (http_chain onward made) start before replies).unused →
        due (http_chain onward made) start (before ++ piece_at stamp side bytes ∷ piece_at stamp other more ∷ after) replies
        ≡ due (http_chain onward made) start (before ++ piece_at stamp other more ∷ piece_at stamp side bytes ∷ after) replies }
    ensures at_any_moments { (onward : Stage → Stage) (made : Made) (start : Standing) (before after : List (Stamped Heard)) (replies : List (Stamped Answer))
        (first second : Stamp) (side other : Peer) (bytes more : List ℕ) → IsOnward onward → MayStand made start [] → is_same_side side other ≡ false →
        IsNotParked side (walk_from (http_chain onward made) start before replies).stage.stage →
        IsNotParked other (walk_from (http_chain onward made) start before replies).stage.stage →
        NoneGoesUp (walk_from (http_chain onward made) start before replies).stage.stage →
        MayBeHeard side (walk_from (http_chain onward made) start before replies).stage.stage →
        MayBeHeard other (walk_from (http_chain onward made) start before replies).stage.stage →
        EqualButForMoments (due (http_chain onward made) start (before ++ piece_at first side bytes ∷ piece_at second other more ∷ after) replies)
        (due (http_chain onward made) start (before ++ piece_at second other more ∷ piece_at first side bytes ∷ after) replies) }
{}

/// Where no reply allows a size, what is due is what is due where nothing is streamed: so no request goes up there.
pub fn kept_conversations_owe_the_same()
    ensures { (onward : Stage → Stage) (made : Made) (start : Standing) (events : List (Stamped Heard)) (replies : List (Stamped Answer)) → AllowNoSize replies →
        due (http_chain onward made) start events replies ≡ due (http_chain onward (all_kept made)) start events replies }
{}
