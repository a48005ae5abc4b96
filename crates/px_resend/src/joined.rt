//! What is due of a conversation that has a client, or none, is a chain of stages, and names it alone.
use crate::Conversation;
use px_core::Numbered;
use px_event::Chained;

impl<L: Numbered> Chained for Conversation<L> {
    ghost use Rattle.px_resend.specs.Chain.{Stage as TheStage};
    ghost use Rattle.px_resend.specs.Joined.{Either, chain_by, is_at_by, start_by};
    ghost use Rattle.px_resend.specs.JoinedLaws.{asks_both, ends_both, grow_both, settle_both, stand_both};

    ghost Stage = { Either L.Stage TheStage };

    ghost chain = { chain_by L.chain };

    ghost start = { start_by L.start };

    ghost is_at = { is_at_by L.is_at };

    ghost stands_at = { stand_both L.stands L.chain L.start L.is_at L.stands_at };

    ghost settles = { settle_both L.chain L.settles };

    ghost grows = { grow_both L.chain L.grows };

    ghost asks = { asks_both L.chain L.is_at L.awaited L.asks };

    ghost ends = { ends_both L.chain L.is_at L.ended L.ends };
}

impl<L: Numbered> Numbered for Conversation<L> {
    ghost use Rattle.px_resend.specs.Joined.{number_by};
    ghost use Rattle.px_resend.specs.JoinedLaws.{keep_both, name_both};

    ghost number = { number_by L.number };

    ghost keeps_number = { keep_both L.stands L.number L.keeps_number };

    ghost names = { name_both L.chain L.start L.number L.names };
}
