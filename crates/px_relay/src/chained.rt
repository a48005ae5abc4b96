//! What is due of a WebSocket is a chain of stages; so the laws of every chain hold of it.
ghost use Rattle.std.specs.Prelude.{◌≡◌, ◌^◌, ◌-◌, ℕ, min};
ghost use Rattle.px_relay.specs.Chain.{first_at};
ghost use Rattle.px_relay.specs.Laws.{awaits_what_it_asks, ends_where_it_ends, settles_there, grows_there};
ghost use Rattle.px_relay.specs.Stages.{Stage as TheStage, relaying};
ghost use Rattle.px_relay.specs.Stands.{IsAt, chain_of};

use crate::layer::WsLayer;
use px_event::{Ask, Chained, Command, Event, Layer, Reply};
use px_text::NoMemory;

impl Layer for WsLayer {
    ghost use Rattle.std.specs.Prelude.{ℕ, List, false};
    ghost use Rattle.px_relay.specs.Kept.{ws_keeps, ws_left};
    ghost use Rattle.px_relay.specs.Stands.{WsStands, awaits, is_over};

    ghost stands = { WsStands };

    ghost awaited = { awaits };

    ghost left = { ws_left };

    ghost rate = { λ state. 1 };

    ghost kept = { ws_keeps };

    ghost keeps_no_body = { λ state. false };

    ghost ended = { λ state. is_over state.phase };

    fn take(&mut self, moment: u64, event: Event, out: &mut Vec<Command>) -> Result<(), NoMemory> {
        self.hear(moment, &event, out)
    }

    fn resume(
        &mut self,
        moment: u64,
        reply: Reply,
        out: &mut Vec<Command>,
    ) -> Result<(), NoMemory> {
        self.answer(moment, &reply, out)
    }

    fn waiting(&self) -> Option<Ask> {
        self.awaited()
    }

    fn kept(&self) -> usize {
        self.size()
    }

    fn ended(&self) -> bool {
        self.has_ended()
    }
}

impl Chained for WsLayer {
    ghost Stage = { TheStage };

    ghost chain = { chain_of };

    ghost start = { λ made. relaying first_at };

    ghost is_at = { IsAt };

    ghost stands_at = { λ made state moves given stands. stands };

    ghost settles = { settles_there };

    ghost grows = { grows_there };

    ghost asks = { awaits_what_it_asks };

    ghost ends = { ends_where_it_ends };
}
