//! What is due to a client of SOCKS is a chain of stages; so the laws of every chain hold of it.
ghost use Rattle.px_socks.specs.Chain.{socks_chain};
ghost use Rattle.px_socks.specs.LayerLaws.{awaits_what_it_asks, ends_where_it_ends, settles, so_far_grows};
ghost use Rattle.px_socks.specs.Stages.{Stage as TheStage, greeting};
ghost use Rattle.px_socks.specs.Stands.{IsAt};

use crate::layer::SocksLayer;
use px_event::{Ask, Chained, Command, Event, Layer, Reply};
use px_text::NoMemory;

impl Layer for SocksLayer {
    ghost use Rattle.std.specs.Prelude.{ℕ, List, false};
    ghost use Rattle.px_socks.specs.Stands.{SocksStands, awaits, is_over, left_in, socks_keeps};

    ghost stands = { SocksStands };

    ghost awaited = { awaits };

    ghost left = { λ state. left_in state.phase };

    ghost rate = { λ state. 0 };

    ghost kept = { socks_keeps };

    ghost keeps_no_body = { λ state. false };

    ghost ended = { λ state. is_over state.phase };

    fn take(&mut self, _moment: u64, event: Event, out: &mut Vec<Command>) -> Result<(), NoMemory> {
        self.hear(&event, out)
    }

    fn resume(
        &mut self,
        _moment: u64,
        reply: Reply,
        out: &mut Vec<Command>,
    ) -> Result<(), NoMemory> {
        self.answer(&reply, out)
    }

    fn waiting(&self) -> Option<Ask> {
        self.awaited()
    }

    fn kept(&self) -> usize {
        self.size()
    }

    fn ended(&self) -> bool {
        self.is_over()
    }
}

impl Chained for SocksLayer {
    ghost Stage = { TheStage };

    ghost chain = { λ made. socks_chain };

    ghost start = { λ made. greeting };

    ghost is_at = { λ made. IsAt };

    ghost stands_at = { λ made state moves given stands. stands };

    ghost settles = { λ made. settles };

    ghost grows = { λ made. so_far_grows };

    ghost asks = { λ made. awaits_what_it_asks };

    ghost ends = { λ made. ends_where_it_ends };
}
