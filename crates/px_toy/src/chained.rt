//! What is due of the server is a chain of stages, and names this conversation alone; so the laws of every chain hold of it, and behind a gate it
//! is a conversation.
ghost use Rattle.px_toy.specs.Echo.{EchoStage, Reading, echo_chain};
ghost use Rattle.px_toy.specs.Stands.{IsAt};
ghost use Rattle.px_toy.specs.EchoNamed.{echo_keeps_number, echo_names};
ghost use Rattle.px_toy.specs.Laws.{settles, so_far_grows, awaits_what_it_asks, ends_where_it_ends};

use crate::LineEcho;
use px_core::Numbered;
use px_event::Chained;

impl Chained for LineEcho {
    ghost Stage = { EchoStage };

    ghost chain = { λ made. echo_chain made.flow };

    ghost start = { λ made. Reading 0 };

    ghost is_at = { λ made. IsAt made.flow };

    ghost stands_at = { λ made state moves given stands. stands };

    ghost settles = { λ made. settles made.flow };

    ghost grows = { λ made. so_far_grows made.flow };

    ghost asks = { λ made. awaits_what_it_asks made.flow };

    ghost ends = { λ made. ends_where_it_ends made.flow };
}

impl Numbered for LineEcho {
    ghost number = { λ made. made.flow.id.conv };

    ghost keeps_number = { echo_keeps_number };

    ghost names = { echo_names };
}
