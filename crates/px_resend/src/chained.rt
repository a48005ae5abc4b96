//! What is due of a request that is sent again is a chain of stages, and names its conversation alone.
ghost use Rattle.px_resend.specs.Chain.{Stage as TheStage, waiting};
ghost use Rattle.px_resend.specs.Laws.{asks_there, ends_there, grows_there, keeps_number, names_there, settles_there, stands_there};
ghost use Rattle.px_resend.specs.Stands.{IsAt, chain_of};

use crate::Resend;
use px_core::Numbered;
use px_event::Chained;

impl Chained for Resend {
    ghost Stage = { TheStage };

    ghost chain = { chain_of };

    ghost start = { λ made. waiting };

    ghost is_at = { IsAt };

    ghost stands_at = { stands_there };

    ghost settles = { settles_there };

    ghost grows = { grows_there };

    ghost asks = { asks_there };

    ghost ends = { ends_there };
}

impl Numbered for Resend {
    ghost number = { λ made. made.conv };

    ghost keeps_number = { keeps_number };

    ghost names = { names_there };
}
