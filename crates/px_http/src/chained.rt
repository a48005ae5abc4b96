//! What is due of a conversation is a chain of stages, and names this conversation alone.
ghost use Rattle.px_http.specs.Names.{http_names, keeps_number};
ghost use Rattle.px_http.specs.Stands.{asks_there, ends_there, grows_there, is_there, settles_there, start_at};
ghost use Rattle.px_chain.specs.Chain.{http_chain, sequence};
ghost use Rattle.px_chain.specs.Sights.{Standing};

use crate::HttpConv;
use px_core::Numbered;
use px_event::Chained;

impl Chained for HttpConv {
    ghost Stage = { Standing };

    ghost chain = { λ made. http_chain sequence made.stream.terms };

    ghost start = { start_at };

    ghost is_at = { is_there };

    ghost stands_at = { λ made state moves given stands. stands };

    ghost settles = { settles_there };

    ghost grows = { grows_there };

    ghost asks = { asks_there };

    ghost ends = { ends_there };
}

impl Numbered for HttpConv {
    ghost number = { λ made. made.stream.terms.conv };

    ghost keeps_number = { keeps_number };

    ghost names = { http_names };
}
