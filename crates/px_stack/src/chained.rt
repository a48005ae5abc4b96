//! What is due of a conversation is a chain of stages, and names this conversation alone.
ghost use Rattle.px_stack.specs.Stack.{IsAt, chain_of, start_of};
ghost use Rattle.px_stack.specs.StackLaws.{asks_there, ends_there, grows_there, keeps_number, names_there, settles_there, stands_there};
ghost use Rattle.px_stack.specs.Stages.{Stage as TheStage};

use crate::stack::Stack;
use px_core::Numbered;
use px_event::Chained;

impl Chained for Stack {
    ghost Stage = { TheStage };

    ghost chain = { chain_of };

    ghost start = { start_of };

    ghost is_at = { IsAt };

    ghost stands_at = { stands_there };

    ghost settles = { settles_there };

    ghost grows = { grows_there };

    ghost asks = { asks_there };

    ghost ends = { ends_there };
}

impl Numbered for Stack {
    ghost number = { λ made. made.conv };

    ghost keeps_number = { keeps_number };

    ghost names = { names_there };
}
