//! Where a wire listens or was refused to, and how often it failed.
ghost use Rattle.std.specs.Prelude.{◌≡◌, ◌≤◌, IfOk, None, Some, option_copied};
ghost use Rattle.px_outside.specs.Count.{Rose};
ghost use Rattle.px_outside.specs.Net.{at};
ghost use Rattle.px_mio.specs.Listening.{listening_of, refused_of};

use crate::ListenFault;
use px_message::Address;
use px_text::NoMemory;

/// Whether it was asked to listen, and where it does. Where it failed: what was refused, or none where memory ran out.
#[derive(Debug, Drop)]
pub(crate) enum Listening {
    Idle,
    Failed(Option<Refused>),
    At {
        proxy: Address,
        control: Option<Address>,
    },
}

/// An address at which it can't listen, and why.
#[derive(Debug, Drop)]
pub(crate) struct Refused {
    pub(crate) address: Address,
    pub(crate) why: ListenFault,
}

/// That it can't listen at this address.
pub(crate) fn refusal_at(address: &Address, why: ListenFault) -> Result<Option<Refused>, NoMemory>
    ensures refused { IfOk result (λ found. found ≡ Some (record { address = address.now; why = why })) }
{
    let address = address.try_clone()?;
    Ok(Some(Refused { address, why }))
}

/// That it listens at these addresses.
pub(crate) fn listening_at(
    proxy: &Address,
    control: Option<&Address>,
) -> Result<Listening, NoMemory>
    ensures listens { IfOk result (λ found. listening_of found ≡ at proxy.now (option_copied control.entry)) }
    ensures not_refused { IfOk result (λ found. refused_of found ≡ None) }
{
    let proxy = proxy.try_clone()?;
    match control {
        Some(address) => {
            let control = Some(address.try_clone()?);
            Ok(Listening::At { proxy, control })
        }
        None => Ok(Listening::At {
            proxy,
            control: None,
        }),
    }
}

/// A count further by one, which stands still at its type's end.
pub(crate) fn one_more(count: u64) -> u64
    ensures rose { Rose count result }
    ensures later { count ≤ result }
{
    count.saturating_add(1)
}
