//! Sticky authorization.
ghost use Rattle.std.specs.Prelude.{◌≡◌, ◌++◌, [], option_map, IfOk, OnOk, OnErr};
ghost use Rattle.px_filter.specs.View.{expression};
ghost use Rattle.px_refresh.specs.Authorized.{authorization_in, authorizations, authorized, given, shown_by, with_authorization};

use crate::authorizations::Authorizations;
use crate::fields::put_fields;
use px_filter::Filter;
use px_message::{Flow, Name, Request, Value};
use px_text::NoMemory;
use std::alloc::Global;

/// Values of `Authorization` that requests showed, which later requests of the same host are given (mitmproxy's option `stickyauth`). In a contract
/// what was kept is the list of these (`shown`), each host in the place where it was first shown a value, with the value that it was shown last.
#[derive(Debug, Drop)]
pub struct StickyAuth {
    alloc: Global,
    filter: Filter,
    shown: Authorizations,
}

impl StickyAuth {
    /// Nothing is kept yet. Requests on which the filter holds will be given what is kept for their host. It takes no memory.
    pub fn new(alloc: Global, filter: Filter) -> StickyAuth
        ensures filter { result.filter ≡ filter }
        ensures shown { result.shown ≡ [] }
    {
        StickyAuth {
            alloc,
            filter,
            shown: Authorizations::new(alloc),
        }
    }

    /// A request that has a field `Authorization` is left as it is, and the first value of these fields is kept for its host, whatever the filter
    /// says. Another one, on which the filter holds, gets the value that is kept for its host, if there is one, as a field at its end. Hosts are
    /// compared byte by byte, so their case counts, and the port plays no part. After `NoMemory` nothing has changed.
    pub fn apply(&mut self, flow: &mut Flow) -> Result<(), NoMemory>
        ensures filter { self.new.filter ≡ self.old.filter }
        ensures kept { OnOk result (self.new.shown ≡ authorizations (self.old.shown ++ shown_by flow.old.request)) }
        ensures put { OnOk result (flow.new ≡ authorized (expression self.old.filter) self.old.shown flow.old) }
        ensures still { OnErr result (self.new.shown ≡ self.old.shown) }
        ensures unchanged { OnErr result (flow.new ≡ flow.old) }
    {
        self.shown.is_kept();
        let request = flow.request.get();
        match authorization_in(request) {
            Some(value) => self.shown.keep(self.alloc, &request.host, value),
            None => self.give(flow),
        }
    }

    // Gives the request what is kept for its host, where the filter holds.
    fn give(&self, flow: &mut Flow) -> Result<(), NoMemory>
        ensures put { OnOk result (flow.new ≡ given (expression self.now.filter) self.now.shown flow.old) }
        ensures unchanged { OnErr result (flow.new ≡ flow.old) }
    {
        if !self.filter.matches(flow)? {
            return Ok(());
        }
        let value = self.shown.value_for(self.alloc, &flow.request.get().host)?;
        put_authorization(self.alloc, flow, value)
    }
}

// The first value of the request's `Authorization` fields.
fn authorization_in(request: &Request) -> Option<&Value>
    ensures { option_map (λ value. value.now) result ≡ authorization_in request.now }
{
    request.fields.get_all(b"Authorization").next()
}

// Puts the value, if there is one, at the end of the request. After `NoMemory` the flow is as before.
fn put_authorization(alloc: Global, flow: &mut Flow, value: Option<Value>) -> Result<(), NoMemory>
    ensures put { OnOk result (flow.new ≡ with_authorization value flow.old) }
    ensures unchanged { OnErr result (flow.new ≡ flow.old) }
{
    let Some(value) = value else {
        return Ok(());
    };
    let mut fields = flow.request.get().fields.try_clone()?;
    fields.add(Name::of_token(alloc, b"Authorization")?, value)?;
    put_fields(alloc, flow, fields)
}
