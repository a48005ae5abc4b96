//! Sticky cookies.
ghost use Rattle.std.specs.Prelude.{◌≡◌, ◌++◌, [], true, codes, IfOk, OnOk, OnErr};
ghost use Rattle.std.specs.Option.{option_to_list};
ghost use Rattle.px_filter.specs.View.{expression};
ghost use Rattle.px_message.specs.Fields.{set_in, values_of};
ghost use Rattle.px_message.specs.Value.{is_value};
ghost use Rattle.px_refresh.specs.Cookies.{KeepsFront, cookie_in, cookie_text, cookies_in, jar, sent_to, set_by, sticky, with_cookies, with_text};
ghost use Rattle.px_refresh.specs.Site.{site_of};

use crate::fields::put_fields;
use crate::jar::Jar;
use crate::key::Site;
use crate::set_cookie::read_cookie;
use px_filter::Filter;
use px_message::{Flow, Name, Request, Response, Value};
use px_text::{Bytes, NoMemory};
use std::alloc::Global;

/// Cookies that servers set, which later requests are sent (mitmproxy's option `stickycookie`). In a contract what was kept is the list of these
/// cookies (`jar`), each in the place where it was first set, with the value that it was set to last.
#[derive(Debug, Drop)]
pub struct StickyCookies {
    alloc: Global,
    filter: Filter,
    jar: Jar,
}

impl StickyCookies {
    /// Nothing is kept yet. Requests on which the filter holds will be sent cookies. It takes no memory.
    pub fn new(alloc: Global, filter: Filter) -> StickyCookies
        ensures filter { result.filter ≡ filter }
        ensures jar { result.jar ≡ [] }
    {
        StickyCookies {
            alloc,
            filter,
            jar: Jar::new(alloc),
        }
    }

    /// Keeps the cookies that the response of the flow sets, in their order, for the host and the port of its request; a flow without a
    /// response sets none. The filter plays no part. After `NoMemory` some first ones of them are kept.
    pub fn keep(&mut self, flow: &Flow) -> Result<(), NoMemory>
        ensures filter { self.new.filter ≡ self.old.filter }
        ensures kept { OnOk result (self.new.jar ≡ jar (self.old.jar ++ set_by flow.now)) }
        ensures stopped { OnErr result (KeepsFront (set_by flow.now) self.old.jar self.new.jar) }
    {
        self.jar.is_kept();
        let Some(response) = &flow.response else {
            return Ok(());
        };
        let site = Site::of(self.alloc, flow.request.get())?;
        keep_all(self.alloc, &mut self.jar, &site, response.get())
    }

    /// Where the filter holds on the flow, its request is sent the kept cookies of its host and port whose path is the beginning of its own,
    /// in the order in which they were first set: in the field `Cookie`, at the place of the first such field, and in place of all of them.
    /// Where there is no such cookie, nothing changes. After `NoMemory` the flow is as before.
    pub fn apply(&self, flow: &mut Flow) -> Result<(), NoMemory>
        ensures put { OnOk result (flow.new ≡ sticky (expression self.now.filter) self.now.jar flow.old) }
        ensures unchanged { OnErr result (flow.new ≡ flow.old) }
    {
        if !self.filter.matches(flow)? {
            return Ok(());
        }
        send(self.alloc, &self.jar, flow)
    }
}

// Keeps the cookies that the response sets for the site, in their order.
fn keep_all(
    alloc: Global,
    cookies: &mut Jar,
    site: &Site,
    response: &Response,
) -> Result<(), NoMemory>
    ensures kept { OnOk result (cookies.new ≡ jar (cookies.old ++ cookies_in site.now (values_of (codes "Set-Cookie") response.now.fields))) }
    ensures stopped { OnErr result (KeepsFront (cookies_in site.now (values_of (codes "Set-Cookie") response.now.fields)) cookies.old cookies.new) }
{
    cookies.is_kept();
    let mut rest = response.fields.get_all(b"Set-Cookie");
    while let Some(value) = rest.next() {
        keep_one(alloc, cookies, site, value)?;
    }
    Ok(())
}

// Keeps the cookie that the value sets for the site, if it names one.
fn keep_one(alloc: Global, cookies: &mut Jar, site: &Site, value: &Value) -> Result<(), NoMemory>
    ensures kept { OnOk result (cookies.new ≡ jar (cookies.old ++ option_to_list (cookie_in site.now value.now))) }
    ensures unchanged { OnErr result (cookies.new ≡ cookies.old) }
{
    cookies.is_kept();
    match read_cookie(alloc, site, value.bytes())? {
        None => Ok(()),
        Some((key, value)) => cookies.keep(key, value),
    }
}

// Sends the request the kept cookies that are for it. After `NoMemory` the flow is as before.
fn send(alloc: Global, cookies: &Jar, flow: &mut Flow) -> Result<(), NoMemory>
    ensures put { OnOk result (flow.new ≡ with_cookies (sent_to (site_of flow.old.request) flow.old.request.path cookies.now) flow.old) }
    ensures unchanged { OnErr result (flow.new ≡ flow.old) }
{
    let text = text_for(alloc, cookies, flow.request.get())?;
    put_text(alloc, flow, text)
}

// The text of the kept cookies that the request is sent; nothing where there are none.
fn text_for(alloc: Global, cookies: &Jar, request: &Request) -> Result<Vec<u8>, NoMemory>
    ensures text { IfOk result (λ text. text.items ≡ cookie_text (sent_to (site_of request.now) request.now.path cookies.now)) }
    ensures valid { IfOk result (λ text. is_value text.items ≡ true) }
{
    let site = Site::of(alloc, request)?;
    cookies.text_for(&site, request.path.bytes())
}

// Puts the text of cookies into the request, if there is one. After `NoMemory` the flow is as before.
fn put_text(alloc: Global, flow: &mut Flow, text: Vec<u8>) -> Result<(), NoMemory>
    requires { is_value text.items ≡ true }
    ensures put { OnOk result (flow.new ≡ with_text text.items flow.old) }
    ensures unchanged { OnErr result (flow.new ≡ flow.old) }
{
    if text.is_empty() {
        return Ok(());
    }
    let mut fields = flow.request.get().fields.try_clone()?;
    fields.set(Name::of_token(alloc, b"Cookie")?, value_of(text)?)?;
    put_fields(alloc, flow, fields)
}

// The value that the text is.
fn value_of(text: Vec<u8>) -> Result<Value, NoMemory>
    requires { is_value text.items ≡ true }
    ensures { IfOk result (λ value. value ≡ text.items) }
{
    match Value::from_bytes(Bytes::new(text)?) {
        Ok(value) => Ok(value),
        Err(_) => unreachable!(),
    }
}
