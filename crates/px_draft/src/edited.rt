//! A flow at a hook, as lines change it: a draft that is edited.
ghost use Rattle.std.specs.Prelude.{◌≡◌, ◌⊎◌, [], Some, None, Ok, Err, option_map, is_some, IfOk, IfErr, OnOk, OnErr};
ghost use Rattle.px_draft.specs.declared.error.EditError.TheVariants as error;
ghost use Rattle.px_draft.specs.declared.given.Given.TheVariants as givens;
ghost use Rattle.px_draft.specs.Edits.{IsRefusal, changed, field_by, flow_of, fresh, gives, goes_on, is_at_request, is_at_response, is_there, made, method_by, more_by, removed_by, request_by, status_by, turned, with_given};
ghost use Rattle.px_draft.specs.Requests.{with_url};
ghost use Rattle.px_draft.specs.Subjects.{fields_in, subject_of};
ghost use Rattle.px_draft.specs.Words.{bytes_of, name_of, status_of, value_of};

use crate::content::{has_body, put_in};
use crate::fields::{has_fields, remove_fields};
use crate::given::{Given, OpenBody, Placing};
use crate::messages::{put_method, put_status, put_url};
use crate::subject::{Subject, is_whole, subject_of};
use crate::words::{bytes_of, name_of, value_of};
use crate::{Edit, EditError};
use px_event::Hook;
use px_message::Flow;
use px_text::NoMemory;
use std::alloc::Global;

/// A flow that waits at a hook, as lines changed it.
#[derive(Drop)]
pub struct Edited {
    hook: Hook,
    // Without what the last line gave.
    flow: Flow,
    given: Given,
}

impl Edited {
    /// The draft of a flow that no line has changed.
    pub fn new(hook: Hook, flow: Flow) -> Edited
        ensures { result ≡ fresh hook flow }
    {
        Edited {
            hook,
            flow,
            given: Given::Nothing,
        }
    }

    /// The flow that it has, with which its hook is answered. It takes the memory of what the last line gave.
    pub fn flow(&self, alloc: Global) -> Result<Flow, NoMemory>
        ensures { IfOk result (λ flow. flow ≡ flow_of self.now) }
    {
        let mut flow = self.flow.try_clone()?;
        put_in(alloc, subject_of(self.hook), &self.given, &mut flow)?;
        Ok(flow)
    }

    /// Makes a change. `NotThere` where the hook is about something else, and for `more` where the last line gave nothing that goes on;
    /// behind that `BadValue`, where a word is none of its kind. After a refusal the draft is as before.
    pub fn change(&mut self, alloc: Global, change: &Edit) -> Result<(), EditError>
        ensures ok { OnOk result (changed change.now self.old ≡ Ok self.new) }
        ensures refused { IfErr result (λ e. (e ≡ error.NoMemory) ⊎ (changed change.now self.old ≡ Err e)) }
        ensures unchanged { OnErr result (self.new ≡ self.old) }
    {
        if self.is_there(change) {
            self.make(alloc, change)
        } else {
            Err(EditError::NotThere)
        }
    }

    // Whether the hook is about what the change is about.
    fn is_there(&self, change: &Edit) -> bool
        ensures { result ≡ is_there change.now self.now }
    {
        let subject = subject_of(self.hook);
        match change {
            Edit::Method(_) | Edit::Url(_) => is_at_request(subject),
            Edit::Status(_) => is_at_response(subject, &self.flow),
            Edit::Set { .. } | Edit::Add { .. } | Edit::Remove(_) => {
                has_fields(subject, &self.flow)
            }
            Edit::ClearBody => is_whole(self.hook) && has_body(subject, &self.flow),
            Edit::More(_) => goes_on(&self.given),
        }
    }

    // Makes a change that is there to be made.
    fn make(&mut self, alloc: Global, change: &Edit) -> Result<(), EditError>
        ensures ok { OnOk result (made change.now self.old ≡ Some self.new) }
        ensures refused { IfErr result (IsRefusal (made change.now self.old)) }
        ensures unchanged { OnErr result (self.new ≡ self.old) }
    {
        match change {
            Edit::Method(name) => self.put_method(alloc, name.as_slice()),
            Edit::Url(text) => self.put_url(alloc, text.as_slice()),
            Edit::Status(code) => self.put_status(alloc, code.as_slice()),
            Edit::Set { name, value } => {
                self.give_field(alloc, Placing::Set, name.as_slice(), value.as_slice())
            }
            Edit::Add { name, value } => {
                self.give_field(alloc, Placing::Add, name.as_slice(), value.as_slice())
            }
            Edit::Remove(name) => self.remove_fields(alloc, name.as_slice()),
            Edit::ClearBody => self.give_body(alloc),
            Edit::More(text) => self.give_more(alloc, text.as_slice()),
        }
    }

    fn put_method(&mut self, alloc: Global, name: &[u8]) -> Result<(), EditError>
        ensures ok { OnOk result (option_map (turned self.old) (method_by (flow_of self.old) (name_of name.now)) ≡ Some self.new) }
        ensures refused { IfErr result (IsRefusal (option_map (turned self.old) (method_by (flow_of self.old) (name_of name.now)))) }
        ensures unchanged { OnErr result (self.new ≡ self.old) }
    {
        let mut flow = self.flow(alloc)?;
        put_method(alloc, &mut flow, name)?;
        self.turn(flow);
        Ok(())
    }

    fn put_url(&mut self, alloc: Global, text: &[u8]) -> Result<(), EditError>
        ensures ok { OnOk result (option_map (turned self.old) (request_by (flow_of self.old) (with_url text.now (flow_of self.old).request)) ≡ Some self.new) }
        ensures refused { IfErr result (IsRefusal (option_map (turned self.old) (request_by (flow_of self.old) (with_url text.now (flow_of self.old).request)))) }
        ensures unchanged { OnErr result (self.new ≡ self.old) }
    {
        let mut flow = self.flow(alloc)?;
        put_url(alloc, &mut flow, text)?;
        self.turn(flow);
        Ok(())
    }

    fn put_status(&mut self, alloc: Global, code: &[u8]) -> Result<(), EditError>
        ensures ok { OnOk result (option_map (turned self.old) (status_by (flow_of self.old) (status_of code.now)) ≡ Some self.new) }
        ensures refused { IfErr result (IsRefusal (option_map (turned self.old) (status_by (flow_of self.old) (status_of code.now)))) }
        ensures unchanged { OnErr result (self.new ≡ self.old) }
    {
        let mut flow = self.flow(alloc)?;
        put_status(alloc, &mut flow, code)?;
        self.turn(flow);
        Ok(())
    }

    fn remove_fields(&mut self, alloc: Global, name: &[u8]) -> Result<(), EditError>
        ensures ok { OnOk result (option_map (turned self.old) (removed_by (subject_of self.old.hook) (flow_of self.old) (name_of name.now)) ≡ Some self.new) }
        ensures refused { IfErr result (IsRefusal (option_map (turned self.old) (removed_by (subject_of self.old.hook) (flow_of self.old) (name_of name.now)))) }
        ensures unchanged { OnErr result (self.new ≡ self.old) }
    {
        let mut flow = self.flow(alloc)?;
        remove_fields(alloc, subject_of(self.hook), &mut flow, name)?;
        self.turn(flow);
        Ok(())
    }

    // Has another flow, with nothing open.
    fn turn(&mut self, flow: Flow)
        ensures { self.new ≡ turned self.old flow }
    {
        self.flow = flow;
        self.given = Given::Nothing;
    }

    fn give_field(
        &mut self,
        alloc: Global,
        placing: Placing,
        name: &[u8],
        value: &[u8],
    ) -> Result<(), EditError>
        ensures ok { OnOk result (option_map (gives self.old) (field_by placing (name_of name.now) (value_of value.now)) ≡ Some self.new) }
        ensures refused { IfErr result (IsRefusal (option_map (gives self.old) (field_by placing (name_of name.now) (value_of value.now)))) }
        ensures unchanged { OnErr result (self.new ≡ self.old) }
    {
        let given = field_of(alloc, placing, name, value)?;
        Ok(self.give(alloc, given)?)
    }

    fn give_body(&mut self, alloc: Global) -> Result<(), EditError>
        ensures ok { OnOk result (Some (gives self.old (givens.Body [])) ≡ Some self.new) }
        ensures refused { IfErr result (IsRefusal (Some (gives self.old (givens.Body [])))) }
        ensures unchanged { OnErr result (self.new ≡ self.old) }
    {
        Ok(self.give(alloc, Given::Body(OpenBody::new(alloc)))?)
    }

    // Puts what was open into the flow, and opens this.
    fn give(&mut self, alloc: Global, given: Given) -> Result<(), NoMemory>
        ensures ok { OnOk result (self.new ≡ gives self.old given) }
        ensures unchanged { OnErr result (self.new ≡ self.old) }
    {
        let flow = self.flow(alloc)?;
        self.flow = flow;
        self.given = given;
        Ok(())
    }

    fn give_more(&mut self, alloc: Global, text: &[u8]) -> Result<(), EditError>
        ensures ok { OnOk result (option_map (with_given self.old) (more_by self.old.given (bytes_of text.now)) ≡ Some self.new) }
        ensures refused { IfErr result (IsRefusal (option_map (with_given self.old) (more_by self.old.given (bytes_of text.now)))) }
        ensures unchanged { OnErr result (self.new ≡ self.old) }
    {
        let bytes = bytes_of(alloc, text)?;
        push_more(&mut self.given, &bytes)
    }
}

fn is_at_request(subject: Subject) -> bool
    ensures { result ≡ is_at_request subject }
{
    match subject {
        Subject::Request => true,
        Subject::Response | Subject::Message => false,
    }
}

fn is_at_response(subject: Subject, flow: &Flow) -> bool
    ensures { result ≡ is_at_response subject flow.now }
{
    match subject {
        Subject::Response => flow.response.is_some(),
        Subject::Request | Subject::Message => false,
    }
}

// Whether something stands that more bytes go behind.
fn goes_on(given: &Given) -> bool
    ensures { result ≡ goes_on given.now }
{
    match given {
        Given::Nothing => false,
        Given::Field { .. } | Given::Body(_) => true,
    }
}

// A field of a name and a value in base64.
fn field_of(alloc: Global, placing: Placing, name: &[u8], value: &[u8]) -> Result<Given, EditError>
    ensures ok { IfOk result (λ given. field_by placing (name_of name.now) (value_of value.now) ≡ Some given) }
    ensures refused { IfErr result (IsRefusal (field_by placing (name_of name.now) (value_of value.now))) }
{
    let name = name_of(alloc, name)?;
    let value = value_of(alloc, value)?;
    Ok(Given::Field {
        placing,
        name,
        value,
    })
}

// Adds bytes to what was given. After a refusal it is as before.
fn push_more(given: &mut Given, more: &[u8]) -> Result<(), EditError>
    ensures ok { OnOk result (more_by given.old (Some more.now) ≡ Some given.new) }
    ensures refused { IfErr result (IsRefusal (more_by given.old (Some more.now))) }
    ensures unchanged { OnErr result (given.new ≡ given.old) }
{
    match given {
        Given::Nothing => Err(EditError::BadValue),
        Given::Field { value, .. } => value.push(more),
        Given::Body(body) => Ok(body.push(more)?),
    }
}
