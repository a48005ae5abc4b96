//! A flow with other fields of the message that a hook is about.
ghost use Rattle.std.specs.Prelude.{◌≡◌, Some, None, is_some, option_map, IfOk, IfErr, OnOk};
ghost use Rattle.px_message.specs.Fields.{without};
ghost use Rattle.px_draft.specs.Edits.{IsRefusal, placed, removed_by};
ghost use Rattle.px_draft.specs.Subjects.{change_fields, fields_in, response_with_fields, with_fields};
ghost use Rattle.px_draft.specs.Words.{name_of};
ghost use Rattle.px_draft.specs.declared.subject.Subject.TheVariants as subjects;

use crate::EditError;
use crate::given::{OpenValue, Placing};
use crate::subject::Subject;
use crate::words::name_of;
use px_message::{Fields, Flow, Name, Request, Response, Shared, Value};
use px_text::NoMemory;
use std::alloc::Global;

/// Takes away the fields of that name.
pub(crate) fn remove_fields(
    alloc: Global,
    subject: Subject,
    flow: &mut Flow,
    name: &[u8],
) -> Result<(), EditError>
    ensures put { OnOk result (removed_by subject flow.old (name_of name.now) ≡ Some flow.new) }
    ensures refused { IfErr result (IsRefusal (removed_by subject flow.old (name_of name.now))) }
{
    let name = name_of(alloc, name)?;
    Ok(remove_named(alloc, subject, flow, &name)?)
}

fn remove_named(
    alloc: Global,
    subject: Subject,
    flow: &mut Flow,
    name: &Name,
) -> Result<(), NoMemory>
    ensures put { OnOk result (flow.new ≡ change_fields subject (without name.now) flow.old) }
{
    let changed = match fields_of(subject, flow) {
        None => return Ok(()),
        Some(fields) => spared(fields, name)?,
    };
    put_fields(alloc, subject, flow, changed)
}

fn spared(fields: &Fields, name: &Name) -> Result<Fields, NoMemory>
    ensures { IfOk result (λ changed. changed ≡ without name.now fields.now) }
{
    let mut changed = fields.try_clone()?;
    changed.remove(name.bytes())?;
    Ok(changed)
}

/// Puts a field among the others.
pub(crate) fn put_field(
    alloc: Global,
    subject: Subject,
    flow: &mut Flow,
    placing: Placing,
    name: &Name,
    value: &OpenValue,
) -> Result<(), NoMemory>
    ensures put { OnOk result (flow.new ≡ change_fields subject (placed placing name.now value.now) flow.old) }
{
    let value = value.copied(alloc)?;
    let name = name.try_clone()?;
    let changed = match fields_of(subject, flow) {
        None => return Ok(()),
        Some(fields) => placed(fields, placing, name, value)?,
    };
    put_fields(alloc, subject, flow, changed)
}

fn placed(fields: &Fields, placing: Placing, name: Name, value: Value) -> Result<Fields, NoMemory>
    ensures { IfOk result (λ changed. changed ≡ placed placing name value fields.now) }
{
    let mut changed = fields.try_clone()?;
    match placing {
        Placing::Set => changed.set(name, value)?,
        Placing::Add => changed.add(name, value)?,
    }
    Ok(changed)
}

/// Whether the message is there and has fields.
pub(crate) fn has_fields(subject: Subject, flow: &Flow) -> bool
    ensures { result ≡ is_some (fields_in subject flow.now) }
{
    match subject {
        Subject::Request => true,
        Subject::Response => match &flow.response {
            Some(_) => true,
            None => false,
        },
        Subject::Message => false,
    }
}

// The fields of the message, where there is one that has any.
fn fields_of(subject: Subject, flow: &Flow) -> Option<&Fields>
    ensures { option_map (λ fields. fields.now) result ≡ fields_in subject flow.now }
{
    match subject {
        Subject::Request => Some(&flow.request.get().fields),
        Subject::Response => match &flow.response {
            Some(response) => Some(&response.get().fields),
            None => None,
        },
        Subject::Message => None,
    }
}

fn put_fields(
    alloc: Global,
    subject: Subject,
    flow: &mut Flow,
    fields: Fields,
) -> Result<(), NoMemory>
    ensures put { OnOk result (flow.new ≡ with_fields subject fields flow.old) }
{
    match subject {
        Subject::Request => put_request_fields(alloc, flow, fields),
        Subject::Response => put_response_fields(alloc, flow, fields),
        Subject::Message => {
            drop(fields);
            Ok(())
        }
    }
}

fn put_request_fields(alloc: Global, flow: &mut Flow, fields: Fields) -> Result<(), NoMemory>
    ensures put { OnOk result (flow.new ≡ with_fields subjects.Request fields flow.old) }
{
    flow.request = share_request(alloc, flow.request.get(), fields)?;
    Ok(())
}

fn put_response_fields(alloc: Global, flow: &mut Flow, fields: Fields) -> Result<(), NoMemory>
    ensures put { OnOk result (flow.new ≡ with_fields subjects.Response fields flow.old) }
{
    flow.response = share_response(alloc, &flow.response, fields)?;
    Ok(())
}

// A request with other fields, which copies of the flow may share.
fn share_request(
    alloc: Global,
    request: &Request,
    fields: Fields,
) -> Result<Shared<Request>, NoMemory>
    ensures { IfOk result (λ shared. shared ≡ record request.now { fields = fields }) }
{
    let copy = request.try_clone()?;
    Shared::new(alloc, request_with_fields(copy, fields))
}

fn request_with_fields(request: Request, fields: Fields) -> Request
    ensures { result ≡ record request { fields = fields } }
{
    let mut changed = request;
    changed.fields = fields;
    changed
}

// A response with other fields, where there is one.
fn share_response(
    alloc: Global,
    response: &Option<Shared<Response>>,
    fields: Fields,
) -> Result<Option<Shared<Response>>, NoMemory>
    ensures { IfOk result (λ shared. shared ≡ option_map (response_with_fields fields) response.now) }
{
    let Some(response) = response else {
        return Ok(None);
    };
    let mut changed = response.get().try_clone()?;
    changed.fields = fields;
    let shared = Shared::new(alloc, changed)?;
    Ok(Some(shared))
}
