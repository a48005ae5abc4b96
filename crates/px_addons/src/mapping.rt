//! How map local and map remote rules answer a flow, or send it elsewhere.
ghost use Rattle.std.specs.Prelude.{◌≡◌, ◌++◌, ◌∷◌, [], true, IfOk, OnErr, OnOk};
ghost use Rattle.httparse.specs.Grammar.{is_token};
ghost use Rattle.px_addons.specs.Mapped.{LocalFails, MapsLocal, moved, not_plain_http, refusal, refusal_fields};
ghost use Rattle.px_core.specs.Answers.{files_meaning};
ghost use Rattle.px_core.specs.declared.answerer.Verdict.TheVariants as verdicts;
ghost use Rattle.px_map.specs.Remote.{remote_rules};
ghost use Rattle.px_map.specs.View.{remote_views};
ghost use Rattle.px_message.specs.Value.{is_value};

use crate::Rules;
use crate::blocking::set_verdict;
use px_core::{Draft, Verdict};
use px_message::{Body, Fields, Name, Response, Status, UrlError, Value, Version};
use px_outside::Files;
use px_text::NoMemory;
use std::alloc::Global;

impl Rules {
    // Asks the map local rules.
    pub(crate) fn ask_map_local<F: Files>(
        &self,
        draft: &mut Draft,
        files: &mut F,
    ) -> Result<(), NoMemory>
        ensures maps { OnOk result (MapsLocal self.now draft.old (files_meaning F.contents F.calls F.misses F.faults F.losses files.old)
            draft.new (files_meaning F.contents F.calls F.misses F.faults F.losses files.new)) }
        ensures fails { OnErr result (LocalFails self.now draft.old (files_meaning F.contents F.calls F.misses F.faults F.losses files.old)
            (files_meaning F.contents F.calls F.misses F.faults F.losses files.new)) }
    {
        match self.local.answer(&draft.flow, files)? {
            None => Ok(()),
            Some(response) => {
                set_verdict(draft, Verdict::Respond(response));
                Ok(())
            }
        }
    }

    // Asks the map remote rules.
    pub(crate) fn ask_map_remote(&self, alloc: Global, draft: &mut Draft) -> Result<(), NoMemory>
        ensures { OnOk result (draft.new ≡ moved (remote_rules (remote_views self.now.remote) draft.old.flow) draft.old) }
    {
        match self.remote.apply(&mut draft.flow) {
            Ok(()) => Ok(()),
            Err(UrlError::NotPlainHttp) => refuse(alloc, draft),
            Err(UrlError::NoMemory) => Err(NoMemory),
        }
    }
}

// Answers that a rule made a text that is no URL of the scheme `http`.
fn refuse(alloc: Global, draft: &mut Draft) -> Result<(), NoMemory>
    ensures { OnOk result (draft.new ≡ record draft.old { verdict = verdicts.Respond not_plain_http }) }
{
    let response = not_plain_http(alloc)?;
    set_verdict(draft, Verdict::Respond(response));
    Ok(())
}

// The response that says so.
fn not_plain_http(alloc: Global) -> Result<Response, NoMemory>
    ensures { IfOk result (λ response. response ≡ not_plain_http) }
{
    let reason = Value::of_text(alloc, b"Bad Gateway")?;
    let fields = refusal_fields(alloc)?;
    let body = refusal(alloc)?;
    Ok(Response {
        version: Version::Http11,
        status: bad_gateway(),
        reason,
        fields,
        body,
        trailers: Fields::new(alloc),
        streamed: false,
    })
}

fn bad_gateway() -> Status
    ensures { result ≡ 502 }
{
    match Status::try_new(502) {
        Some(status) => status,
        None => unreachable!(),
    }
}

// Its body.
fn refusal(alloc: Global) -> Result<Body, NoMemory>
    ensures { IfOk result (λ body. body ≡ refusal) }
{
    let text = Vec::from_slice(alloc, b"map remote: not plain http\n")?;
    Body::new(text)
}

// Its fields.
fn refusal_fields(alloc: Global) -> Result<Fields, NoMemory>
    ensures { IfOk result (λ fields. fields ≡ refusal_fields) }
{
    let mut fields = Fields::new(alloc);
    add(alloc, &mut fields, b"Server", b"mitm")?;
    add(alloc, &mut fields, b"Connection", b"close")?;
    add(alloc, &mut fields, b"Content-Type", b"text/plain")?;
    add(alloc, &mut fields, b"Content-Length", b"27")?;
    Ok(fields)
}

// Adds a field of texts that are known to be a name and a value.
fn add(alloc: Global, fields: &mut Fields, name: &[u8], value: &[u8]) -> Result<(), NoMemory>
    requires name { is_token name.now ≡ true }
    requires value { is_value value.now ≡ true }
    ensures { OnOk result (fields.new ≡ fields.old ++ (name.now, value.now) ∷ []) }
{
    let name = Name::of_token(alloc, name)?;
    let value = Value::of_text(alloc, value)?;
    fields.add(name, value)
}
