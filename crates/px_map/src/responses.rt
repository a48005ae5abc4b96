//! The responses of map local: a file, or a status and no more.
ghost use Rattle.std.specs.Prelude.{◌≡◌, ◌++◌, ◌∷◌, [], true, codes, option_map, IfOk, IfSome, OnOk};
ghost use Rattle.httparse.specs.Grammar.{is_token};
ghost use Rattle.px_message.specs.Fields.{is_same_name};
ghost use Rattle.px_message.specs.Value.{is_value};
ghost use Rattle.px_map.specs.Responses.{answered, extension, fields_with, file_response, other_type, internal_error, media_type, not_found, type_field};

use px_message::{Body, Fields, Name, Response, Status, Value, Version};
use px_text::{NoMemory, eq_ignore_case};
use std::alloc::Global;

// The response with the file of this path.
pub(crate) fn file_response(alloc: Global, path: &str, bytes: Vec<u8>) -> Result<Response, NoMemory>
    ensures { IfOk result (λ response. response ≡ file_response path.now bytes.items) }
{
    let media = media_type(extension(path.as_bytes()));
    let fields = fields_with(alloc, media, bytes.len())?;
    let body = Body::new(bytes)?;
    let reason = Value::of_text(alloc, b"OK")?;
    Ok(answered(alloc, ok(), reason, fields, body))
}

// The response that says that nothing is there.
pub(crate) fn not_found(alloc: Global) -> Result<Response, NoMemory>
    ensures { IfOk result (λ response. response ≡ not_found) }
{
    let fields = fields_with(alloc, None, 0)?;
    let reason = Value::of_text(alloc, b"Not Found")?;
    Ok(answered(alloc, absent(), reason, fields, Body::empty()))
}

// The response that says that the proxy failed.
pub(crate) fn internal_error(alloc: Global) -> Result<Response, NoMemory>
    ensures { IfOk result (λ response. response ≡ internal_error) }
{
    let fields = fields_with(alloc, None, 0)?;
    let reason = Value::of_text(alloc, b"Internal Server Error")?;
    Ok(answered(alloc, failed(), reason, fields, Body::empty()))
}

fn answered(alloc: Global, status: Status, reason: Value, fields: Fields, body: Body) -> Response
    ensures { result ≡ answered status reason fields body }
{
    Response {
        version: Version::Http11,
        status,
        reason,
        fields,
        body,
        trailers: Fields::new(alloc),
        streamed: false,
    }
}

fn ok() -> Status
    ensures { result ≡ 200 }
{
    match Status::try_new(200) {
        Some(status) => status,
        None => unreachable!(),
    }
}

fn absent() -> Status
    ensures { result ≡ 404 }
{
    match Status::try_new(404) {
        Some(status) => status,
        None => unreachable!(),
    }
}

fn failed() -> Status
    ensures { result ≡ 500 }
{
    match Status::try_new(500) {
        Some(status) => status,
        None => unreachable!(),
    }
}

// Who speaks, what is in the body, where that is known, and how long it is.
fn fields_with(alloc: Global, media: Option<&[u8]>, count: usize) -> Result<Fields, NoMemory>
    requires { IfSome media (λ text. is_value text.now ≡ true) }
    ensures { IfOk result (λ fields. fields ≡ fields_with (type_field (option_map (λ text. text.now) media.entry)) count) }
{
    let mut fields = Fields::new(alloc);
    let server = Value::of_text(alloc, b"mitm")?;
    add(alloc, &mut fields, b"Server", server)?;
    add_type(alloc, &mut fields, media)?;
    let length = Value::of_number(alloc, count as u64)?;
    add(alloc, &mut fields, b"Content-Length", length)?;
    Ok(fields)
}

// Adds what is in the body, where that is known.
fn add_type(alloc: Global, fields: &mut Fields, media: Option<&[u8]>) -> Result<(), NoMemory>
    requires { IfSome media (λ text. is_value text.now ≡ true) }
    ensures { OnOk result (fields.new ≡ fields.old ++ type_field (option_map (λ text. text.now) media.entry)) }
{
    match media {
        None => Ok(()),
        Some(media) => add_media(alloc, fields, media),
    }
}

fn add_media(alloc: Global, fields: &mut Fields, media: &[u8]) -> Result<(), NoMemory>
    requires { is_value media.now ≡ true }
    ensures { OnOk result (fields.new ≡ fields.old ++ (codes "Content-Type", media.now) ∷ []) }
{
    let value = Value::of_text(alloc, media)?;
    add(alloc, fields, b"Content-Type", value)?;
    Ok(())
}

// Adds a field of a text that is known to be a name.
fn add(alloc: Global, fields: &mut Fields, name: &[u8], value: Value) -> Result<(), NoMemory>
    requires { is_token name.now ≡ true }
    ensures { OnOk result (fields.new ≡ fields.old ++ (name.now, value) ∷ []) }
{
    let name = Name::of_token(alloc, name)?;
    fields.add(name, value)
}

// What stands behind the last dot of a path, or nothing where it has none.
fn extension(path: &[u8]) -> &[u8]
    ensures { result.now ≡ extension path.now }
{
    let mut found: &[u8] = b"";
    let mut rest = path;
    while let [first, more @ ..] = rest {
        found = if *first == b'.' { more } else { found };
        rest = more;
    }
    found
}

// The media type of a file with this extension.
fn media_type(extension: &[u8]) -> Option<&'static [u8]>
    ensures told { option_map (λ text. text.now) result ≡ media_type extension.now }
    ensures valid { IfSome result (λ text. is_value text.now ≡ true) }
{
    if is_same(extension, b"html") || is_same(extension, b"htm") {
        Some(b"text/html")
    } else if is_same(extension, b"css") {
        Some(b"text/css")
    } else if is_same(extension, b"js") {
        Some(b"text/javascript")
    } else if is_same(extension, b"json") {
        Some(b"application/json")
    } else if is_same(extension, b"txt") {
        Some(b"text/plain")
    } else {
        other_type(extension)
    }
}

// The media type of an image or of a font.
fn other_type(extension: &[u8]) -> Option<&'static [u8]>
    ensures told { option_map (λ text. text.now) result ≡ other_type extension.now }
    ensures valid { IfSome result (λ text. is_value text.now ≡ true) }
{
    if is_same(extension, b"png") {
        Some(b"image/png")
    } else if is_same(extension, b"jpg") || is_same(extension, b"jpeg") {
        Some(b"image/jpeg")
    } else if is_same(extension, b"gif") {
        Some(b"image/gif")
    } else if is_same(extension, b"svg") {
        Some(b"image/svg+xml")
    } else if is_same(extension, b"woff2") {
        Some(b"font/woff2")
    } else {
        None
    }
}

fn is_same(a: &[u8], b: &[u8]) -> bool
    ensures { result ≡ is_same_name a.now b.now }
{
    eq_ignore_case(a, b)
}
