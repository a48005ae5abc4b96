//! Laws of reading back: a written message is read as itself, and what follows it as what follows it.
//!
//! A message whose text could be read as two, or as another one, would smuggle a request past whoever looks at it
//! (RFC 9112 section 11.2). So the texts that are written (`specs/Text.antt`) are tied here to what a reader makes of the
//! bytes of a stream (`px_read`): the text of a whole message is one message, with the same head, body and trailers, and
//! not a byte of it is left for the next. Every settled message is whole. Of a message that was read all this holds as it is:
//! what is read, settled and written is read as it was.
//!
//! The laws ask that the head by itself, and trailers by themselves, are read as they stand. They are where their fields
//! are plain: no blank at either end of a value, which no reader takes for a part of it, no control byte but the tab, no
//! more than 100 fields and 65,536 bytes, and a path in UTF-8. Each law is the contract of a function that does nothing
//! but look at the parts.
ghost use Rattle.std.specs.Prelude.{◌<◌, ◌^◌, length};
ghost use Rattle.px_write.specs.ReadBack as law;
ghost use Rattle.px_write.specs.TargetPath as target;

use crate::Form;
use px_message::{Body, Fields, Request, Response, fields_are_valid};

/// The head of a request with plain fields is read as it stands, in either form.
pub fn plain_request_stands(request: &Request, form: Form)
    ensures { law.PlainRequestStands request.now form }
{
    let _method = request.method.bytes();
    let _host = request.host.bytes();
    fits(request.port);
    let _path = request.path.bytes();
    fields_are_valid(&request.fields);
    let _ = form;
}

/// The head of a response with plain fields and a plain reason is read as it stands.
pub fn plain_response_stands(response: &Response)
    ensures { law.PlainResponseStands response.now }
{
    let _code = response.status.code();
    fields_are_valid(&response.fields);
}

/// Plain trailers are read as they stand.
pub fn plain_trailers_stand(trailers: &Fields)
    ensures { law.PlainTrailersStand trailers.now }
{
    fields_are_valid(trailers);
}

/// A request that is whole is read as itself, whatever follows it.
pub fn whole_request_reads_back(request: &Request, form: Form)
    ensures { law.WholeRequestReadsBack request.now form }
{
    is_held(&request.body);
    let _ = form;
}

/// A request that was settled is read as itself, whatever follows it.
pub fn settled_request_reads_back(request: &Request, form: Form)
    ensures { law.SettledRequestReadsBack request.now form }
{
    is_held(&request.body);
    let _ = form;
}

/// The path that a target in UTF-8 says is UTF-8.
pub fn target_path_is_text()
    ensures { target.TargetPathIsText }
{}

/// A request that was read, settled and written is read as it was, whatever follows it.
pub fn read_request_reads_back(request: &Request, form: Form)
    ensures { law.ReadRequestReadsBack request.now form }
{
    plain_request_stands(request, form);
    plain_trailers_stand(&request.trailers);
    whole_request_reads_back(request, form);
}

/// The target that is written is read as the request's path, or as its host, port and path.
pub fn target_reads_back(request: &Request)
    ensures origin { law.OriginReadsBack request.now }
    ensures absolute { law.AbsoluteReadsBack request.now }
{
    let _host = request.host.bytes();
    let _path = request.path.bytes();
    fits(request.port);
}

/// A response that is whole is read as itself: whatever follows it, or up to its server's close.
pub fn whole_response_reads_back(asked_head: bool, response: &Response)
    ensures { law.WholeResponseReadsBack asked_head response.now }
{
    let _code = response.status.code();
    is_held(&response.body);
    let _ = asked_head;
}

/// A response that was settled is read as itself: whatever follows it, or up to its server's close.
pub fn settled_response_reads_back(asked_head: bool, response: &Response)
    ensures { law.SettledResponseReadsBack asked_head response.now }
{
    let _code = response.status.code();
    is_held(&response.body);
    let _ = asked_head;
}

/// A response that was read, settled and written is read as it was: whatever follows it, or up to its server's close.
pub fn read_response_reads_back(asked_head: bool, response: &Response)
    ensures { law.ReadResponseReadsBack asked_head response.now }
{
    plain_response_stands(response);
    plain_trailers_stand(&response.trailers);
    whole_response_reads_back(asked_head, response);
}

// Memory holds a body.
fn is_held(body: &Body)
    ensures { length body.now < 2 ^ 64 }
{
    let _length = body.bytes().len();
}

// What the type says of a port.
fn fits(number: u16)
    ensures { number < 2 ^ 16 }
{
    let _ = number;
}
