//! Laws of the text of a message that is sent on as it comes, each the contract of a function that does nothing.
ghost use Rattle.px_parts.specs.Given as given;
ghost use Rattle.px_parts.specs.Laws as law;
ghost use Rattle.px_parts.specs.ReadBack as read_back;
ghost use Rattle.px_parts.specs.Streamed as streamed;

use px_message::{Request, Response};
use px_write::Form;

// ---- what is sent

/// Bytes of a body are sent as they are.
pub fn bytes_are_sent()
    ensures { law.BytesAreSent }
{}

/// What was sent of a request is the beginning of what is sent of it with more bytes.
pub fn request_text_grows()
    ensures { law.RequestTextGrows }
{}

/// Of a request that is whole or refused nothing more is sent, whatever follows.
pub fn request_text_stays()
    ensures { law.RequestTextStays }
{}

/// What was sent of a response is the beginning of what is sent of it with more bytes, a close behind them or not.
pub fn response_text_grows()
    ensures { law.ResponseTextGrows }
{}

/// Of a response that is whole or refused nothing more is sent, whatever follows.
pub fn response_text_stays()
    ensures { law.ResponseTextStays }
{}

/// What was sent of a final response, behind the interim ones, is the beginning of what is sent of it with more bytes.
pub fn final_text_grows()
    ensures { law.FinalTextGrows }
{}

/// Of a final response that is whole or refused nothing more is sent, whatever follows.
pub fn final_text_stays()
    ensures { law.FinalTextStays }
{}

/// Two looks at a text that grows send what one look behind both sends.
pub fn left_is_added()
    ensures { law.LeftIsAdded }
{}

// ---- what a reader gives

/// A part says what its marks say.
pub fn part_says_its_marks()
    ensures { given.PartSaysItsMarks }
{}

/// What the parts say that a reader gave is at every moment the beginning of what is sent, however the bytes were cut.
pub fn given_is_sent()
    ensures { given.GivenIsSent }
{}

/// And it is all of it as soon as the reader has no more to give.
pub fn given_is_all()
    ensures { given.GivenIsAll }
{}

/// So what is sent next is what the parts say that were given since the reader had no more to give, whatever was fed in between.
pub fn given_is_left()
    ensures { given.GivenIsLeft }
{}

// ---- what is read back

/// The length that a head says is told by its framing fields alone.
pub fn length_is_framing()
    ensures { read_back.LengthIsFraming }
{}

/// A whole request that was sent on as it came is read with the head that was sent and the same marks: the sender's chunks, bytes
/// and trailers; and what follows it as what follows it.
pub fn streamed_request_reads_back(request: &Request, form: Form)
    ensures marks { read_back.StreamedRequestReadsBack request.now form }
    ensures item { read_back.StreamedRequestIsSame request.now form }
{
    let _method = request.method.bytes();
    let _ = form;
}

/// A whole response that was sent on as it came is read back: whatever follows it, or up to its server's close.
pub fn streamed_response_reads_back(asked_head: bool, response: &Response)
    ensures marks { read_back.StreamedResponseReadsBack asked_head response.now }
    ensures item { read_back.StreamedResponseIsSame asked_head response.now }
{
    let _code = response.status.code();
    let _ = asked_head;
}

// ---- what is streamed

/// What is streamed stays so, however much more is heard.
pub fn streamed_stays()
    ensures { streamed.StreamedStays }
{}

/// A request that is streamed stays so with more bytes.
pub fn request_streams_on()
    ensures { streamed.RequestStreamsOn }
{}

/// A response that is streamed stays so with more bytes, a close behind them or not.
pub fn response_streams_on()
    ensures { streamed.ResponseStreamsOn }
{}

/// A request that is streamed is so from one byte on, in whichever pieces the bytes come.
pub fn request_streams_from()
    ensures { streamed.RequestStreamsFrom }
{}

/// A response that is streamed is so from one byte on, in whichever pieces the bytes come.
pub fn response_streams_from()
    ensures { streamed.ResponseStreamsFrom }
{}

/// Bytes that follow do not move the byte from which on a message is streamed.
pub fn place_stays()
    ensures { streamed.PlaceStays }
{}

/// Of a request that is not streamed no more bytes of its body were heard than are allowed.
pub fn request_keeps_little()
    ensures { streamed.RequestKeepsLittle }
{}

/// Of a response that is not streamed no more bytes of its body were heard than are allowed.
pub fn response_keeps_little()
    ensures { streamed.ResponseKeepsLittle }
{}

/// The server's close changes nothing of whether a response is streamed.
pub fn close_changes_nothing()
    ensures { streamed.CloseChangesNothing }
{}

/// What counts as heard of a request is the content that came so far.
pub fn request_heard_is_content()
    ensures { streamed.RequestHeardIsContent }
{}

/// What counts as heard of a response is the content that came so far.
pub fn response_heard_is_content()
    ensures { streamed.ResponseHeardIsContent }
{}
