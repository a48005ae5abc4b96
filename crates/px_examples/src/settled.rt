//! Messages whose framing is made true to their bodies.
ghost use Rattle.std.specs.Prelude.{false};
ghost use Rattle.px_message.specs.Settle.{settled_request, settled_response, settled_streamed};
ghost use Rattle.px_examples.specs.Messages.{request_with, response_with};
ghost use Rattle.px_examples.specs.Rows.{Hold, before_stroke, behind_stroke, fields_in};
ghost use Rattle.px_examples.specs.Settled.{by_code, of_request, of_response, requests, responses, streamed, trailing};

/// Requests.
pub fn requests_are_settled()
    ensures { Hold (λ text. of_request (settled_request (request_with text))) requests }
{}

/// Responses of the code 200.
pub fn responses_are_settled()
    ensures { Hold (λ text. of_response (settled_response false (trailing (response_with 200 text)))) responses }
{}

/// Responses that can have no body.
pub fn responses_without_a_body_are_settled()
    ensures { Hold (λ of. of_response (settled_response of.1 (trailing (response_with of.0 of.2)))) by_code }
{}

/// The fields of messages whose bodies pass by.
pub fn streamed_messages_are_settled()
    ensures { Hold (λ text. settled_streamed (fields_in (behind_stroke text)) (fields_in (before_stroke text))) streamed }
{}
