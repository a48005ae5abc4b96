//! The length of a body by its message's fields.
ghost use Rattle.std.specs.Prelude.{false, codes};
ghost use Rattle.px_message.specs.Length.{request_length, response_length};
ghost use Rattle.px_examples.specs.Lengths.{by_code, of_requests, of_responses};
ghost use Rattle.px_examples.specs.Rows.{Hold, fields_in};

/// Of requests.
pub fn lengths_of_requests()
    ensures { Hold (λ text. request_length (fields_in text)) of_requests }
{}

/// Of responses of the code 200.
pub fn lengths_of_responses()
    ensures { Hold (λ text. response_length 200 false (fields_in text)) of_responses }
{}

/// Of responses by their codes and whether HEAD was asked, with fields that frame badly.
pub fn lengths_by_code()
    ensures { Hold (λ of. response_length of.0 of.1 (fields_in (codes "Content-Length: x\nTransfer-Encoding: gzip"))) by_code }
{}
