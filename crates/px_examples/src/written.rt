//! Messages written out.
ghost use Rattle.std.specs.Prelude.{true, false, codes, ◌++◌};
ghost use Rattle.px_message.specs.declared.version.Version.TheVariants.{Http11};
ghost use Rattle.px_write.specs.Error.{error_text};
ghost use Rattle.px_write.specs.Short.{short_response};
ghost use Rattle.px_write.specs.Text.{chunk_text, interim_text, last_chunk_text, request_text, response_text};
ghost use Rattle.px_write.specs.declared.form.Form.TheVariants.{Origin, Absolute};
ghost use Rattle.px_examples.specs.Messages.{request_with, response_with};
ghost use Rattle.px_examples.specs.Rows.{Hold, before_stroke, behind_stroke, fields_in};
ghost use Rattle.px_examples.specs.Written.{absolute, answers, answers_to_head, interim, requests, responses, short, streamed};

/// Requests to a server.
pub fn requests_are_written()
    ensures { Hold (λ text. request_text (request_with text) Origin) requests }
{}

/// Requests to another proxy.
pub fn absolute_requests_are_written()
    ensures { Hold (λ text. request_text (request_with text) Absolute) absolute }
{}

/// Responses, by their codes and whether HEAD was asked.
pub fn responses_are_written()
    ensures { Hold (λ of. response_text (response_with of.0 (codes "Transfer-Encoding: chunked|hi")) of.1) responses }
{}

/// Short responses.
pub fn short_responses_are_written()
    ensures { Hold (λ code. response_text (short_response code) false) short }
{}

/// Interim responses.
pub fn interim_responses_are_written()
    ensures { Hold (λ text. interim_text Http11 103 (before_stroke text) (fields_in (behind_stroke text))) interim }
{}

/// Bodies that pass by.
pub fn streamed_bodies_are_written()
    ensures { Hold (λ text. chunk_text (before_stroke text) ++ last_chunk_text (fields_in (behind_stroke text))) streamed }
{}

/// Answers to faults.
pub fn faults_are_answered()
    ensures { Hold (λ fault. error_text fault false) answers }
{}

/// Answers to faults where HEAD was asked.
pub fn faults_are_answered_to_head()
    ensures { Hold (λ fault. error_text fault true) answers_to_head }
{}
