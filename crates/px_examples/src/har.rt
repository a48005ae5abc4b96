//! Exports in the format HAR 1.2.
ghost use Rattle.serde_json.specs.Data.{object};
ghost use Rattle.serde_json.specs.Written.{compact_text};
ghost use Rattle.px_har.specs.Entry.{body_value, query_value, request_value, response_value, text_value, times_end};
ghost use Rattle.px_har.specs.Export.{har_text};
ghost use Rattle.px_examples.specs.Har.{contents, exports, other_requests, queries, requests, responses, times};
ghost use Rattle.px_examples.specs.Messages.{request_with};
ghost use Rattle.px_examples.specs.Rows.{Hold};
ghost use Rattle.std.specs.Prelude.{[]};

/// Requests, by their fields and a body.
pub fn requests_are_exported()
    ensures { Hold (λ text. compact_text (request_value (request_with text))) requests }
{}

/// Requests whose body passed by or is no UTF-8.
pub fn other_requests_are_exported()
    ensures { Hold (λ request. compact_text (request_value request)) other_requests }
{}

/// Queries of paths.
pub fn queries_are_exported()
    ensures { Hold (λ path. compact_text (query_value path)) queries }
{}

/// Responses, and that there is none.
pub fn responses_are_exported()
    ensures { Hold (λ response. compact_text (response_value response)) responses }
{}

/// Contents of responses without a `Content-Type`, by their bodies.
pub fn contents_are_exported()
    ensures { Hold (λ body. compact_text (body_value (text_value []) body)) contents }
{}

/// Times.
pub fn times_are_exported()
    ensures { Hold (λ moments. compact_text (object (times_end moments))) times }
{}

/// Exports of no flow, of two, and of one.
pub fn flows_are_exported()
    ensures { Hold har_text exports }
{}
