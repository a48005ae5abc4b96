//! Worked rows: what the definitions say of bodies as they come. Each function here does nothing, and what it ensures is computed.
ghost use Rattle.px_parts.specs.Rows.{Hold, code_rows, judged, judged_rows, of_code, sent, sent_rows};

/// What is sent of bodies in chunks, of a stated length and up to the close: line by line, before a fault, and with trailers.
pub fn bodies_are_sent()
    ensures { Hold sent sent_rows }
{}

/// Which bodies are streamed, and which responses by the code that they are sent with.
pub fn bodies_are_streamed()
    ensures judged { Hold judged judged_rows }
    ensures codes { Hold of_code code_rows }
{}
