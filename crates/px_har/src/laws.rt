//! Laws. Each function does nothing; what it ensures is the law.
ghost use Rattle.px_har.specs.Read.{CharactersTellBytes, ExportIsRead, PartsMakeIt};
ghost use Rattle.px_har.specs.Rows.{RowsHold};

/// A law: serde_json reads an export as its tree, where it does not run out of memory. It is so of all flows whose entries were
/// written.
pub fn export_is_read()
    ensures { ExportIsRead }
{}

/// A law: what stands in front of the entries, they themselves in their order, with a comma between two, and what stands behind them
/// make the export; and so does one entry more.
pub fn parts_make_the_export()
    ensures { PartsMakeIt }
{}

/// A law: bytes that stand as the same characters are the same bytes.
pub fn characters_tell_the_bytes()
    ensures { CharactersTellBytes }
{}

/// Rows: some bytes and some moments, and what they are.
pub fn rows_hold()
    ensures { RowsHold }
{}
