//! Worked rows: what the definitions say of lines. The function does nothing, and what it ensures is computed.
ghost use Rattle.px_draft.specs.Rows.{RowsHold};

/// Lines at each hook: what each is answered, and what the draft has behind them.
pub fn drafts_are_changed()
    ensures { RowsHold }
{}
