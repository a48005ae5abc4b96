//! Laws of an operator's lines. Each function does nothing; what it ensures is the law.
ghost use Rattle.px_view.specs.DeskLaws.{LinesAreCutFree, LinesAreWhole, LittleIsKept};
ghost use Rattle.px_view.specs.Laws.{WrittenIdIsRead};
ghost use Rattle.px_view.specs.Rows.{RowsHold};

/// A law: the number of a flow, as it is shown, names that flow in each order that takes one.
pub fn written_id_is_read()
    ensures { WrittenIdIsRead }
{}

/// Rows: some lines, and what they are.
pub fn rows_hold()
    ensures { RowsHold }
{}

/// A law: the lines of a connection, and where it stands, do not hang on how its bytes are cut.
pub fn lines_are_cut_free()
    ensures { LinesAreCutFree }
{}

/// A law: a line that is short enough is given whole, what has no line feed yet is kept, and a line that is too long is the last.
pub fn lines_are_whole()
    ensures { LinesAreWhole }
{}

/// A law: what is kept of a connection came behind its last line feed, and is shorter than a line may be.
pub fn little_is_kept()
    ensures { LittleIsKept }
{}
