//! Laws. Each function does nothing; what it ensures is the law.
ghost use Rattle.px_draft.specs.Laws.{Base64IsRead, ChangesStayAtTheirMessage, LinesFollow, NoChangeIsTheFlow, PiecesMakeOne, RefusalChangesNothing};

/// A law: the base64 of bytes is read as these bytes, and no other text is.
pub fn base64_is_read()
    ensures { Base64IsRead }
{}

/// A law: a draft that no line has changed has the flow that it was made of.
pub fn no_change_is_the_flow()
    ensures { NoChangeIsTheFlow }
{}

/// A law: behind a line that is refused the draft is as before, also in what `more` goes on with.
pub fn refusal_changes_nothing()
    ensures { RefusalChangesNothing }
{}

/// A law: lines that follow others change what these made.
pub fn lines_follow()
    ensures { LinesFollow }
{}

/// A law: a field or a body that comes in pieces, by `more`, is that of one line with the whole.
pub fn pieces_make_one()
    ensures { PiecesMakeOne }
{}

/// A law: whatever lines come, the flow of a draft differs from the one that it was made of in the message that the hook is about, and of that in
/// its method, its host, its port, its path, its status, its reason, its fields and its body.
pub fn changes_stay_at_their_message()
    ensures { ChangesStayAtTheirMessage }
{}
