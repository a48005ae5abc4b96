//! Laws. Each function does nothing; what it ensures is the law.
ghost use Rattle.px_entry.specs.Laws.{PartsMakeTheEntry};

/// A law: of every text the parts that follow each other make it; none is larger than it may be, and exactly those at the end and behind it are
/// empty.
pub fn parts_make_the_entry()
    ensures { PartsMakeTheEntry }
{}
