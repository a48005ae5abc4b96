//! Which texts are names, values and paths, and which numbers are statuses.
ghost use Rattle.httparse.specs.Grammar.{is_token};
ghost use Rattle.px_message.specs.Path.{is_path};
ghost use Rattle.px_message.specs.Status.{is_status};
ghost use Rattle.px_message.specs.Value.{is_value};
ghost use Rattle.px_examples.specs.Rows.{Hold};
ghost use Rattle.px_examples.specs.Valid.{names, paths, statuses, values};

/// Names.
pub fn names_are_tokens()
    ensures { Hold is_token names }
{}

/// Values.
pub fn values_are_told()
    ensures { Hold is_value values }
{}

/// Paths.
pub fn paths_are_told()
    ensures { Hold is_path paths }
{}

/// Statuses.
pub fn statuses_are_told()
    ensures { Hold is_status statuses }
{}
