//! Rules' texts, requests that ask for an answer as it is, and refused filters.
ghost use Rattle.px_filter.specs.Shown.{shown};
ghost use Rattle.px_rule.specs.Requests.{uncached, uncoded};
ghost use Rattle.px_examples.specs.Fields as fields;
ghost use Rattle.px_examples.specs.Parts.{one, parts_or_error, two};
ghost use Rattle.px_examples.specs.Rows.{Hold, fields_in};
ghost use Rattle.px_examples.specs.Shown as rows;

/// Parts of texts that may have one behind a filter.
pub fn texts_of_one_part_are_split()
    ensures { Hold (parts_or_error 1) one }
{}

/// Parts of texts that may have two.
pub fn texts_of_two_parts_are_split()
    ensures { Hold (parts_or_error 2) two }
{}

/// Requests that ask for no answer that is kept.
pub fn requests_are_uncached()
    ensures { Hold (λ text. uncached (fields_in text)) fields.uncached }
{}

/// Requests that ask for a body without a coding.
pub fn requests_are_uncoded()
    ensures { Hold (λ text. uncoded (fields_in text)) fields.uncoded }
{}

/// The lines that show a refused filter to a person.
pub fn refused_filters_are_shown()
    ensures { Hold (λ of. shown of.0 of.1) rows.shown }
{}
