//! Changes of fields, and the elements of their values.
ghost use Rattle.std.specs.Prelude.{codes, [], ◌∷◌, ◌++◌};
ghost use Rattle.px_message.specs.Fields.{has_element, set_in, without};
ghost use Rattle.px_examples.specs.Fields.{added, closing, empty, removed, set};
ghost use Rattle.px_examples.specs.Rows.{Hold, fields_in};

/// A field is added.
pub fn fields_are_added()
    ensures { Hold (λ text. fields_in text ++ (codes "A", codes "2") ∷ []) added }
{}

/// All fields of a name are taken away.
pub fn fields_are_removed()
    ensures { Hold (λ text. without (codes "A") (fields_in text)) removed }
{}

/// A field is set.
pub fn fields_are_set()
    ensures { Hold (λ text. set_in (codes "A") (codes "2") (fields_in text)) set }
{}

/// The fields `Connection` have the element `close`.
pub fn values_have_elements()
    ensures { Hold (λ text. has_element (codes "Connection") (codes "close") (fields_in text)) closing }
{}

/// They have no empty element.
pub fn values_have_empty_elements()
    ensures { Hold (λ text. has_element (codes "Connection") [] (fields_in text)) empty }
{}
