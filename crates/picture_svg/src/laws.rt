//! Laws of texts in XML. Each function computes nothing: its contract is a theorem.

ghost use Rattle.picture_svg.specs.Escaping.{TextsAreHeld};

/// Nothing that stands for a text ends it, ends an attribute or begins a tag, whatever the text is.
pub fn texts_are_held()
    ensures { TextsAreHeld }
{}
