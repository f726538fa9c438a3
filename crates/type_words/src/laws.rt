//! A law of types, which says in its own words what the definitions come to. The function does nothing: it is there for what it ensures.
ghost use Rattle.type_words.specs.TypeLaws.{ArePrintable};

/// Each byte of a type that a line adds, and of a character set that is named, is a space or a character that is seen: so neither ends a
/// line of a response.
pub fn types_are_printable()
    ensures { ArePrintable }
{}
