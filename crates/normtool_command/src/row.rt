//! The rows of a table of records.

/// A character, its class, its mapping and the kind of that.
pub type Row = (char, u8, &'static [char], Kind);

/// A character, what it is mapped to, and what the mapper does with it.
pub type MapperRow = (char, &'static [char], Treatment);

/// The kind of mapping that a character has.
#[derive(Clone, Copy)]
pub enum Kind {
    /// None.
    Unmapped,
    /// A canonical mapping.
    Canonical,
    /// A canonical mapping that is excluded from composition.
    Excluded,
    /// A compatibility mapping.
    Compatibility,
}

/// What the mapper does with a character (UTS #46, section 4).
#[derive(Clone, Copy)]
pub enum Treatment {
    /// It maps the character to others.
    Mapped,
    /// It drops the character.
    Ignored,
    /// It replaces the character by U+FFFD.
    Disallowed,
}
