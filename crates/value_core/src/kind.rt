//! The kinds of values.

ghost use Rattle.std.specs.Prelude.{◌≡◌};
ghost use Rattle.value_core.specs.Kinds.{sort_of};

/// What an element is.
#[derive(Clone, Copy, Debug, PartialEq, Eq)]
pub enum Elem {
    /// An integer from 0 to 4294967295.
    Integer,
    /// A text of at most 1,000 bytes from 32 to 126.
    Text,
}

/// What a part holds.
#[derive(Clone, Copy, Debug, PartialEq, Eq)]
pub enum Kind {
    /// So many elements, at most 1,024.
    Array(u16, Elem),
    /// At most 1,024 elements, the oldest first.
    Queue(Elem),
    /// At most 1,024 elements, each under a text.
    Table(Elem),
}

impl Kind {
    /// What its elements are.
    pub fn sort(&self) -> Elem
        ensures { result ≡ sort_of self.now }
    {
        match self {
            Kind::Array(_, sort) | Kind::Queue(sort) | Kind::Table(sort) => *sort,
        }
    }
}
