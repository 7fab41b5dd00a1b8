//! Which ends of calls end what is held.

/// Which ends of a call that ends a hold end it.
#[derive(Clone, Copy)]
pub enum HoldEnds {
    /// That of a done call alone: what a refused or a failed one would end is held on.
    ByDone,
    /// Any end. So it was before journals had a format.
    ByAny,
}
