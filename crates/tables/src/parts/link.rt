//! A link of a chain.

ghost use Rattle.std.specs.Prelude.{◌≡◌, ◌+◌, ◌<◌};
ghost use Rattle.tables.specs.Records.{LeadsTo};

/// The next record of a chain, or none. A link never leaves the store.
#[derive(Clone, Copy)]
pub(crate) struct Link {
    // 0 is none, 1 + r is record r, read and made in this file alone: an Option would read no plainer, and make a node of 12 bytes one of 14.
    to: u16,
}

impl Link {
    /// The link to no record.
    pub(crate) const NONE: Link = Link { to: 0 };

    /// The link to a record.
    pub(crate) fn new(r: usize) -> Link
        requires { r < 65535 }
        ensures { result.to ≡ r + 1 }
    {
        Link { to: (r + 1) as u16 }
    }

    /// Its record.
    pub(crate) fn record(self) -> Option<usize>
        ensures { LeadsTo self result }
    {
        self.to.checked_sub(1).map(usize::from)
    }
}
