/// What a dump sends, from the first record on that was asked for (Davis serial manual, "Download Protocol").
#[derive(Clone, Copy, Debug, PartialEq, Eq)]
pub struct Plan {
    /// How many pages, from 0 to 513. The last may be the first page again, where the ring is full.
    pub pages: u16,
    /// Where in the first page the first record stands, from 0 to 4; 0 with no page.
    pub place: u16,
    /// Which page of the archive is the first, from 0 to 511; 0 with no page.
    pub first_page: u16,
}

impl Plan {
    ghost use Rattle.std.specs.Prelude.{◌≡◌};
    ghost use Rattle.console_ring.specs.Picture.{no_plan};

    // The dump of nothing.
    pub(crate) fn none() -> Plan
        ensures { result ≡ no_plan }
    {
        Plan {
            pages: 0,
            place: 0,
            first_page: 0,
        }
    }
}
