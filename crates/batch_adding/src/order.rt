ghost use Rattle.std.specs.Prelude.{◌≡◌};
ghost use Rattle.packed_rows.specs.Rising.{stamp_exceeds};

use station_base::Stamp;

/// Whether the stamp exceeds the one before, if there is one.
pub fn exceeds(last: Option<Stamp>, stamp: Stamp) -> bool
    ensures { result ≡ stamp_exceeds last stamp }
{
    last.is_none_or(|last| last < stamp)
}
