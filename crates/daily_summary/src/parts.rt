ghost use Rattle.std.specs.Prelude.{◌≡◌, ◌<◌, ◌↔◌, IfSome, IsSome, Some};
ghost use Rattle.daily_summary.specs.Parts.{entry_at, summary_part, AreTyped, part_count};
ghost use Rattle.daily_summary.specs.Running.{AreRunning, running_summary};
ghost use Rattle.daily_summary.specs.WellFormed.{AreParts, IsStoredAs};
ghost use Rattle.daily_summary.specs.declared.summary.DaySummary.{DaySummary};

use crate::entry::{ENTRY, entry_in, entry_of, is_blank};
use crate::running::RunningSummary;
use crate::summary::DaySummary;
use station_base::{FIELD_COUNT, MOST_ROWS};

/// In how many parts a summary is stored.
pub const PART_COUNT: usize = 13;

/// The bytes of a part.
pub const PART_SIZE: usize = FIELDS_OF_PART * ENTRY;

/// The bytes of all parts.
pub const PARTS_SIZE: usize = PART_COUNT * PART_SIZE;

const FIELDS_OF_PART: usize = 3;

impl DaySummary {
    /// The summary of so many rows whose 13 parts stand one behind another. None exactly where an entry of count 0 is
    /// not all 0, an entry past the last field is not all 0, words of an entry with a count are no stamp, or a number is
    /// beyond its bounds.
    pub fn from_parts(rows: u32, parts: &[u8; PARTS_SIZE]) -> Option<DaySummary>
        ensures well_formed { IsSome result ↔ AreParts rows parts.now }
        ensures found { IfSome result (IsStoredAs rows parts.now) }
        ensures only { (s : DaySummary) → AreTyped s → IsStoredAs rows parts.now s → result ≡ Some s }
    {
        if rows > MOST_ROWS {
            return None;
        }
        let mut fields = [None; FIELD_COUNT];
        for field in 0..FIELD_COUNT {
            let place = ENTRY * field;
            fields[field] = entry_in(&parts[place..place + ENTRY], rows)?;
        }
        if !is_blank(&parts[FIELD_COUNT * ENTRY..]) {
            return None;
        }
        Some(DaySummary { fields, rows })
    }
}

impl RunningSummary {
    /// Part `k` of the summary as it is stored: the entries of the fields `3 * k` to `3 * k + 2`, each of 44 bytes, and
    /// zeros in place of an entry past the last field. There are 13 parts. (The layout is this project's own.)
    pub fn part(&self, k: u8) -> [u8; PART_SIZE]
        requires part { k < part_count }
        requires running { AreRunning self.now }
        ensures { result ≡ summary_part k (running_summary self.now) }
    {
        let mut part = [0; PART_SIZE];
        for place in 0..FIELDS_OF_PART {
            let field = FIELDS_OF_PART * usize::from(k) + place;
            let start = ENTRY * place;
            part[start..start + ENTRY].copy_from_slice(&self.entry(field));
        }
        part
    }

    // The entry of a field; zeros past the last.
    #[tactic(auto, unfolding(crate::specs::Parts::entry_at))]
    fn entry(&self, field: usize) -> [u8; ENTRY]
        requires { AreRunning self.now }
        ensures { result ≡ entry_at field (running_summary self.now) }
    {
        if field >= FIELD_COUNT {
            return [0; ENTRY];
        }
        entry_of(&self.fields[field].sum(self.rows, self.seconds))
    }
}
