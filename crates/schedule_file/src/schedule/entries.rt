ghost use Rattle.std.specs.Prelude.{◌≡◌, ◌≤◌, ℕ, false, map, None};
ghost use Rattle.schedule_file.specs.InOrder.{last_number};
ghost use Rattle.schedule_file.specs.Lists.{entry_of};
ghost use Rattle.schedule_file.specs.Steps.{lates_seen, mid_seen};
ghost use Rattle.schedule_file.specs.Kinds as specs;

use crate::fates::Fates;

impl Fates {
    // Whether the reply of a number has a lateness.
    #[tactic(auto, using(crate::proofs::Entries::lates_listed))]
    pub(crate) fn has_lateness(&self, number: u32) -> bool
        ensures listed { result ≡ specs.is_listed (lates_seen self.now.lates.entries) number }
        ensures none { result ≡ false → entry_of number self.now.lates.entries ≡ None }
    {
        self.lates.contains_key(&number)
    }

    // Whether the number is below that of the last record that falls due.
    pub(crate) fn is_below_last(&self, number: u32) -> bool
        ensures seen { (period : ℕ) → result ≡ specs.is_below_last (map (mid_seen period) self.now.mids.items) number }
        ensures behind { result ≡ false → last_number (λ m. m.number) 0 self.now.mids.items ≤ number }
    {
        match self.mids.last() {
            Some(mid) => number < mid.number,
            None => false,
        }
    }
}
