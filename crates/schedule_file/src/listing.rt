ghost use Rattle.std.specs.Prelude.{◌≡◌, ℕ, ◌+◌, ◌≤◌, ◌<◌, [], ◌∷◌, ◌++◌, map, vec_len, OnOk, OnErr, IfOk, None};
ghost use Rattle.archive_record.specs.Reading.{reading};
ghost use Rattle.schedule_file.specs.InOrder.{last_number};
ghost use Rattle.schedule_file.specs.Lists.{entry_of, with_entry};
ghost use Rattle.schedule_file.specs.Steps.{lates_seen, mid_seen};

use crate::fate::Fate;
use crate::fates::{Fates, Late, MOST_MIDS, MOST_WAITS, Mid};
use archive_record::Rec52;
use causes::OutOfMemory;
use std::alloc::Global;
use std::collections::BTreeMap;

impl Fates {
    /// Every message comes as it was sent, and no record falls due. No memory is taken.
    pub fn new(alloc: Global) -> Fates
        ensures host { result.host.entries ≡ [] }
        ensures replies { result.replies.entries ≡ [] }
        ensures lates { result.lates.entries ≡ [] }
        ensures mids { result.mids.items ≡ [] }
    {
        Fates {
            host: BTreeMap::new(alloc),
            replies: BTreeMap::new(alloc),
            lates: BTreeMap::new(alloc),
            mids: Vec::new(alloc),
        }
    }

    /// What becomes of the host's message of a number, which has no fate yet.
    pub fn host(&mut self, number: u32, fate: Fate) -> Result<(), OutOfMemory>
        requires first { 1 ≤ number }
        requires free { entry_of number self.old.host.entries ≡ None }
        ensures ok { OnOk result (self.new.host.entries ≡ with_entry self.old.host.entries number fate) }
        ensures err { OnErr result (self.new.host.entries ≡ self.old.host.entries) }
        ensures others { self.new ≡ record self.old { host = self.new.host } }
    {
        self.host.insert(number, fate)?;
        Ok(())
    }

    /// What becomes of the reply of a number, which has no fate yet.
    pub fn reply(&mut self, number: u32, fate: Fate) -> Result<(), OutOfMemory>
        requires first { 1 ≤ number }
        requires free { entry_of number self.old.replies.entries ≡ None }
        ensures ok { OnOk result (self.new.replies.entries ≡ with_entry self.old.replies.entries number fate) }
        ensures err { OnErr result (self.new.replies.entries ≡ self.old.replies.entries) }
        ensures others { self.new ≡ record self.old { replies = self.new.replies } }
    {
        self.replies.insert(number, fate)?;
        Ok(())
    }

    /// How late the reply of a number comes, which has no lateness yet: so many waits, at most 2, before a byte of it.
    #[tactic(auto, using(crate::proofs::Entries::lates_more))]
    pub fn late(&mut self, number: u32, waits: u8, place: u32) -> Result<(), OutOfMemory>
        requires first { 1 ≤ number }
        requires mild { waits ≤ MOST_WAITS }
        requires free { entry_of number self.old.lates.entries ≡ None }
        ensures ok { OnOk result (lates_seen self.new.lates.entries
            ≡ with_entry (lates_seen self.old.lates.entries) number (record { waits = waits; place = place })) }
        ensures err { OnErr result (self.new.lates.entries ≡ self.old.lates.entries) }
        ensures others { self.new ≡ record self.old { lates = self.new.lates } }
    {
        self.lates.insert(number, Late { waits, place })?;
        Ok(())
    }

    /// A record that falls due after the host's message of a number, which is not below that of the one before.
    #[tactic(auto, using(archive_record::proofs::Rows::reads_row, crate::proofs::InOrder::last_mid))]
    pub fn mid(&mut self, number: u32, rec: Rec52) -> Result<(), OutOfMemory>
        requires first { 1 ≤ number }
        requires few { vec_len self.old.mids < MOST_MIDS }
        requires behind { last_number (λ m. m.number) 0 self.old.mids.items ≤ number }
        ensures ok { (period : ℕ) → OnOk result (map (mid_seen period) self.new.mids.items
            ≡ map (mid_seen period) self.old.mids.items
            ++ record { number = number; record_read = reading rec period } ∷ []) }
        ensures err { OnErr result (self.new.mids.items ≡ self.old.mids.items) }
        ensures count { OnOk result (vec_len self.new.mids ≡ vec_len self.old.mids + 1) }
        ensures last { OnOk result (last_number (λ m. m.number) 0 self.new.mids.items ≡ number) }
        ensures host { self.new.host.entries ≡ self.old.host.entries }
        ensures replies { self.new.replies.entries ≡ self.old.replies.entries }
        ensures lates { self.new.lates.entries ≡ self.old.lates.entries }
    {
        let _bytes = rec.bytes();
        self.mids.push(Mid { number, rec })?;
        Ok(())
    }

    /// Fates with the same entries.
    pub fn copy(&self) -> Result<Fates, OutOfMemory>
        ensures host { IfOk result (λ copy. copy.host.entries ≡ self.now.host.entries) }
        ensures replies { IfOk result (λ copy. copy.replies.entries ≡ self.now.replies.entries) }
        ensures lates { IfOk result (λ copy. copy.lates.entries ≡ self.now.lates.entries) }
        ensures mids { IfOk result (λ copy. copy.mids.items ≡ self.now.mids.items) }
    {
        Ok(Fates {
            host: self.host.clone()?,
            replies: self.replies.clone()?,
            lates: self.lates.clone()?,
            mids: self.mids.clone()?,
        })
    }

    /// Every message comes as it was sent, and no record falls due. Memory is kept for others.
    pub fn clear(&mut self)
        ensures host { self.new.host.entries ≡ [] }
        ensures replies { self.new.replies.entries ≡ [] }
        ensures lates { self.new.lates.entries ≡ [] }
        ensures mids { self.new.mids.items ≡ [] }
    {
        self.host.clear();
        self.replies.clear();
        self.lates.clear();
        self.mids.clear();
    }
}
