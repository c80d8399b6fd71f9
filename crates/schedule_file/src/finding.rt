ghost use Rattle.std.specs.Prelude.{◌≡◌, ◌≤◌, Some, None, IfSome, IfNone};
ghost use Rattle.schedule_file.specs.Lists.{entry_of, late_in};

use crate::fate::Fate;
use crate::fates::Fates;

impl Fates {
    /// What becomes of the host's message of a number, if it does not come as it was sent.
    pub fn fate_of_message(&self, number: u32) -> Option<&Fate>
        ensures some { IfSome result (λ fate. entry_of number self.now.host.entries ≡ Some fate.now) }
        ensures none { IfNone result (entry_of number self.now.host.entries ≡ None) }
    {
        self.host.get(&number)
    }

    /// What becomes of the reply of a number, if it does not come as it was sent.
    pub fn fate_of_reply(&self, number: u32) -> Option<&Fate>
        ensures some { IfSome result (λ fate. entry_of number self.now.replies.entries ≡ Some fate.now) }
        ensures none { IfNone result (entry_of number self.now.replies.entries ≡ None) }
    {
        self.replies.get(&number)
    }

    /// How late the reply of a number comes: so many waits before the byte at a place.
    pub fn lateness(&self, number: u32) -> (u8, u32)
        ensures waits { result.0 ≡ (late_in self.now.lates.entries number).waits }
        ensures place { result.1 ≡ (late_in self.now.lates.entries number).place }
        ensures mild { result.0 ≤ 2 }
    {
        match self.lates.get(&number) {
            Some(late) => (late.waits, late.place),
            None => (0, 0),
        }
    }
}
