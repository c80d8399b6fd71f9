ghost use Rattle.std.specs.Prelude.{◌≡◌, ◌≤◌, ◌-◌, ◌↔◌, IsTrue, length, take};
ghost use Rattle.crc_ccitt.specs.Check.{check, is_good, sealed};

use crate::sliced::crc;

/// Whether the bytes end with the check of those before, the high byte first.
#[inline(always)]
#[tactic(auto, unfolding(crate::specs::Check::is_good))]
pub fn is_good(frame: &[u8]) -> bool
    ensures exact { result ≡ is_good frame.now }
    ensures good { IsTrue result ↔ (check frame.now ≡ 0) }
    ensures sealed { IsTrue result → 2 ≤ length frame.now → frame.now ≡ sealed (take (length frame.now - 2) frame.now) }
{
    crc(frame) == 0
}

/// Makes the last two bytes the check of those before, the high byte first. Nothing else changes.
pub fn seal(frame: &mut [u8])
    requires { 2 ≤ length frame.old }
    ensures sealed { frame.new ≡ sealed (take (length frame.old - 2) frame.old) }
    ensures good { check frame.new ≡ 0 }
{
    let (body, check) = frame.split_at_mut(frame.len() - 2);
    check.copy_from_slice(&crc(body).to_be_bytes());
}
