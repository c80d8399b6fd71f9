ghost use Rattle.std.specs.Prelude.{◌≡◌, ◌+◌, ◌-◌, ◌^◌, ◌≤◌, min};

/// A count of faults, quiet waits or shortages after one more. It stops at 2^64 - 1.
pub fn raised(count: u64) -> u64
    ensures exact { result ≡ min (count + 1) (2 ^ 64 - 1) }
    ensures never_falls { count ≤ result }
{
    count.saturating_add(1)
}
