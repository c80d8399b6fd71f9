ghost use Rattle.std.specs.Prelude.{◌≡◌, ◌+◌, ◌≤◌, IfSome, int_lt, if◌then◌else◌};
ghost use Rattle.daily_summary.specs.Bounds.{IsSum, IsSumOf};
ghost use Rattle.daily_summary.specs.Joined.{value_count, joined, merged};
ghost use Rattle.station_base.specs.Limits.{most_rows};

use station_base::Stamp;

/// What the values of one field come to.
#[derive(Clone, Copy, Debug, PartialEq, Eq)]
pub struct FieldSum {
    /// The sum of the values, each times the seconds of its row's interval.
    pub wsum: i64,
    /// The least value.
    pub least: i32,
    /// The earliest stamp that has it.
    pub least_at: Stamp,
    /// The greatest value.
    pub greatest: i32,
    /// The earliest stamp that has it.
    pub greatest_at: Stamp,
    /// The sum of the values.
    pub sum: i64,
    /// How many values there are.
    pub count: u32,
    /// The sum of the seconds of their rows' intervals.
    pub sumtime: u64,
}

// Keeps the lesser of the least value and a later one, with its stamp, and of equal ones the earlier.
pub(crate) fn keep_least(least: &mut i32, least_at: &mut Stamp, value: i32, at: &Stamp)
    ensures value { least.new ≡ (if int_lt value least.old then value else least.old) }
    ensures stamp { least_at.new ≡ (if int_lt value least.old then at.now else least_at.old) }
{
    if value < *least {
        *least = value;
        *least_at = *at;
    }
}

// Keeps the greater of the greatest value and a later one, with its stamp, and of equal ones the earlier.
pub(crate) fn keep_greatest(greatest: &mut i32, greatest_at: &mut Stamp, value: i32, at: &Stamp)
    ensures value { greatest.new ≡ (if int_lt greatest.old value then value else greatest.old) }
    ensures stamp { greatest_at.new ≡ (if int_lt greatest.old value then at.now else greatest_at.old) }
{
    if *greatest < value {
        *greatest = value;
        *greatest_at = *at;
    }
}

impl FieldSum {
    // Adds what later values come to.
    fn join(&mut self, later: &FieldSum)
        requires earlier { IsSum self.old }
        requires later { IsSum later.now }
        requires few { self.old.count + later.now.count ≤ most_rows }
        ensures exact { self.new ≡ joined self.old later.now }
        ensures bounds { IsSum self.new }
    {
        keep_least(
            &mut self.least,
            &mut self.least_at,
            later.least,
            &later.least_at,
        );
        keep_greatest(
            &mut self.greatest,
            &mut self.greatest_at,
            later.greatest,
            &later.greatest_at,
        );
        self.sum += later.sum;
        self.count += later.count;
        self.wsum += later.wsum;
        self.sumtime += later.sumtime;
    }
}

// Adds what later values come to, if there are any.
pub(crate) fn merge(sum: &mut Option<FieldSum>, later: &Option<FieldSum>)
    requires earlier { IfSome sum.old IsSum }
    requires later { IfSome later.now IsSum }
    requires few { value_count sum.old + value_count later.now ≤ most_rows }
    ensures exact { sum.new ≡ merged sum.old later.now }
    ensures bounds { IfSome sum.new (IsSumOf (value_count sum.old + value_count later.now)) }
{
    let Some(later) = later else {
        return;
    };
    match sum {
        Some(sum) => sum.join(later),
        None => *sum = Some(*later),
    }
}
