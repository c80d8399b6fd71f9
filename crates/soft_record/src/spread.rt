ghost use Rattle.std.specs.Prelude.{◌≡◌, ◌+◌, ◌<◌, ◌≤◌, [], ℤ, ◌+ℤ◌, List, length, pos, Some, IsSome, unsigned_abs};
ghost use Rattle.std.specs.Int.{int_max, int_min};
ghost use Rattle.soft_record.specs.IntervalEnd.{longest};
ghost use Rattle.soft_record.specs.Numbers.{greatest_of, least_of, mean_of, with_number};
ghost use Rattle.soft_record.specs.Readings.{IsPacketReading};

/// What numbers come to.
#[derive(Clone, Copy, Debug, PartialEq, Eq)]
pub struct Spread {
    /// How many there are.
    pub count: u16,
    /// Their sum.
    pub sum: i32,
    /// The least, and 0 if there is none.
    pub least: i32,
    /// The greatest, and 0 if there is none.
    pub greatest: i32,
}

impl Spread {
    ghost use Rattle.soft_record.specs.Spread.{IsSmall, IsSpreadOf, first_spread};

    /// Of no numbers.
    pub fn new() -> Spread
        ensures spread { IsSpreadOf [] result }
        ensures small { IsSmall result }
        ensures count { result.count ≡ 0 }
    {
        Spread {
            count: 0,
            sum: 0,
            least: 0,
            greatest: 0,
        }
    }

    /// With one more number, if it is there.
    pub fn with(self, number: Option<i32>) -> Spread
        requires few { self.count < longest }
        requires reading { IsPacketReading number }
        requires small { IsSmall self }
        ensures spread { (numbers : List ℤ) → IsSpreadOf numbers self → IsSpreadOf (with_number numbers number) result }
        ensures small { IsSmall result }
        ensures count { result.count ≤ self.count + 1 }
        ensures counted { IsSome number → result.count ≡ self.count + 1 }
    {
        let Some(number) = number else {
            return self;
        };
        if self.count == 0 {
            return Spread::first(number);
        }
        self.more(number)
    }

    // Of one number.
    fn first(number: i32) -> Spread
        ensures { result ≡ first_spread number }
    {
        Spread {
            count: 1,
            sum: number,
            least: number,
            greatest: number,
        }
    }

    // With one more number.
    fn more(self, number: i32) -> Spread
        requires few { self.count < longest }
        requires reading { unsigned_abs number ≤ 65535 }
        requires small { IsSmall self }
        ensures count { result.count ≡ self.count + 1 }
        ensures sum { result.sum ≡ self.sum +ℤ number }
        ensures least { result.least ≡ int_min self.least number }
        ensures greatest { result.greatest ≡ int_max self.greatest number }
    {
        Spread {
            count: self.count + 1,
            sum: self.sum + number,
            least: self.least.min(number),
            greatest: self.greatest.max(number),
        }
    }

    /// The mean, rounded towards the lesser number, if there is a number.
    #[tactic(auto, using(crate::proofs::RunningSums::mean_none, crate::proofs::RunningSums::mean_some))]
    pub fn mean(self) -> Option<i32>
        requires { IsSmall self }
        ensures mean { (numbers : List ℤ) → IsSpreadOf numbers self → result ≡ mean_of numbers }
        ensures reading { IsPacketReading result }
    {
        if self.count == 0 {
            return None;
        }
        Some(self.sum.div_euclid(i32::from(self.count)))
    }

    /// How many numbers there are.
    pub fn samples(self) -> Option<i32>
        ensures samples { (numbers : List ℤ) → IsSpreadOf numbers self → result ≡ Some (pos (length numbers)) }
        ensures reading { IsPacketReading result }
    {
        Some(i32::from(self.count))
    }

    /// The least, if there is a number.
    #[tactic(auto, using(crate::proofs::RunningSums::least_none, crate::proofs::RunningSums::least_some))]
    pub fn least(self) -> Option<i32>
        requires { IsSmall self }
        ensures least { (numbers : List ℤ) → IsSpreadOf numbers self → result ≡ least_of numbers }
        ensures reading { IsPacketReading result }
    {
        if self.count == 0 {
            return None;
        }
        Some(self.least)
    }

    /// The greatest, if there is a number.
    #[tactic(auto, using(crate::proofs::RunningSums::greatest_none, crate::proofs::RunningSums::greatest_some))]
    pub fn greatest(self) -> Option<i32>
        requires { IsSmall self }
        ensures greatest { (numbers : List ℤ) → IsSpreadOf numbers self → result ≡ greatest_of numbers }
        ensures reading { IsPacketReading result }
    {
        if self.count == 0 {
            return None;
        }
        Some(self.greatest)
    }
}
