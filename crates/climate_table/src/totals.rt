ghost use Rattle.std.specs.Prelude.{◌≡◌, ◌≤◌, ◌*◌, ◌^◌, length};
ghost use Rattle.std.specs.List.{AllByRecursion};
ghost use Rattle.climate_table.specs.Total.{IsFraction, TotalIsNear, thousandths, total_of};

/// A fraction of two whole numbers.
#[derive(Clone, Copy)]
pub struct Fraction {
    pub numerator: u64,
    pub denominator: u64,
}

/// The total of fractions of tenths of a degree. It is in thousandths: a hundred times each fraction is rounded down,
/// and these are added.
pub fn total(days: &[Fraction]) -> u64
    requires few { length days.now ≤ 366 }
    requires fractions { AllByRecursion IsFraction days.now }
    ensures total { result ≡ total_of days.now }
    ensures near { TotalIsNear (total_of days.now) days.now }
{
    let mut total = 0;
    for fraction in days {
        total += fraction.thousandths();
    }
    total
}

impl Fraction {
    // A hundred times the fraction, rounded down.
    pub(crate) fn thousandths(&self) -> u64
        requires { IsFraction self.now }
        ensures exact { result ≡ thousandths self.now }
        ensures small { result ≤ 100 * 2 ^ 48 }
    {
        100 * self.numerator / self.denominator
    }
}
