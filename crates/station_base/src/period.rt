ghost use Rattle.std.specs.Prelude.{◌≡◌, ◌*◌};
ghost use Rattle.std.specs.Option.{SomeIff};
ghost use Rattle.station_base.specs.Period.{IsPeriod};

use std::marker::Model;

/// How many minutes lie between two archive records of a console: 1, 5, 10, 15, 30, 60 or 120, as its command SETPER
/// takes them (Davis serial manual).
#[derive(Clone, Copy, Debug, PartialEq, Eq, PartialOrd, Ord, Hash)]
pub struct Period {
    minutes: u16,
}

impl Model for Period {
    ghost use Rattle.std.specs.Prelude.{ℕ};
    ghost use Rattle.station_base.specs.Period.{IsPeriod};

    ghost Value = { ℕ };

    ghost view = { λ p. p.minutes };

    ghost invariant = { λ p. IsPeriod p.minutes };

    ghost inverse = { λ minutes. record { minutes = minutes } };
}

impl Period {
    /// The period of so many minutes, where a console has it.
    pub fn from_minutes(minutes: u16) -> Option<Period>
        ensures { SomeIff result (IsPeriod minutes) minutes }
    {
        match minutes {
            1 | 5 | 10 | 15 | 30 | 60 | 120 => Some(Period { minutes }),
            _ => None,
        }
    }

    /// One minute.
    pub fn shortest() -> Period
        ensures { result ≡ 1 }
    {
        Period { minutes: 1 }
    }

    /// In minutes.
    pub fn minutes(&self) -> u16
        ensures minutes { result ≡ self.now }
        ensures period { IsPeriod result }
    {
        self.minutes
    }

    /// In seconds.
    pub fn seconds(&self) -> u32
        ensures { result ≡ 60 * self.now }
    {
        60 * u32::from(self.minutes)
    }
}
