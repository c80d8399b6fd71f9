//! Numbers that are drawn one after another behind a seed, the same each time.
#![tactic(auto)]

ghost use Rattle.std.specs.Prelude.{◌≡◌, ◌<◌, ◌^◌};
ghost use Rattle.draws.specs.Draws.{drawn, next_draw};

// The number behind another is that times this one, and the step, modulo 2^31.
const FACTOR: u64 = 1_103_515_245;

const STEP: u64 = 12_345;

const MODULUS: u64 = 1 << 31;

// What is drawn is the number divided by this.
const DIVISOR: u64 = 1 << 16;

/// Numbers that are drawn one after another, by the generator that the standard of C gives as its example, modulo 2^31.
#[derive(Clone, Copy, Debug, PartialEq, Eq)]
pub struct Draws {
    /// The number that was reached, below 2^31.
    pub number: u64,
}

impl Draws {
    /// Begins behind a seed. Only a seed below 2^31 may be drawn behind.
    pub fn new(seed: u32) -> Draws
        ensures { result.number ≡ seed }
    {
        Draws {
            number: u64::from(seed),
        }
    }

    /// Draws one, below 2^15.
    pub fn draw(&mut self) -> u32
        requires { self.old.number < 2 ^ 31 }
        ensures drawn { result ≡ drawn self.new.number }
        ensures next { self.new.number ≡ next_draw self.old.number }
        ensures below { self.new.number < 2 ^ 31 }
        ensures small { result < 2 ^ 15 }
    {
        self.number = (self.number * FACTOR + STEP) % MODULUS;
        (self.number / DIVISOR) as u32
    }
}
