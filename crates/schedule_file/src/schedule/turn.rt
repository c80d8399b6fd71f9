ghost use Rattle.std.specs.Prelude.{◌≡◌};
ghost use Rattle.schedule_file.specs.Kinds.{is_in_round, is_neither};

// Which of `open` and `round` came last, if one came.
#[derive(Clone, Copy)]
pub enum Turn {
    Neither,
    Opening,
    InRound,
}

impl Turn {
    pub fn is_in_round(&self) -> bool
        ensures { result ≡ is_in_round self.now }
    {
        match self {
            Turn::InRound => true,
            _ => false,
        }
    }

    pub fn is_neither(&self) -> bool
        ensures { result ≡ is_neither self.now }
    {
        match self {
            Turn::Neither => true,
            _ => false,
        }
    }
}
