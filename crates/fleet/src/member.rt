ghost use Rattle.fleet.specs.MemberTurns.{MemberTakesTurn, Turning};

use station_io::Sink;

/// How a turn of a member ended.
#[derive(Clone, Copy, Debug, PartialEq, Eq)]
pub enum MemberTurn {
    /// One turn was taken, and more is to come.
    More,
    /// The member has ended.
    Ended,
    /// A delivery was unseen, with which the member ended.
    Unseen,
    /// A write failed.
    WriteFault,
    /// The member found no memory.
    OutOfMemory,
}

/// One who takes turns, and writes in them.
pub trait Member {
    /// What is told of members of this kind.
    ghost turning: { Turning Self };

    /// Takes one turn.
    fn turn<K: Sink>(&mut self, out: &mut K) -> MemberTurn
        requires { turning.may_turn self.old }
        ensures { MemberTakesTurn turning K.outlet self.old out.old result self.new out.new };
}
