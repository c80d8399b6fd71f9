ghost use Rattle.std.specs.Prelude.{◌≡◌, ◌<◌, ◌≤◌, ◌*◌, ◌^◌, ℕ, [], All, None, IfSome, vec_len, slice_index_or};
ghost use Rattle.draws.specs.Draws.{next_draw};
ghost use Rattle.fleet.specs.OpenStations.{chosen, least_unseen, open_from};

use crate::member::{Member, MemberTurn};
use crate::numbered::Numbered;
use crate::pen::Pen;
use arrayvec::ArrayVec;
use draws::Draws;
use station_io::Sink;

/// The most stations that a fleet has.
pub const MOST_STATIONS: usize = 8;

/// Up to eight stations that take turns.
#[derive(Drop)]
pub struct Fleet<M> {
    members: Vec<M>,
    // The last answer of each station, and `Ended` behind them.
    last: [MemberTurn; MOST_STATIONS],
}

impl<M: Member> Fleet<M> {
    ghost use Rattle.fleet.specs.Crew.{StationIsOpen, CrewIsReady, OneTurn, crew_of};
    ghost use Rattle.fleet.specs.Log.{IsUncut, turns_left};
    ghost use Rattle.fleet.specs.TurnText.{TurnEntry};

    /// Takes a turn of this station, counted from 1. Each line that it writes has the station's number and a space before it.
    /// Behind a write that failed a part of the next number may stand.
    pub fn turn<K: Sink>(&mut self, station: u8, out: &mut K) -> MemberTurn
        requires ready { CrewIsReady M.turning (crew_of self.old) }
        requires not_ended { StationIsOpen (crew_of self.old) station }
        ensures turn { OneTurn M.turning K.outlet (crew_of self.old)
            (record { station = station; answer = result; before = out.old; after = out.new }) (crew_of self.new) }
        ensures ready { CrewIsReady M.turning (crew_of self.new) }
    {
        let place = usize::from(station - 1);
        let mut numbered = Numbered {
            out,
            digit: b'0' + station,
            pen: Pen::AtStart,
        };
        let answer = self.members[place].turn(&mut numbered);
        self.last[place] = answer;
        answer
    }

    /// A fleet of these members, of which none has taken a turn.
    #[tactic(auto, using(crate::proofs::NewCrew::left_few, crate::proofs::NewCrew::uncut_new))]
    pub fn new(members: Vec<M>) -> Fleet<M>
        requires few { vec_len members ≤ MOST_STATIONS }
        requires may_turn { All M.turning.may_turn members.items }
        ensures members { (crew_of result).members ≡ members.items }
        ensures last { (k : ℕ) → k < vec_len members
            → slice_index_or (crew_of result).last k MemberTurn.Ended ≡ MemberTurn.More }
        ensures ready { CrewIsReady M.turning (crew_of result) }
        ensures uncut { IsUncut (crew_of result).last }
        ensures left { (most : ℕ) → All (λ m. M.turning.left m < most) members.items
            → turns_left M.turning (crew_of result).members (crew_of result).last ≤ vec_len members * most }
    {
        let mut last = [MemberTurn::Ended; MOST_STATIONS];
        for place in 0..members.len() {
            last[place] = MemberTurn::More;
        }
        Fleet { members, last }
    }

    // The station whose turn it is by the next draw, if one has not ended.
    pub(crate) fn next_station(&self, draws: &mut Draws) -> Option<u8>
        requires ready { CrewIsReady M.turning (crew_of self.now) }
        requires below { draws.old.number < 2 ^ 31 }
        ensures none { result ≡ None → (open_from 1 (crew_of self.now).last ≡ []) × (draws.new ≡ draws.old) }
        ensures some { IfSome result (λ station. StationIsOpen (crew_of self.now) station
            × (station ≡ chosen (next_draw draws.old.number) (open_from 1 (crew_of self.now).last))
            × (draws.new.number ≡ next_draw draws.old.number)) }
        ensures below { draws.new.number < 2 ^ 31 }
    {
        let open = open_stations(&self.last);
        if open.is_empty() {
            return None;
        }
        let place = draws.draw() as usize % open.len();
        Some(open[place])
    }

    // The least station that ended by a delivery that was unseen.
    pub(crate) fn first_unseen(&self) -> Option<u8>
        ensures { result ≡ least_unseen 1 (crew_of self.now).last }
    {
        for (index, answer) in self.last.iter().enumerate() {
            if let MemberTurn::Unseen = answer {
                return Some(index as u8 + 1);
            }
        }
        None
    }
}

// The numbers of the stations that have not ended.
fn open_stations(last: &[MemberTurn; MOST_STATIONS]) -> ArrayVec<u8, MOST_STATIONS>
    ensures { result.items ≡ open_from 1 last.now }
{
    let mut open = ArrayVec::new();
    for (index, answer) in last.iter().enumerate() {
        if let MemberTurn::More = answer {
            open.push(index as u8 + 1);
        }
    }
    open
}
