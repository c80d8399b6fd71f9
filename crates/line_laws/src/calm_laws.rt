ghost use Rattle.std.specs.Prelude.{ℕ, List};
ghost use Rattle.console_model.specs.Tick.{tick};
ghost use Rattle.station_sim.specs.Calm.{AreMild, IsCalm};
ghost use Rattle.schedule_file.specs.Fates.{FatesByNumber};
ghost use Rattle.station_sim.specs.Line.{Line, happens, waited};

/// Between attempts a calm line stays calm: at a tick, and at records that fall due, as those that a round leaves.
#[tactic(auto, using(crate::proofs::Between::calm_tick))]
pub fn what_keeps_a_line_calm()
    ensures ticked { (f : FatesByNumber) → AreMild f → (w : Line) → IsCalm w → IsCalm (happens f (tick w.console) w) }
    ensures fell_due { (records : List (List ℕ)) (w : Line) → IsCalm w → IsCalm (waited records w) }
{}
