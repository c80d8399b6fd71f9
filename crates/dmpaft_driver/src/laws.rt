ghost use Rattle.std.specs.Prelude.{◌≡◌, Option};
ghost use Rattle.station_base.specs.CivilMinute.{CivilMinute};
ghost use Rattle.dmpaft_driver.specs.declared.limits.TheConstants.{MOST_HEARD, MOST_SAID};
ghost use Rattle.dmpaft_driver.specs.Bounds.{AttemptsAreBounded, most_heard, most_said};
ghost use Rattle.dmpaft_driver.specs.Exact.{Sound, Complete, Stuck};
ghost use Rattle.dmpaft_driver.specs.OneAttempt.{OneAttempt, OneFront, AcknowledgedAreKept, TakenAreAcknowledged};
ghost use Rattle.dmpaft_driver.specs.OneAttempt.{TakenWereHeard};
ghost use Rattle.dmpaft_driver.specs.Trial.{OneTrial};

/// What was said and heard tells which pages were taken, which of them were acknowledged, and how an attempt ended.
/// The pages stand in what was heard. The batches of acknowledged pages were handed over before all others, and each of
/// them was kept.
pub fn attempts_end_once()
    ensures whole { OneAttempt }
    ensures front { OneFront }
    ensures heard { TakenWereHeard }
    ensures acknowledged { TakenAreAcknowledged }
    ensures kept { AcknowledgedAreKept }
{}

/// A pump that has ended has taken an attempt, and an attempt ends the pump that takes it, and not before. An item that
/// a pump does not allow goes on with no attempt in which each batch is kept. So a trial has one answer.
pub fn a_pump_takes_attempts()
    ensures sound { (after : Option CivilMinute) → Sound after }
    ensures complete { (after : Option CivilMinute) → Complete after }
    ensures stuck { (after : Option CivilMinute) → Stuck after }
    ensures trial { (after : Option CivilMinute) → OneTrial after }
{}

/// Whatever the console does, an attempt hears at most `MOST_HEARD` bytes and says at most `MOST_SAID`.
pub fn an_attempt_is_bounded()
    ensures bounded { AttemptsAreBounded }
    ensures heard { MOST_HEARD ≡ most_heard }
    ensures said { MOST_SAID ≡ most_said }
{}
