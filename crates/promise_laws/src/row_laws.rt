ghost use Rattle.std.specs.Prelude.{ℕ, List};
ghost use Rattle.settings_file.specs.StationSettings.{StationSettings};
ghost use Rattle.replay_laws.specs.Kept.{Kept};
ghost use Rattle.replay_laws.specs.Replay.{Item};
ghost use Rattle.promise_laws.specs.Places.{SomeItem};
ghost use Rattle.promise_laws.specs.Rows.{HasMadeUpRow, HasStampTwice, HasLostRows, HasLostAcknowledged};

/// Nothing is made up: a run in which the archive ever has a row that is no record's is not kept.
pub fn no_row_is_made_up()
    ensures { (settings : StationSettings) (records : List (List ℕ)) (items : List Item)
        → SomeItem (HasMadeUpRow settings records) items → ¬ Kept settings records items }
{}

/// Nothing twice: nor is one in which the archive ever has a stamp twice, or a row out of order.
pub fn no_stamp_comes_twice()
    ensures { (settings : StationSettings) (records : List (List ℕ)) (items : List Item)
        → SomeItem HasStampTwice items → ¬ Kept settings records items }
{}

/// Nothing is lost: nor is one in which the archive ever lacks a row that it had, or has it at another place.
pub fn no_row_is_gone()
    ensures { (settings : StationSettings) (records : List (List ℕ)) (items : List Item)
        → SomeItem HasLostRows items → ¬ Kept settings records items }
{}

/// Nothing is lost: nor is one in which the archive ever has fewer rows than the last round kept.
pub fn no_acknowledged_row_is_gone()
    ensures { (settings : StationSettings) (records : List (List ℕ)) (items : List Item)
        → SomeItem HasLostAcknowledged items → ¬ Kept settings records items }
{}
