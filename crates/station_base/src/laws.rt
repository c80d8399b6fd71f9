ghost use Rattle.std.specs.Prelude.{◌≡◌, nat_lt};
ghost use Rattle.station_base.specs.CivilMinute.{CivilMinute, IsCivilMinute, minute_of};
ghost use Rattle.station_base.specs.Stamp.{date_word_of, time_word_of, words_exceed, stamp_text, stamp_of_text};

/// The order of two stamps' words is their order in time.
#[tactic(auto, using(crate::proofs::WordOrder::words_exceed_when_later))]
pub fn words_order_as_time()
    ensures { (a b : CivilMinute) → IsCivilMinute a → IsCivilMinute b
        → words_exceed (date_word_of a) (time_word_of a) (date_word_of b) (time_word_of b)
        ≡ nat_lt (minute_of a) (minute_of b) }
{}

/// Each stamp is read from its text.
#[tactic(auto, using(crate::proofs::StampTexts::stamp_read_back))]
pub fn text_names_stamp()
    ensures { (minute : CivilMinute) → IsCivilMinute minute → stamp_of_text (stamp_text minute) ≡ Some minute }
{}
