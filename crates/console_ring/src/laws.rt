ghost use Rattle.std.specs.Prelude.{ℕ, ◌≡◌, ◌-◌, ◌<◌, ◌%◌, List, [], ◌∷◌, length, take, drop};
ghost use Rattle.console_ring.specs.declared.plan.Plan.{Plan};
ghost use Rattle.console_ring.specs.History.{retained, newer, IsHistory, ring_size};
ghost use Rattle.console_ring.specs.Picture.{last_number_in, plan_of, plan_of_last, page_of, IsLastIn};

/// What a slot shows is the last record that went into it.
pub fn slots_show_the_last()
    ensures { (count slot : ℕ) → slot < ring_size → slot < count → IsLastIn count slot (last_number_in count slot) }
{}

/// The records newer than any two words are the last of the archive, and the dump after these words is of them.
pub fn newer_records_are_the_last()
    ensures last { (history : List (List ℕ)) (date time : ℕ) → IsHistory history
        → let found = newer date time (retained history) in
        found ≡ drop (length history - length found) history }
    ensures plan { (history : List (List ℕ)) (date time : ℕ) → IsHistory history
        → plan_of history date time ≡ plan_of_last (length (newer date time (retained history))) (length history) }
{}

/// The first byte of a page is its number modulo 256 (Davis serial manual, "Download Protocol").
#[tactic(auto, unfolding(crate::specs::Picture::page_of))]
pub fn pages_tell_their_number()
    ensures { (history : List (List ℕ)) (plan : Plan) (page : ℕ)
        → take 1 (page_of history plan page) ≡ (page % 256) ∷ [] }
{}
