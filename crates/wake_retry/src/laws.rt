ghost use Rattle.std.specs.Prelude.{◌<◌, ℕ};
ghost use Rattle.wake_retry.specs.OneEnd.{EndsAnswer, EndsSettling, EndsWake};
ghost use Rattle.wake_retry.specs.Bounds.{BoundsAnswer, BoundsSettling, BoundsWake};

/// What was said and heard tells where a part of it ends, and how: no part of a kind is the front of a longer one
/// of that kind, and none ends in two ways.
pub fn parts_end_once()
    ensures answer { (quiets size : ℕ) → 0 < quiets → EndsAnswer quiets size }
    ensures settling { (quiets : ℕ) → 0 < quiets → EndsSettling quiets }
    ensures wake { (tries : ℕ) → EndsWake tries }
{}

/// How many bytes a part of a talk hears and says at most, whatever the console does.
pub fn parts_are_bounded()
    ensures answer { (quiets size : ℕ) → BoundsAnswer quiets size }
    ensures settling { (quiets : ℕ) → BoundsSettling quiets }
    ensures wake { (tries : ℕ) → BoundsWake tries }
{}
