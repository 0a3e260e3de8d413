// What the verbs of the three crates are to one another.
ghost use Rattle.std.specs.Prelude.{◌≡◌, ℕ, ◌<◌, ◌≤◌, [], ◌∷◌, length, pos, Ok as OkValue};
ghost use Rattle.j_definitions.specs.Array.{Array, IsNoun, tally};
ghost use Rattle.j_joining.specs.Joining.{append};
ghost use Rattle.j_places.specs.AxisPlaces.{numbers, take_axes, drop_axes};

/// Law: what `x {. y` takes, joined with what `x }. y` leaves, is y, for a number x within.
pub fn taking_laws()
    ensures { (x y front rest : Array) (k : ℕ) → numbers x ≡ OkValue (pos k ∷ []) → IsNoun y → 0 < length y.shape → k ≤ tally y.shape → take_axes x y ≡ OkValue front → drop_axes x y ≡ OkValue rest → append front rest ≡ OkValue y }
{}
