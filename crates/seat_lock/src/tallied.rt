//! States that count.

ghost use Rattle.std.specs.Prelude.{ℕ};

/// A state that has a tally at each seat number, and an origin that no seat may change.
pub trait Tallied {
    /// The tally at a seat number.
    ghost tally: { Self → ℕ → ℕ };

    /// Two states have one origin.
    ghost one_origin: { Self → Self → Type 0 };

    /// A state has one origin with itself.
    ghost reflexive: { (x : Self) → one_origin x x };

    /// To have one origin goes both ways.
    ghost symmetric: { (x y : Self) → one_origin x y → one_origin y x };

    /// States that have one origin with another have one with each other.
    ghost transitive: { (x y z : Self) → one_origin x y → one_origin y z → one_origin x z };
}
