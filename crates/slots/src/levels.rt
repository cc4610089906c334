// Levels: upper tracks are 1, 2, 3 going up, lower tracks −1, −2, −3 going down, the axis with its pins is 0.
ghost use Rattle.std.specs.Prelude.{◌≡◌, ◌+◌, ◌≤◌, ltb};
ghost use Rattle.rules.specs.Film.{axis, upper_at, height_at};

use rules::Kind;
use std::marker::Model;

// A level from −3 to 3. Contracts see it as its height, level + 4, of which the film's definition speaks.
#[derive(Clone, Copy, PartialEq, Eq, PartialOrd, Ord)]
pub struct Level(i8);

impl Model for Level {
    ghost use Rattle.std.specs.Prelude.{ℕ};

    ghost Value = { ℕ };

    ghost use Rattle.slots.specs.Levels.{height_of, OnTrack, of_height, of_height_ok};

    ghost view = { height_of };

    ghost invariant = { OnTrack };

    ghost inverse = { of_height };

    ghost inverse_ok = { of_height_ok };
}

// The level of the pins.
pub fn level_of_pins() -> Level
    ensures { result ≡ axis }
{
    Level(0)
}

// u, the number of wires in the upper street, at a node by its kind: the smaller of p and Ku, at a blank all wires above it.
// It asks of Ku alone that it is at most 3: `Streets` would ask the same of Kl, which does not count here.
pub fn upper_at(kind: Kind, ku: usize, above: usize) -> usize
    requires { (ku ≤ 3) × (above ≤ 3) }
    ensures { result ≡ upper_at kind ku above }
{
    match kind {
        Kind::N => above,
        _ => (above + 1).min(ku),
    }
}

// The level of the wire at position q, from 1, where u wires are in the upper street.
pub fn level_at(u: usize, q: usize) -> Level
    requires { (u ≤ 3) × (1 ≤ q) × (q ≤ u + 3) }
    ensures { result ≡ height_at u q }
{
    if q <= u {
        return Level((u - q + 1) as i8);
    }
    Level(-((q - u) as i8))
}

// Whether level b is above level a. Its contract compares heights; of `a < b` a caller's proof would have the order of signed levels.
pub fn rises(a: Level, b: Level) -> bool
    ensures { result ≡ ltb a b }
{
    a < b
}

// A level as the film's field has it.
impl From<Level> for u16 {
    ghost from_gives = { λ a r. (r ≡ a) × (r ≤ 7) };

    fn from(level: Level) -> u16 {
        (level.0 + 4) as u16
    }
}
