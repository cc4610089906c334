// An open net where a node meets or ends it.
ghost use Rattle.std.specs.Prelude.{◌≤◌, ◌<◌};
ghost use Rattle.steps.specs.Ranks.{capacity};

use rules::Streets;

// The net's age, how many nets are open, and the streets that they lie in.
#[derive(Clone, Copy, Debug)]
pub struct Net {
    pub age: u8,
    pub count: u8,
    pub streets: Streets,
    ghost among: { age < count },
    ghost few: { count ≤ capacity },
}
