// A node, as the pen goes to it.
ghost use Rattle.std.specs.Prelude.{◌≤◌};

use rules::Kind;

// A node of a sheet: its kind, the number of wires in the upper street, and of those above it.
#[derive(Clone, Copy)]
pub struct Node {
    pub kind: Kind,
    pub upper: usize,
    pub above: usize,
    ghost upper_few: { upper ≤ 3 },
}
