// A node, whose column is x: at a B its wire is put in, a stub joins it to its pin, and at an E its last run ends and it is taken out; at a blank nothing is drawn.
ghost use Rattle.std.specs.Prelude.{◌≡◌, ◌<◌};
ghost use Rattle.rules.specs.declared.Kind.TheVariants.{B};
ghost use Rattle.slots.specs.Stamps.{columns};
ghost use Rattle.film.specs.Nodes.{Open, Joinable, Joined, Stubbed, Ended, Skipped};

use crate::moves::Plotter;
use crate::node::Node;
use crate::open_wires::Wire;
use slots::levels::{level_at, level_of_pins};
use slots::records::{put_across, put_wall};

impl Plotter<'_> {
    // Puts the wire of a new net in at column x, and draws its stub.
    pub fn begin(&mut self, node: Node, x: u16)
        requires { Joinable self.old.pen node x × (node.kind ≡ B) }
        ensures { Joined node x self.old self.new }
    {
        let level = level_at(node.upper, node.above + 1);
        let wire = Wire {
            net: self.pen.begun as u8,
            level,
            start: x,
        };
        self.pen.wires.insert(node.above, wire);
        self.pen.begun += 1;
        self.pass(node.above, x);
    }

    // Draws the stub of the wire with so many above it.
    pub fn pass(&mut self, above: usize, x: u16)
        requires { Open self.old.pen above x }
        ensures { Stubbed above x self.old self.new }
    {
        let wire = self.pen.wires.at(above);
        put_wall(
            self.film,
            self.pen.drawn,
            wire.net,
            x,
            level_of_pins(),
            wire.level,
        );
        self.pen.column = x + 1;
        self.pen.drawn += 1;
    }

    // Draws the stub and the last run of the wire with so many above it, and takes it out.
    pub fn end(&mut self, above: usize, x: u16)
        requires { Open self.old.pen above x }
        ensures { Ended above x self.old self.new }
    {
        self.pass(above, x);
        let wire = self.pen.wires.at(above);
        put_across(
            self.film,
            self.pen.drawn,
            wire.net,
            wire.level,
            wire.start,
            x,
        );
        self.pen.wires.remove(above);
        self.pen.drawn += 1;
    }

    // Goes past a blank, of which nothing is drawn.
    pub fn skip(&mut self, x: u16)
        requires { x < columns }
        ensures { Skipped x self.old self.new }
    {
        let column = x + 1;
        self.pen.column = column;
    }
}
