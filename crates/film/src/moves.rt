// The gap before a node: wires going up move first, topmost first, then wires going down, bottommost first.
ghost use Rattle.std.specs.Prelude.{◌≡◌, Bool, true, suc, ◌+◌, ◌-◌, ◌≤◌, ◌<◌, length, [], ltb, ◌==◌};
ghost use Rattle.rules.specs.Film.{climb as climbing, sink as sinking, gap};
ghost use Rattle.film.specs.Wires.{wire_at};
ghost use Rattle.film.specs.Moves.{aim, Fitting, Able, Started, Stepped, Steady, Swept};

use crate::node::Node;
use crate::open_wires::Wires;
use rules::Kind;
use slots::levels::{Level, level_at, rises};
use slots::records::{put_across, put_wall};

// What the contracts of a gap ask, that a node fits so many wires (`Fitting`) and that so many more moves can be drawn (`Able`), changes from step to step,
// so that it is no invariant of a node or a pen.

// The open wires, the next free column, and the numbers of records drawn and of nets begun.
#[derive(Clone, Copy)]
pub struct Pen {
    pub wires: Wires,
    pub column: u16,
    pub drawn: usize,
    pub begun: usize,
}

// A pen over the bytes that are lent for the film. The film may be shorter than what is drawn, so that the pen counts the records and the film is no list.
#[derive(Drop)]
pub struct Plotter<'a> {
    pub film: &'a mut [u8],
    pub pen: Pen,
}

impl<'a> Plotter<'a> {
    // A film on which nothing is drawn, with no open wires.
    pub fn new(film: &'a mut [u8]) -> Plotter<'a>
        ensures same { result.film.ghost_name ≡ film.entry.ghost_name }
        ensures bytes { result.film.now ≡ film.old }
        ensures start { Started result.pen }
    {
        let pen = Pen {
            wires: Wires::new(),
            column: 1,
            drawn: 0,
            begun: 0,
        };
        Plotter { film, pen }
    }

    // Moves every wire to the level that it has at a node.
    pub fn cross(&mut self, node: Node)
        requires { Able self.old.pen (length self.old.pen.wires + length self.old.pen.wires) × Fitting node (length self.old.pen.wires) × (1 ≤ self.old.pen.column) }
        ensures { Swept (gap (aim node) (self.old.pen.column - 1) self.old.pen.wires) (length self.old.pen.wires + length self.old.pen.wires) self.old self.new }
    {
        if is_steady(&self.pen.wires, node) {
            return;
        }
        self.climb(node);
        self.sink(node);
    }

    // Moves the wires that go up, topmost first.
    fn climb(&mut self, node: Node)
        requires { Able self.old.pen (length self.old.pen.wires) × Fitting node (length self.old.pen.wires) }
        ensures { Swept (climbing (aim node) 0 self.old.pen.column self.old.pen.wires) (length self.old.pen.wires) self.old self.new }
    {
        for q in 0..self.pen.wires.len() {
            self.reach(node, q, rises);
        }
    }

    // Moves the wires that go down, bottommost first. The two loops stay two: the definition counts a climb from the top and a sink from the bottom, and
    // one loop over places in any order would be neither.
    fn sink(&mut self, node: Node)
        requires { Able self.old.pen (length self.old.pen.wires) × Fitting node (length self.old.pen.wires) }
        ensures { Swept (sinking (aim node) 0 self.old.pen.column self.old.pen.wires) (length self.old.pen.wires) self.old self.new }
    {
        for q in (0..self.pen.wires.len()).rev() {
            self.reach(node, q, falls);
        }
    }

    // Moves the wire with q above it to the level that it has at a node, where the test says that it goes there from its own.
    fn reach<F: Fn(Level, Level) -> bool>(&mut self, node: Node, q: usize, goes: F)
        requires { Able self.old.pen 1 × Fitting node (suc q) × (q < length self.old.pen.wires) × F.IsAlwaysCallable goes }
        ensures { (b : Bool) × F.post goes (wire_at self.old.pen.wires q).height (aim node q) b × Stepped b (aim node q) q self.old self.new }
    {
        let from = self.pen.wires.at(q).level;
        let to = target(node, q);
        if goes(from, to) {
            self.step(q, to);
        }
    }

    // Ends the run of the wire with q above it at the next free column, and moves it there to a level.
    fn step(&mut self, q: usize, level: Level)
        requires { Able self.old.pen 1 × (q < length self.old.pen.wires) }
        ensures { Stepped true level q self.old self.new }
    {
        let wire = self.pen.wires.at(q);
        put_across(
            self.film,
            self.pen.drawn,
            wire.net,
            wire.level,
            wire.start,
            self.pen.column,
        );
        put_wall(
            self.film,
            self.pen.drawn + 1,
            wire.net,
            self.pen.column,
            level,
            wire.level,
        );
        self.pen.wires.bend(q, level, self.pen.column);
        self.pen.column += 1;
        self.pen.drawn += 2;
    }
}

// Whether level b is below level a, by `rises`, which tells why not by `<`.
fn falls(a: Level, b: Level) -> bool
    ensures { result ≡ ltb b a }
{
    rises(b, a)
}

// Whether every wire has the level already that it has at a node: most gaps are so, and are passed over at once. The wires are taken by their places,
// by which `target` tells a level: with `iter().enumerate()`, which proves as well, the drawer takes 5 instructions a record more.
fn is_steady(wires: &Wires, node: Node) -> bool
    requires { Fitting node (length wires.now) }
    ensures { Steady node wires.now result }
{
    (0..wires.len()).all(
        |q|
            requires { (q < length wires.now) × Fitting node (suc q) }
            ensures { result ≡ (wire_at wires.entry.now q).height == aim node q }
        { wires.at(q).level == target(node, q) },
    )
}

// The level at a node of the wire that has q above it before: a new wire stands between those above it and those below.
fn target(node: Node, q: usize) -> Level
    requires { Fitting node (suc q) }
    ensures { result ≡ aim node q }
{
    match node.kind {
        Kind::B if node.above <= q => level_at(node.upper, q + 2),
        _ => level_at(node.upper, q + 1),
    }
}
