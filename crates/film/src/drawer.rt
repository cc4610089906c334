// From a sheet to a film: the records are counted first, and drawn once they are known to fit.
ghost use Rattle.std.specs.Prelude.{◌≡◌, ◌*◌, ◌≤◌, ◌<◌, length};
ghost use Rattle.sheet.specs.Fields.{entry_in};
ghost use Rattle.sheet.specs.Told.{above_at};
ghost use Rattle.film.specs.Stamps.{each};
ghost use Rattle.film.specs.Moves.{SameFilm, Started};
ghost use Rattle.film.specs.Walks.{NodeOf, Due, Visited, records_in, Lain, Drawn};

use crate::moves::Plotter;
use crate::node::Node;
use rules::{DrawError, Drawing, Kind};
use sheet::inspect::inspect;
use sheet::layout::{above_of, kind_of};
use sheet::nodes::Nodes;
use slots::levels::upper_at;

// The columns from one node to the next.
const PITCH: usize = 16;

// Draws the film of a sheet. The records fill the start of the film; a refusal leaves it as it was.
pub fn draw(s: &[u8], film: &mut [u8]) -> Drawing
    ensures { Drawn s.now film.old result film.new }
{
    // A byte for each node that a sheet can have: there is no heap.
    let mut fields = [0u8; 512];
    inspect(s, &mut fields)?;
    let nodes = Nodes::new(s, &fields);
    let count = count_records(nodes);
    if film.len() < 5 * count {
        return Err(DrawError::FilmShort);
    }
    lay(nodes, film);
    Ok(count)
}

// The number of records of a sheet's nodes: they are laid on no film.
fn count_records(nodes: Nodes) -> usize
    ensures { (result ≡ length (records_in nodes.entry.streets.upper nodes.entry.fields.now)) × (result ≤ each * 512) }
{
    let mut nothing: [u8; 0] = [];
    lay(nodes, &mut nothing)
}

// Lays the records of a sheet's nodes on a film, as far as it reaches, and counts them.
fn lay(nodes: Nodes, film: &mut [u8]) -> usize
    ensures { Lain nodes.entry.streets.upper nodes.entry.fields.now film.old result film.new }
{
    let mut plotter = Plotter::new(film);
    plotter.visit_all(nodes);
    plotter.pen.drawn
}

impl Plotter<'_> {
    // Draws a sheet's nodes, from the first on.
    fn visit_all(&mut self, nodes: Nodes)
        requires { Started self.old.pen }
        ensures same { SameFilm self.old self.new }
        ensures laid { Lain nodes.entry.streets.upper nodes.entry.fields.now self.old.film.now self.new.pen.drawn self.new.film.now }
    {
        let upper = usize::from(nodes.streets.upper);
        for (i, field) in nodes.fields.iter().enumerate() {
            self.visit(node_of(*field, upper), i);
        }
    }

    // Draws node i, from 0, and the moves before it.
    fn visit(&mut self, node: Node, i: usize)
        requires { Due self.old.pen node i }
        ensures { Visited node i self.old self.new }
    {
        self.cross(node);
        let x = (PITCH * i) as u16;
        match node.kind {
            Kind::B => self.begin(node, x),
            Kind::M => self.pass(node.above, x),
            Kind::E => self.end(node.above, x),
            Kind::N => self.skip(x),
        }
    }
}

// The node with these fields. It asks for Ku alone, which `upper_at` takes: of `Streets` each node would have Kl too, which does not count here.
fn node_of(fields: u8, ku: usize) -> Node
    requires { (ku ≤ 3) × (above_at (entry_in fields) ≤ 3) }
    ensures { NodeOf (entry_in fields) ku result }
{
    let kind = kind_of(fields);
    let above = usize::from(above_of(fields));
    Node {
        kind,
        upper: upper_at(kind, ku, above),
        above,
    }
}
