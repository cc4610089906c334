// The reader: from a sheet back to a row, whose labels number the nets 0, 1, 2 in the order of their first nodes and are 255 at blanks.
ghost use Rattle.std.specs.Prelude.{◌≡◌, ◌≤◌, length};
ghost use Rattle.rules.specs.Answers.{written};
ghost use Rattle.sheet.specs.Fields.{entry_in, row_in};
ghost use Rattle.sheet.specs.Told.{kind_at};
ghost use Rattle.sheet.specs.Walk.{Ready, label_on, after};
ghost use Rattle.sheet.specs.GivenBack.{GivenBack};

use crate::inspect::{inspect_body, inspect_head};
use crate::layout::{above_of, count_of};
use crate::nodes::Nodes;
use rules::{BLANK, Fault, Kind, ReadError, Reading};
use street::Order;

// Reads a sheet into a row. A row that is written fills the start of the buffer; a refused sheet leaves it as it was.
#[tactic(auto, unfolding(rules::specs::Answers::reading, rules::specs::Answers::row_after, rules::specs::Basic::settle, rules::specs::Basic::or_else, rules::specs::Basic::keep, rules::specs::Judgement::room, rules::specs::Judgement::judge, crate::specs::Told::told), using(crate::proofs::Heads::headed))]
pub fn read(s: &[u8], row: &mut [u8]) -> Reading
    ensures { GivenBack s.now row.old result row.new }
{
    inspect_head(s)?;
    let n = count_of(s);
    if row.len() < n {
        return Err(ReadError::RowShort);
    }
    // A byte for each node that a sheet can have: there is no heap.
    let mut fields = [0u8; 512];
    inspect_body(s, &mut fields)?;
    let nodes = Nodes::new(s, &fields);
    if nodes.crowded() {
        return Err(ReadError::Unfit(Fault::Nets));
    }
    write_row(nodes, row);
    Ok(n)
}

// Writes the row of nodes without a fault.
fn write_row(nodes: Nodes, row: &mut [u8])
    requires { length nodes.fields.now ≤ length row.old }
    ensures { row.new ≡ written (row_in nodes.entry.fields.now) row.old }
{
    let mut walk = Walk {
        order: Order::new(),
        begun: 0,
    };
    // The labels are written by index: of bytes that a zip with iter_mut writes, a proof knows only how many there are.
    for (i, &node) in nodes.fields.iter().enumerate() {
        row[i] = walk.touch(node);
    }
}

// A walk over the nodes: the order of the open nets, by their labels, and how many nets have begun.
#[derive(Drop)]
struct Walk {
    order: Order,
    begun: usize,
}

impl Walk {
    // Goes past a node with these fields, and returns the label of its net, or a blank's.
    #[tactic(auto, unfolding(crate::specs::Walk::label_on, crate::specs::Walk::after, rules::specs::Sheet::net_at, rules::specs::Sheet::label, rules::specs::Sheet::begun, rules::specs::Street::next, rules::specs::Limits::last, rules::specs::Limits::counted))]
    fn touch(&mut self, fields: u8) -> u8
        requires { Ready (entry_in fields) self.old }
        ensures label { result ≡ label_on self.old (entry_in fields) }
        ensures walk { self.new ≡ after self.old (entry_in fields) }
    {
        let above = above_of(fields) as usize;
        match kind_by_field(fields) {
            Kind::B => {
                let label = self.begun as u8;
                self.order = self.order.insert(above, label);
                self.begun += 1;
                label
            }
            Kind::M => self.order.label(above),
            Kind::E => {
                let label = self.order.label(above);
                self.order = self.order.remove(above);
                label
            }
            Kind::N => BLANK,
        }
    }
}

// The kind of a node with these fields, which `kind_of` has from a table. The walk matches on it, and a match on what a table gives is a jump through another table at each
// node, where this is a comparison or two.
#[tactic(auto, unfolding(crate::specs::Told::kind_at, crate::specs::Fields::entry_in, rules::specs::Sheet::kind_in))]
fn kind_by_field(fields: u8) -> Kind
    ensures { result ≡ kind_at (entry_in fields) }
{
    match fields / 16 {
        0 => Kind::B,
        1 => Kind::M,
        2 => Kind::E,
        _ => Kind::N,
    }
}
