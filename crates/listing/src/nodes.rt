// The lines of a sheet's nodes.
ghost use Rattle.std.specs.Prelude.{◌≡◌, ◌+◌, ◌-◌, ◌≤◌, ◌<◌, length};
ghost use Rattle.rules.specs.Judgement.{left};
ghost use Rattle.sheet.specs.Fields.{entry_in, entries_in};
ghost use Rattle.listing.specs.Text.{letter, place_in, node_line, node_lines};
ghost use Rattle.listing.specs.Puts.{Room, Puts};

use crate::put::Text;
use rules::Kind;
use sheet::inspect::counted;
use sheet::layout::{above_of, kind_of};

impl Text<'_> {
    // Puts a line for each of a sheet's nodes, whose fields are in a byte each.
    pub fn list_nodes(&mut self, fields: &[u8])
        requires few { length fields.now ≤ 512 }
        requires room { Room (node_lines 1 0 (entries_in fields.now)) self.old }
        ensures { Puts (node_lines 1 0 (entries_in fields.now)) self.old self.new }
    {
        let mut nets = 0;
        for (i, &node) in fields.iter().enumerate() {
            self.list_node(i + 1, node, nets);
            nets = left_open(kind_of(node), nets);
        }
    }

    // Puts the line of a node with these fields, before which so many nets are open.
    // `nets < 512` is asked here and at left_open, as counted asks it: a sheet has at most 512 nodes. A type of its own would be made and opened again at each node.
    fn list_node(&mut self, number: usize, fields: u8, nets: usize)
        requires few { nets < 512 }
        requires room { Room (node_line number nets (entry_in fields)) self.old }
        ensures { Puts (node_line number nets (entry_in fields)) self.old self.new }
    {
        let kind = kind_of(fields);
        let word = [letter_of(kind)];
        let p = place_of(kind, above_of(fields));
        let b = counted(kind, nets);
        self.put_number(number, b' ');
        self.put_word(&word, b' ');
        self.put_number(p, b' ');
        self.put_number(b, b'\n');
    }
}

// The letter of a kind, as the byte that is put. A Display of a kind would have to be printed into bytes first.
#[tactic(auto, unfolding(crate::specs::Text::letter))]
fn letter_of(kind: Kind) -> u8
    ensures { result ≡ letter kind }
{
    match kind {
        Kind::B => b'B',
        Kind::M => b'M',
        Kind::E => b'E',
        Kind::N => b'N',
    }
}

// p of a node with so many wires above; at a blank the wires above, s.
#[tactic(auto, unfolding(crate::specs::Text::place_in))]
fn place_of(kind: Kind, above: u8) -> usize
    ensures { result ≡ place_in kind above }
{
    match kind {
        Kind::B | Kind::M | Kind::E => usize::from(above) + 1,
        Kind::N => usize::from(above),
    }
}

// The nets open after a node, where so many are open before it. `sheet` has one that counts without a branch and asks that an E finds a net open; here any
// sheet is listed.
#[tactic(auto, unfolding(rules::specs::Judgement::left))]
fn left_open(kind: Kind, nets: usize) -> usize
    requires { nets < 512 }
    ensures { (result ≡ left kind nets) × (result ≤ nets + 1) }
{
    match kind {
        Kind::B => nets + 1,
        Kind::E => nets.saturating_sub(1),
        Kind::M | Kind::N => nets,
    }
}
