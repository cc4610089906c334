// The judgement of a sheet, 11 to 13, 16 to 19, 30 and 31: what reader, agreement test and drawer ask of it; and 23, of `nodes`, which the drawer does not ask.
ghost use Rattle.std.specs.Prelude.{◌≡◌, suc, ◌+◌, ◌≤◌, ◌<◌, length};
ghost use Rattle.std.proofs.Math.Option.{none, some};
ghost use Rattle.rules.specs.Basic.{or_else};
ghost use Rattle.rules.specs.declared.Kind.TheVariants.{E};
ghost use Rattle.rules.specs.Sheet.{count_of, entries_of};
ghost use Rattle.rules.specs.Judgement.{head, fault_at, left, scan, middle, tail, left_open, judge};
ghost use Rattle.sheet.specs.Fields.{entry_in, entries_in, Unpacked};
ghost use Rattle.sheet.specs.Told.{told, passed};
ghost use Rattle.rules.specs.Limits.{counted, last, limits_at};

use crate::layout::{above_of, count_of, kind_of, padding_of, streets_of, unpack, upper_of};
pub use crate::nodes::crowded;
use bits::sheet_size;
use rules::{Fault, Kind, Limit, Streets};
use street::places::LegalPlaces;
use street::{blank_limits, street_limits};

// The whole judgement of a sheet: its first fault, if any. One without a fault has its fields unpacked.
#[tactic(auto, unfolding(rules::specs::Judgement::judge, rules::specs::Basic::or_else, crate::specs::Told::told))]
pub fn inspect(s: &[u8], fields: &mut [u8]) -> Result<(), Fault>
    requires { 512 ≤ length fields.old }
    ensures { (result ≡ told (judge s.now)) × (judge s.now ≡ none → Unpacked s.now fields.new) }
{
    inspect_head(s)?;
    inspect_body(s, fields)
}

// 11, 12, 13: the node count, the track counts and the length.
#[tactic(auto, unfolding(rules::specs::Judgement::head, rules::specs::Judgement::wrong_count, rules::specs::Sheet::takes, rules::specs::Basic::or_else, rules::specs::Basic::keep, crate::specs::Told::told), using(crate::proofs::Heads::lower_few))]
pub fn inspect_head(s: &[u8]) -> Result<(), Fault>
    ensures { result ≡ told (head s.now) }
{
    if s.len() < 2 {
        return Err(Fault::Head);
    }
    let n = count_of(s);
    if n < 2 || 512 < n {
        return Err(Fault::Head);
    }
    if 3 < upper_of(s) {
        return Err(Fault::Tracks);
    }
    if s.len() != sheet_size(n) {
        return Err(Fault::Length);
    }
    Ok(())
}

// 16, 17, 30, 31 node by node, then 18 and 19, of a sheet whose head has no fault. Its fields are unpacked.
#[tactic(auto, unfolding(rules::specs::Judgement::middle, rules::specs::Judgement::tail, rules::specs::Basic::keep, rules::specs::Basic::or_else, rules::specs::Sheet::size, crate::specs::Told::told, crate::specs::Told::passed), using(crate::proofs::Heads::headed, crate::proofs::Heads::packed))]
pub fn inspect_body(s: &[u8], fields: &mut [u8]) -> Result<(), Fault>
    requires { (head s.now ≡ none) × (512 ≤ length fields.old) }
    ensures { (result ≡ told (or_else (middle s.now) (tail s.now))) × Unpacked s.now fields.new }
{
    let n = count_of(s);
    unpack(s, n, fields);
    let b = judge_nodes(&fields[..n], streets_of(s))?;
    if b != 0 {
        return Err(Fault::Open(n));
    }
    if padding_of(s, n) != 0 {
        return Err(Fault::Padding);
    }
    Ok(())
}

// 16, 17, 30, 31 at all nodes, leftmost first, with one look into the table of places for each; the nets open after them, where none holds.
// Which it is, is asked of the first node that is not legal.
fn judge_nodes(fields: &[u8], streets: Streets) -> Result<usize, Fault>
    ensures { result ≡ passed (scan streets.upper streets.lower 1 0 (entries_in fields.now)) (left_open 0 (entries_in fields.now)) }
{
    let legal = LegalPlaces::new(streets);
    let mut b = 0;
    for (i, &node) in fields.iter().enumerate() {
        let kind = kind_of(node);
        if !legal.allows(kind, above_of(node), b) {
            return Err(fault_at(streets, i + 1, node, b));
        }
        b = left_open(kind, b);
    }
    Ok(b)
}

// The nets open after a node, where b are open before it: one more after a B, one less after an E. Each test adds or takes 1 or 0, so that none needs a branch.
// That b is below 16 is asked here and in `fault_at`, and the kind goes beside b: b changes at each node, so that a type for it would be made anew at each.
#[tactic(auto, unfolding(rules::specs::Judgement::left))]
fn left_open(kind: Kind, b: usize) -> usize
    requires { (b < 16) × (kind ≡ E → 0 < b) }
    ensures { result ≡ left kind b }
{
    b + usize::from(kind == Kind::B) - usize::from(kind == Kind::E)
}

// 16, 17, 30 or 31, the first that holds at a node with these fields, before which b nets are open.
#[tactic(auto, unfolding(rules::specs::Judgement::fault_at, rules::specs::Judgement::broken, crate::specs::Told::kind_at, crate::specs::Told::above_at, rules::specs::Basic::keep, rules::specs::Basic::or_else))]
fn fault_at(streets: Streets, node: usize, fields: u8, b: usize) -> Fault
    requires few { b < 16 }
    requires fault { fault_at streets.upper streets.lower node b (entry_in fields) ≡ none → ⊥ }
    ensures { fault_at streets.upper streets.lower node b (entry_in fields) ≡ some result }
{
    let kind = kind_of(fields);
    let above = usize::from(above_of(fields));
    let open = counted(kind, b);
    if last(kind, open) <= above {
        return Fault::Position(node);
    }
    // A limit is broken where there is a fault.
    let Some(limit) = limits_at(kind, streets, above, open) else {
        unreachable!()
    };
    Fault::Street(limit, node)
}

// The nets open at a node, with its own if it has one, where b are open before it.
#[tactic(auto, unfolding(rules::specs::Limits::counted))]
pub fn counted(kind: Kind, b: usize) -> usize
    requires { b < 512 }
    ensures { (result ≡ counted kind b) × (result ≤ b + 1) }
{
    match kind {
        Kind::B => b + 1,
        Kind::M | Kind::E | Kind::N => b,
    }
}

// The last position at a node with b open nets: a blank can stand below all of them.
#[tactic(auto, unfolding(rules::specs::Limits::last))]
fn last(kind: Kind, b: usize) -> usize
    requires { b ≤ 16 }
    ensures { result ≡ last kind b }
{
    match kind {
        Kind::B | Kind::M | Kind::E => b,
        Kind::N => b + 1,
    }
}

// The limit that is broken at a node with so many of b wires above, if any.
#[tactic(auto, unfolding(rules::specs::Limits::limits_at, rules::specs::Limits::last))]
fn limits_at(kind: Kind, streets: Streets, above: usize, b: usize) -> Option<Limit>
    requires { above < last kind b }
    ensures { result ≡ limits_at kind streets.upper streets.lower (suc above) b }
{
    match kind {
        Kind::B | Kind::M | Kind::E => street_limits(streets.upper, streets.lower, above, b),
        Kind::N => blank_limits(streets.upper, streets.lower, above, b),
    }
}
