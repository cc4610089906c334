// The nodes of a sheet without a fault, and 23, which the drawer does not ask.
ghost use Rattle.std.specs.Prelude.{◌≡◌, ℕ, ltb};
ghost use Rattle.std.proofs.Math.Option.{none};
ghost use Rattle.rules.specs.Sheet.{upper_of, entries_of, begun_by};
ghost use Rattle.rules.specs.Judgement.{judge};
ghost use Rattle.sheet.specs.Fields.{entries_in, Unpacked, Faultless};

use crate::layout::{count_of, kind_of, streets_of};
use rules::{Kind, Streets};

// The nodes of a sheet without a fault, a byte each, and the sheet's streets.
#[derive(Clone, Copy)]
pub struct Nodes<'a> {
    pub streets: Streets,
    pub fields: &'a [u8],
    ghost clear: { Faultless streets.upper streets.lower fields.now },
}

impl<'a> Nodes<'a> {
    // Those of a sheet that was judged and unpacked.
    pub fn new(s: &[u8], fields: &'a [u8]) -> Nodes<'a>
        requires { (judge s.now ≡ none) × Unpacked s.now fields.now }
        ensures { (result.streets.upper ≡ upper_of s.now) × (entries_in result.fields.now ≡ entries_of s.now) }
    {
        let n = count_of(s);
        Nodes {
            streets: streets_of(s),
            fields: &fields[..n],
        }
    }

    // 23: whether they have more nets than there are labels for them.
    pub fn crowded(self) -> bool
        ensures { result ≡ ltb 255 (begun_by 0 (entries_in self.entry.fields.now)) }
    {
        crowded(self.fields)
    }
}

// 23, of fields that have no fault under some track counts, and so none under 3 and 3 (`faultless-widest`). A net has two nodes or more, so that 256 nets take
// all of 512 nodes, and each of these begins a net or ends one.
pub fn crowded(fields: &[u8]) -> bool
    requires { (ku : ℕ) × (kl : ℕ) × Faultless ku kl fields.now }
    ensures { result ≡ ltb 255 (begun_by 0 (entries_in fields.now)) }
{
    512 <= fields.len()
        && fields
            .iter()
            .all(|&node| matches!(kind_of(node), Kind::B | Kind::E))
}
