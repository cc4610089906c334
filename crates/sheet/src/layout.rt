// The layout of a sheet's bits, which nobody else who reads sheets counts: its head, the fields of its nodes, and the bits behind them.
ghost use Rattle.std.specs.Prelude.{◌≡◌, ◌≤◌, ◌<◌, length};
ghost use Rattle.std.proofs.Math.Option.{none};
ghost use Rattle.rules.specs.Sheet.{upper_of, lower_of, count_of, padding_of};
ghost use Rattle.rules.specs.Judgement.{head};
ghost use Rattle.sheet.specs.Fields.{entry_in, fields_of, filled, Packed, Unpacked};
ghost use Rattle.sheet.specs.Told.{kind_at, above_at};

use bits::get_bits;
use rules::{Kind, Streets};

// Ku. It, Kl, the streets and the count ask for the two bytes that they stand in, each for itself: a sheet is bytes that are lent, and a type for two bytes or
// more would be made for these four alone.
#[tactic(auto, unfolding(rules::specs::Sheet::upper_of))]
pub fn upper_of(s: &[u8]) -> u8
    requires { 2 ≤ length s.now }
    ensures { (result ≡ upper_of s.now) × (result < 16) }
{
    get_bits(s, 0, 4) as u8
}

// Kl.
#[tactic(auto, unfolding(rules::specs::Sheet::lower_of))]
pub fn lower_of(s: &[u8]) -> u8
    requires { 2 ≤ length s.now }
    ensures { (result ≡ lower_of s.now) × (result < 4) }
{
    get_bits(s, 4, 2) as u8
}

// The streets.
#[tactic(auto, using(crate::proofs::Heads::lower_few))]
pub(crate) fn streets_of(s: &[u8]) -> Streets
    requires { (2 ≤ length s.now) × (upper_of s.now ≤ 3) }
    ensures { (result.upper ≡ upper_of s.now) × (result.lower ≡ lower_of s.now) }
{
    Streets {
        upper: upper_of(s),
        lower: lower_of(s),
    }
}

// The number of nodes.
#[tactic(auto, unfolding(rules::specs::Sheet::count_of))]
pub fn count_of(s: &[u8]) -> usize
    requires { 2 ≤ length s.now }
    ensures { (result ≡ count_of s.now) × (result < 1024) }
{
    get_bits(s, 6, 10) as usize
}

// The kinds of all kind fields that a byte has room for, of which a sheet has the first four.
static KINDS: [Kind; 16] = [
    Kind::B,
    Kind::M,
    Kind::E,
    Kind::N,
    Kind::N,
    Kind::N,
    Kind::N,
    Kind::N,
    Kind::N,
    Kind::N,
    Kind::N,
    Kind::N,
    Kind::N,
    Kind::N,
    Kind::N,
    Kind::N,
];

// The kind of a node with these fields. From a table: with a match on the kind field the inspection takes 34 instructions a node for 31, over the limit of 33.
// Fields are a byte as `unpack` leaves it in lent memory: this and `above_of` take any byte, where an `Entry` of the writer is below 64.
#[tactic(auto, unfolding(crate::specs::Told::kind_at, crate::specs::Fields::entry_in, rules::specs::Sheet::kind_in))]
pub fn kind_of(fields: u8) -> Kind
    ensures { result ≡ kind_at (entry_in fields) }
{
    KINDS[usize::from(fields / 16)]
}

// How many wires a node with these fields has above its own, or above it, where it is a blank.
#[tactic(auto, unfolding(crate::specs::Told::above_at, crate::specs::Fields::entry_in))]
pub fn above_of(fields: u8) -> u8
    ensures above { result ≡ above_at (entry_in fields) }
    ensures few { result < 16 }
{
    fields % 16
}

// Unpacks the fields of a sheet's n nodes to a byte each, lent by the caller: 16 times the kind field, plus the position field, as they stand in the sheet.
// The count goes beside the sheet, here, in `unpack_fours` and in `padding_of`: it is read once and handed on.
pub fn unpack(s: &[u8], n: usize, fields: &mut [u8])
    requires { Packed s.now n fields.old }
    ensures { Unpacked s.now fields.new }
{
    // By index: the number says where the field is, too.
    for i in unpack_fours(s, n, fields)..n {
        fields[i] = get_bits(s, 16 + 6 * i, 6) as u8;
    }
}

// Unpacks the nodes four by four, each four from three bytes, as far as there are four, and returns how many nodes that are.
// They are written by index: of bytes that chunks_exact_mut lends, a proof knows only how many there are. The sheet's bytes are read by index too: of chunks of
// three the last could have padding.
fn unpack_fours(s: &[u8], n: usize, fields: &mut [u8]) -> usize
    requires { Packed s.now n fields.old }
    ensures { (result ≤ n) × (fields.new ≡ filled (fields_of s.now n) fields.old result) }
{
    let fours = n / 4;
    for k in 0..fours {
        let a = s[3 * k + 2];
        let b = s[3 * k + 3];
        let c = s[3 * k + 4];
        fields[4 * k] = a / 4;
        fields[4 * k + 1] = a % 4 * 16 + b / 16;
        fields[4 * k + 2] = b % 16 * 4 + c / 64;
        fields[4 * k + 3] = c % 64;
    }
    4 * fours
}

// The bits behind the n nodes of a sheet of the right length, as one number.
#[tactic(auto, unfolding(rules::specs::Sheet::size), using(crate::proofs::Heads::headed, crate::proofs::Tails::padding_inside, crate::proofs::Tails::got_padding))]
pub fn padding_of(s: &[u8], n: usize) -> u16
    requires { (head s.now ≡ none) × (n ≡ count_of s.now) }
    ensures { result ≡ padding_of s.now }
{
    let at = 16 + 6 * n;
    get_bits(s, at, 8 * s.len() - at)
}
