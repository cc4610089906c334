// The sheet of nodes' kinds and the nets above them, written to the start of a buffer or of a part of one.
#![tactic(auto)]

pub mod entry;

ghost use Rattle.std.specs.Prelude.{◌≡◌, ◌+◌, ◌*◌, ◌/◌, ◌^◌, ◌≤◌, ◌<◌, length};
ghost use Rattle.rules.specs.Bits.{digits, bytes};
ghost use Rattle.rules.specs.Sheet.{sheet_bits, entry_bits};
ghost use Rattle.rules.specs.Answers.{written};
ghost use Rattle.writer.specs.Entered.{listed, head_bits, Entering, Writing, Laid, Started};

use entry::Entry;
use rules::Streets;

// Writes the sheet of nodes with these entries. What stands behind it in the buffer stays as it was.
// The buffer and the entries go on to `write_entries` and `write_fours` as they are lent.
pub fn write_sheet(buf: &mut [u8], entries: &[Entry], streets: Streets)
    requires { Writing buf.old entries.now }
    ensures { buf.new ≡ written (bytes (sheet_bits streets.upper streets.lower (listed entries.now))) buf.old }
{
    let n = entries.len();
    write_head(buf, streets, n);
    write_entries(buf, entries);
    let end = 16 + 6 * n;
    bits::put_bits(buf, end, 8 * bits::sheet_size(n) - end, 0);
}

// Writes the track counts and the number of nodes: 4 bits, 2 and 10.
fn write_head(buf: &mut [u8], streets: Streets, n: usize)
    requires { (n ≤ 512) × (2 ≤ length buf.old) }
    ensures { Laid buf.old 0 (head_bits streets.upper streets.lower n) buf.new }
{
    let upper = u16::from(streets.upper);
    let lower = u16::from(streets.lower);
    bits::put_bits(buf, 0, 16, upper * 4096 + (lower * 1024 + n as u16));
}

// Writes six bits a node behind the head.
fn write_entries(buf: &mut [u8], entries: &[Entry])
    requires { Entering buf.old entries.now }
    ensures { Laid buf.old 16 (entry_bits (listed entries.now)) buf.new }
{
    write_fours(buf, entries);
    // Where the first of the fields that are left stands, too.
    let done = entries.len() / 4 * 4;
    for (i, entry) in entries[done..].iter().enumerate() {
        bits::put_bits(buf, 16 + 6 * (done + i), 6, entry.six_bits() as u16);
    }
}

// Writes the nodes behind the head as long as four are left, which fill three bytes.
fn write_fours(buf: &mut [u8], entries: &[Entry])
    requires { Entering buf.old entries.now }
    ensures { Started buf.old entries.now (length entries.now / 4 * 4) buf.new }
{
    for (k, four) in entries.chunks_exact(4).enumerate() {
        bits::put_three(buf, 2 + 3 * k, four_bits(four));
    }
}

// The 24 bits of four nodes, which come as `chunks_exact` gives them: a slice with its length.
fn four_bits(four: &[Entry]) -> u32
    requires { length four.now ≡ 4 }
    ensures { (digits 24 result ≡ entry_bits (listed four.now)) × (result < 2 ^ 24) }
{
    let upper = four[0].six_bits() * 64 + four[1].six_bits();
    let lower = four[2].six_bits() * 64 + four[3].six_bits();
    upper * 4096 + lower
}
