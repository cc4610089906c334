// Fields of up to 16 bits in bytes, most significant bit first, read and written with no loop: a field lies in the three bytes from the
// one that holds its first bit.
#![tactic(auto)]

ghost use Rattle.std.specs.Prelude.{◌≡◌, ◌+◌, ◌*◌, ◌/◌, ◌%◌, ◌^◌, ◌≤◌, ◌<◌, length, get_or, set};
ghost use Rattle.std.proofs.lemmas.List.Edits.{sets};
ghost use Rattle.rules.specs.Sheet.{size};
ghost use Rattle.bits.specs.Access.{Inside, Got, Put};
ghost use Rattle.bits.specs.Window.{Window, patched, bytes_of};

// The bytes of a sheet of n nodes: 16 bits of head, six a node, and no byte more than they need.
#[tactic(auto, unfolding(rules::specs::Sheet::size))]
pub fn sheet_size(n: usize) -> usize
    requires { n ≤ 512 }
    ensures { result ≡ size n }
{
    2 + (3 * n + 3) / 4
}

// The number in the field of `width` bits that starts at bit `at` of the bytes, most significant first.
pub fn get_bits(s: &[u8], at: usize, width: usize) -> u16
    requires { Inside s.now at width }
    ensures { Got s.now at width result }
{
    let after = 24 - at % 8 - width;
    cut(three(s, at), after, width)
}

// Writes `value` into the field of `width` bits that starts at bit `at` of the bytes, and changes no other bit.
pub fn put_bits(buf: &mut [u8], at: usize, width: usize, value: u16)
    requires inside { Inside buf.old at width }
    requires value_bound { value < 2 ^ width }
    ensures { Put buf.old at width value buf.new }
{
    let after = 24 - at % 8 - width;
    let old = three(buf, at);
    store_three(buf, at, patch(old, after, width, value));
}

// Writes a number of 24 bits over the three bytes from index i on. Its bound is asked for here, in `patch` and in `store_three`: a type of 24 bits would be made and
// taken apart at each of these calls.
pub fn put_three(buf: &mut [u8], i: usize, x: u32)
    requires i_in_bounds { i + 3 ≤ length buf.old }
    requires x_bound { x < 2 ^ 24 }
    ensures { Put buf.old (8 * i) 24 x buf.new }
{
    let [_, first, second, third] = x.to_be_bytes();
    // Not by `store_three`, which tests each place: here all three are asked for.
    buf[i] = first;
    buf[i + 1] = second;
    buf[i + 2] = third;
}

// The `width` bits of the number that stand above its low `after` bits.
fn cut(x: u32, after: usize, width: usize) -> u16
    requires { (after ≤ 24) × (width ≤ 16) }
    ensures { (result ≡ x / 2 ^ after % 2 ^ width) × (result < 2 ^ width) }
{
    ((x >> after) & ((1 << width) - 1)) as u16
}

// The number below 2^24 with `value` as the `width` bits above its low `after` bits.
fn patch(x: u32, after: usize, width: usize, value: u16) -> u32
    requires { (x < 2 ^ 24) × (after + width ≤ 24) × (value < 2 ^ width) }
    ensures { (result ≡ patched x after width value) × (result < 2 ^ 24) }
{
    let top = width + after;
    let unit = 1 << after;
    (x >> top) * (1 << top) + (u32::from(value) * unit + (x & (unit - 1)))
}

// The three bytes from the one that holds bit `at`, as one number; bytes past the end count as 0.
fn three(s: &[u8], at: usize) -> u32
    ensures { Window s.now (at / 8) result }
{
    let i = at / 8;
    u32::from_be_bytes([0, byte(s, i), byte(s, i + 1), byte(s, i + 2)])
}

// The byte at an index, 0 past the end.
fn byte(s: &[u8], i: usize) -> u8
    ensures { result ≡ get_or s.now i 0 }
{
    s.get(i).copied().unwrap_or(0)
}

// Writes a number below 2^24 over the three bytes from the one that holds bit `at`, as far as there are bytes.
fn store_three(buf: &mut [u8], at: usize, x: u32)
    requires { x < 2 ^ 24 }
    ensures { buf.new ≡ sets buf.old (at / 8) (bytes_of x) }
{
    let i = at / 8;
    let [_, first, second, third] = x.to_be_bytes();
    store(buf, i, first);
    store(buf, i + 1, second);
    store(buf, i + 2, third);
}

// Writes the byte at an index, if there is one there.
fn store(buf: &mut [u8], i: usize, b: u8)
    ensures { buf.new ≡ set buf.old i b }
{
    // By its index, since no proof knows a slice's bytes after a write through get_mut.
    if i < buf.len() {
        buf[i] = b;
    }
}
