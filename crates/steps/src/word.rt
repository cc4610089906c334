// Words in the lent bytes: 90 bytes for the gap after each node, fifteen words of four bytes at their start.
//
// The bytes are lent as they are, with the number of a gap: a node reads the gap before it and writes its own, so that a gap as a slice of its own would take two
// slices to a node and a third case for node 0, and each contract would still say that they follow one another. A slot's number, k < slots, is asked at each
// function for the same reason: it is one of the gap's fifteen, and names a word of it and of the gap before alike. So is 0 < g, where a gap stands before.
ghost use Rattle.std.specs.Prelude.{◌≡◌, suc, ◌*◌, ◌≤◌, ◌<◌, length};
ghost use Rattle.std.specs.Int.Bits.{bit_and};
ghost use Rattle.rules.specs.Basic.{pick};
ghost use Rattle.steps.specs.Sets.{stretch, slots, word_at, Written};
ghost use Rattle.steps.specs.Four.{word_before};
ghost use Rattle.steps.specs.Opening.{Before};

// The bytes of a gap.
pub(crate) const STRETCH: usize = 90;

// The word in slot k of gap g.
pub fn word(work: &[u8], g: usize, k: usize) -> u32
    requires { (stretch * suc g ≤ length work.now) × (k < slots) }
    ensures { result ≡ word_at work.now g k }
{
    // Byte by byte. By `as_chunks` the words of a gap are arrays of four: tried, and the proof did not close, since the library has no lemma that reads one of them by
    // its number.
    let i = STRETCH * g + 4 * k;
    u32::from_le_bytes([work[i], work[i + 1], work[i + 2], work[i + 3]])
}

// The word in slot k of the set before node g: before node 0 there is rank 0 alone.
pub(crate) fn before(work: &[u8], g: usize, k: usize) -> u32
    requires { (stretch * g ≤ length work.now) × (k < slots) }
    ensures { result ≡ word_before work.now g k }
{
    if 0 < g {
        return word(work, g - 1, k);
    }
    if k == 0 {
        return 1;
    }
    0
}

// The ranks before node g that slot k has bits for.
pub(crate) fn ranks_before(work: &[u8], g: usize, k: usize) -> u32
    requires { (stretch * g ≤ length work.now) × (k < slots) }
    ensures { Before work.now g k result }
{
    before(work, g, k) % 16777216
}

// Puts the word w into slot k of gap g.
pub(crate) fn put_word(work: &mut [u8], g: usize, k: usize, w: u32)
    requires { (stretch * suc g ≤ length work.old) × (k < slots) }
    ensures { Written work.old g k w work.new }
{
    // Byte by byte: copy_from_slice tests that the two do not overlap, which takes 10 to 17 instructions a node more.
    let i = STRETCH * g + 4 * k;
    let [a, b, c, d] = w.to_le_bytes();
    work[i] = a;
    work[i + 1] = b;
    work[i + 2] = c;
    work[i + 3] = d;
}

// Leaves in slot k of gap g only the bits of m.
pub(crate) fn keep_word(work: &mut [u8], g: usize, k: usize, m: u32)
    requires { (stretch * suc g ≤ length work.old) × (k < slots) }
    ensures { Written work.old g k (bit_and (word_at work.old g k) m) work.new }
{
    put_word(work, g, k, word(work, g, k) & m);
}

// The word w, where t is true; else 0.
pub(crate) fn only(t: bool, w: u32) -> u32
    ensures { result ≡ pick t w 0 }
{
    if t {
        return w;
    }
    0
}
