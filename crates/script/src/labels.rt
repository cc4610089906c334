// The first and the last node of each label of a row, and the first label of a net that stands at one node only.
ghost use Rattle.std.specs.Prelude.{◌≡◌, ◌≤◌, ◌<◌, length, position, IsNone, IfSome};
ghost use Rattle.rules.specs.Answers.{first_lone};
ghost use Rattle.script.specs.Tabled.{Firsts, Lasts, Tabled, alone, Apart, lone_label};

use rules::BLANK;

// The labels that nets can have.
const NETS: usize = BLANK as usize;

// A row's labels: for each its first and its last node, counted from 1, in two arrays that are filled once per row, as the exact rules name them. They are lent, since a
// struct that has them is copied where it is returned.
#[derive(Clone, Copy)]
pub struct Labels<'a> {
    pub row: &'a [u8],
    pub first: &'a [u16; 256],
    pub last: &'a [u16; 256],
    ghost tabled: { Tabled row.now first.now last.now },
}

impl<'a> Labels<'a> {
    // The labels of a row, noted in two arrays that begin as [0; 256]: what they hold for a label that does not occur stays. That the row has at most 512 nodes is asked here,
    // where they are noted, and where the plan is told: `lone` serves a row of any length.
    pub fn of(row: &'a [u8], first: &'a mut [u16; 256], last: &'a mut [u16; 256]) -> Labels<'a>
        requires { length row.now ≤ 512 }
        ensures { result.row.now ≡ row.now }
    {
        note_firsts(row, first);
        note_lasts(row, last);
        Labels { row, first, last }
    }

    // The first node, from 0, that is no blank and whose label stands at no other.
    pub fn lone(&self) -> Option<usize>
        ensures none { IsNone result → first_lone self.now.row.now ≡ length self.now.row.now }
        ensures some { IfSome result (λ i. (i < length self.now.row.now) × (first_lone self.now.row.now ≡ i)) }
    {
        if self.lone_labels() == 0 {
            return None;
        }
        self.first_lone()
    }

    // 0 only if no label of a net has one node only. It goes through 0 to 254, the labels of nets, without a branch, so that eight are taken at a time. A label that does not occur
    // is not counted where its entries are 0, so that a row of which no label is lone need not be gone through. The loop adds, since `sum` asks beforehand that whatever
    // part of the numbers is taken adds up within u16.
    fn lone_labels(&self) -> u16
        ensures { result ≡ 0 → Apart self.now.first.now self.now.last.now 255 }
    {
        let firsts = self.first;
        let lasts = self.last;
        let mut count = 0;
        for (first, last) in firsts[..NETS].iter().zip(&lasts[..NETS]) {
            count += one_node(*first, *last);
        }
        count
    }

    // The first node whose label is a net's of one node, gone through node by node.
    fn first_lone(&self) -> Option<usize>
        ensures { result ≡ position (lone_label self.now.first.now self.now.last.now) self.now.row.now }
    {
        self.row.iter().position(|x| self.is_lone(*x))
    }

    // Whether the label is a net's, and its first and its last node are one.
    fn is_lone(&self, label: u8) -> bool
        ensures { result ≡ lone_label self.now.first.now self.now.last.now label }
    {
        let at = usize::from(label);
        label != BLANK && self.first[at] == self.last[at]
    }
}

// 1 for a label that occurs and whose first and last node are one, else 0.
fn one_node(first: u16, last: u16) -> u16
    ensures { (result ≡ alone first last) × (result ≤ 1) }
{
    u16::from(first != 0 && first == last)
}

// Each label's first node: the nodes write their numbers, the last one first. It stands apart from note_lasts, which goes the other way: one function of
// any iterator would leave it to both callers to prove in which order the nodes come.
fn note_firsts(row: &[u8], table: &mut [u16; 256])
    requires { length row.now ≤ 512 }
    ensures { Firsts row.now 0 table.new }
{
    for (i, x) in row.iter().enumerate().rev() {
        table[usize::from(*x)] = (i + 1) as u16;
    }
}

// Each label's last node: the nodes write their numbers, the first one first.
fn note_lasts(row: &[u8], table: &mut [u16; 256])
    requires { length row.now ≤ 512 }
    ensures { Lasts row.now (length row.now) table.new }
{
    for (i, x) in row.iter().enumerate() {
        table[usize::from(*x)] = (i + 1) as u16;
    }
}
