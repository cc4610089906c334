// The agreement test: whether a sheet joins the same pins as a row and leaves the same blank.
ghost use Rattle.std.specs.Prelude.{◌≡◌, suc, ◌<◌};
ghost use Rattle.rules.specs.Basic.{pick};
ghost use Rattle.rules.specs.Answers.{same_pins, agrees as agreeing};
ghost use Rattle.sheet.specs.InTurn.{InTurn, begins};

use crate::reader::read;

// Whether the sheet passes every test of the reader but 14, and joins the same nodes as the row, of the same length, and leaves the same blank.
pub fn agrees(row: &[u8], s: &[u8]) -> bool
    ensures { result ≡ agreeing row.now s.now }
{
    // A label for each node that a sheet can have: there is no heap.
    let mut own = [0u8; 512];
    match read(s, &mut own) {
        Ok(n) => same_pins(row, &own[..n]),
        Err(_) => false,
    }
}

// Whether two rows join the same pins, of which the second numbers its nets in the order of their first nodes. For each label of
// the first row, `nets` has one more than the number of its net, and 0 where the label was not met yet. The label of blanks has one more
// than itself from the start, so that it stands for no net.
fn same_pins(row: &[u8], own: &[u8]) -> bool
    requires { InTurn 0 own.now }
    ensures { result ≡ same_pins row.now own.now }
{
    // Numbers with 0 for none, and a loop over the node's number: with an `Option` a label, gone through by `zip`, there are branches that follow no pattern, and the
    // agreement test takes half as long again.
    let n = own.len();
    if row.len() != n {
        return false;
    }
    let mut nets = [0u16; 256];
    nets[255] = 256;
    let mut begun = 0;
    let mut i = 0;
    while i < n {
        let label = row[i] as usize;
        let net = own[i] as u16;
        if nets[label] != known(net, begun) {
            return false;
        }
        nets[label] = net + 1;
        begun = begun_after(net, begun);
        i += 1;
    }
    true
}

// What `nets` must have for the label of a node of this net, or of a blank, whose number here is 255: nothing, where the node begins a net.
fn known(net: u16, begun: u16) -> u16
    requires { net < 256 }
    ensures { result ≡ pick (begins net begun) 0 (suc net) }
{
    if is_next(net, begun) { 0 } else { net + 1 }
}

// The number of nets begun after a node of this net, or after a blank.
fn begun_after(net: u16, begun: u16) -> u16
    requires { net < 256 }
    ensures { result ≡ pick (begins net begun) (suc begun) begun }
{
    if is_next(net, begun) {
        begun + 1
    } else {
        begun
    }
}

// Whether the net is the next to begin, which a blank is never.
fn is_next(net: u16, begun: u16) -> bool
    ensures { result ≡ begins net begun }
{
    if net == 255 {
        return false;
    }
    net == begun
}
