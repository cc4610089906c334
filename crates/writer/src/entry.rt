// A node's entry in a sheet.
ghost use Rattle.std.specs.Prelude.{◌≡◌, ◌<◌};
ghost use Rattle.rules.specs.Bits.{digits};
ghost use Rattle.writer.specs.Entries.{bits_of};

use rules::Kind;
use std::marker::Model;

// What a sheet says of a node: its kind, and how many nets stand above it, as the byte of its six bits.
#[derive(Clone, Copy, Debug)]
pub struct Entry(u8);

impl Model for Entry {
    ghost use Rattle.writer.specs.Entries.{Entry};

    ghost Value = { Entry };

    ghost use Rattle.writer.specs.Bytes.{entry_seen, IsSixBits, of_entry, of_entry_ok};

    ghost view = { entry_seen };

    ghost invariant = { IsSixBits };

    ghost inverse = { of_entry };

    ghost inverse_ok = { of_entry_ok };
}

impl Entry {
    // The entry of a node of this kind, with so many nets above it.
    pub fn new(kind: Kind, above: u8) -> Entry
        requires { above < 16 }
        ensures kind { result.kind ≡ kind }
        ensures above { result.above ≡ above }
    {
        Entry(kind as u8 * 16 + above)
    }

    // Its six bits: the kind field in 2, the nets above it in 4.
    pub fn six_bits(self) -> u32
        ensures { (digits 6 result ≡ bits_of self) × (result < 64) }
    {
        u32::from(self.0)
    }
}
