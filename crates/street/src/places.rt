// The places that the limits allow at a node, for every kind and every number of open nets: sixteen bits each, of which bit a is set where a wires may be above.
ghost use Rattle.std.specs.Prelude.{◌≡◌, suc, ◌+◌, ◌≤◌, ◌<◌};
ghost use Rattle.rules.specs.Limits.{fits_at, counted};
ghost use Rattle.street.specs.Places.{among, marked, places_at, Places};

use crate::power;
use rules::{Kind, Streets};

// The numbers of open nets that a table of places has a cell for: from 0 to 15.
pub const COUNTS: usize = 16;

// What two streets allow: cell b of a kind's row is that of the nodes before which b nets are open.
#[derive(Clone, Copy)]
pub struct LegalPlaces {
    pub streets: Streets,
    // The rows stand in the order of the kind fields.
    rows: [[u16; COUNTS]; 4],
    ghost places: { Places streets.upper streets.lower rows },
}

impl LegalPlaces {
    // The table for two streets. A wire beside b others has the places of a blank among b wires, as long as both streets together have a track for it too: a B where
    // b nets are open, an M or an E where b + 1 are.
    pub fn new(streets: Streets) -> LegalPlaces
        ensures { result.streets ≡ streets }
    {
        let upper = streets.upper as usize;
        let lower = streets.lower as usize;
        let most = upper + lower;
        let mut rows = [[0u16; COUNTS]; 4];
        for b in 0..most {
            let places = places_among(upper, lower, b);
            rows[Kind::B as usize][b] = places;
            rows[Kind::M as usize][b + 1] = places;
            rows[Kind::N as usize][b] = places;
        }
        rows[Kind::E as usize] = rows[Kind::M as usize];
        rows[Kind::N as usize][most] = places_among(upper, lower, most);
        LegalPlaces { streets, rows }
    }

    // Whether the limits allow so many wires above a node of this kind, before which b nets are open.
    pub fn allows(&self, kind: Kind, above: u8, b: usize) -> bool
        requires { (above < 16) × (b < 16) }
        ensures { result ≡ fits_at kind self.now.streets.upper self.now.streets.lower (suc above) (counted kind b) }
    {
        is_legal(&self.rows, kind, above, b)
    }

    // The table, for whoever keeps it and asks it by `is_legal`.
    pub fn rows(&self) -> &[[u16; COUNTS]; 4]
        ensures { Places self.now.streets.upper self.now.streets.lower result.now }
    {
        &self.rows
    }
}

// Whether a table of places, of any streets, has one with so many wires above a node of this kind, before which b nets are open. It has a row for each kind.
pub fn is_legal(rows: &[[u16; COUNTS]; 4], kind: Kind, above: u8, b: usize) -> bool
    requires { (above < 16) × (b < 16) }
    ensures { result ≡ marked (places_at rows.now kind b) above }
{
    let row = &rows[kind as usize];
    (row[b] >> above) % 2 == 1
}

// The places among b wires: at most Ku above, and at most Kl below. Ku and Kl come as the numbers that `new` counts by, with the bound of Ku.
fn places_among(upper: usize, lower: usize, b: usize) -> u16
    requires { (upper ≤ 3) × (b ≤ upper + lower) }
    ensures { result ≡ among upper lower b }
{
    let most = b.min(upper);
    let least = b.saturating_sub(lower);
    (power(most + 1) - power(least)) as u16
}
