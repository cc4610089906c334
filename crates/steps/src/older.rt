// The ending of one of five nets that is not the youngest, forward and back.
//
// Orders of five are in three words (`Five`), one for each place of the youngest, each with a bit for the order of the other four.
ghost use Rattle.std.specs.Prelude.{◌≡◌, ◌&&◌, ℕ, ◌+◌, ◌-◌, ◌*◌, ◌≤◌, ◌<◌};
ghost use Rattle.steps.specs.Sets.{bit};
ghost use Rattle.steps.specs.Four.{Gone, comes, within, left_of, over_at, under_at, Passing, Piece, Inside};

use crate::end::Five;
use crate::tables::{back, standing, without};

// How many of the five are older, and the places where the net may stand.
#[derive(Clone, Copy)]
pub(crate) struct Older {
    pub elders: usize,
    pub places: u32,
    ghost few: { elders < 4 },
    ghost inside: { Inside places },
}

// d is the number of a place, and `d < 4` is asked where shifts and masks go by it.
impl Older {
    // The orders of four left of those of five: the youngest is the youngest of the four that are left, and has one or two above it.
    pub(crate) fn left(self, five: Five) -> u32
        ensures { Gone 5 (4 - self.elders) self.places (within five) result }
    {
        let b = self.piece_left(1, five.second, five.third);
        let c = self.piece_left(2, five.third, five.fourth);
        (c * 64 + b) * 64
    }

    // The ranks of three left with the youngest at d: of x it was there and the net below, of y one lower and the net above.
    fn piece_left(self, d: usize, x: u32, y: u32) -> u32
        requires { d < 4 }
        ensures { Piece self.elders self.places d x y result }
    {
        without(self.elders, x & self.over_at(d) | y & self.under_at(d))
    }

    // The orders of four in which the net stands at d or lower, and is at a legal place with one more above.
    fn over_at(self, d: usize) -> u32
        requires { d < 4 }
        ensures { Passing (over_at self.elders self.places d) result }
    {
        standing(self.elders, (self.places >> (d + 1)) << d)
    }

    // The orders of four in which the net stands at d or higher, and at a legal place.
    fn under_at(self, d: usize) -> u32
        requires { d < 4 }
        ensures { Passing (under_at self.elders self.places d) result }
    {
        standing(self.elders, self.places % (2u32 << d))
    }

    // The orders of five that leave one of n: the net stood below the youngest or above it.
    pub(crate) fn back(self, n: u32) -> Five
        ensures { (r : ℕ) → 24 ≤ r → r < 96 → within result r ≡ comes 5 (4 - self.elders) self.places n r }
    {
        let below = self.piece_back(1, n, self.over_at(1));
        let lower = self.piece_back(2, n, self.over_at(2));
        let higher = self.piece_back(1, n, self.under_at(1));
        let above = self.piece_back(2, n, self.under_at(2));
        Five {
            second: below,
            third: lower | higher,
            fourth: above,
        }
    }

    // Of the orders z of four those that leave, without the net, an order of n with the youngest at d.
    fn piece_back(self, d: usize, n: u32, z: u32) -> u32
        requires { d < 4 }
        ensures { Passing (λ i. bit z i && bit n (6 * d + left_of self.elders i)) result }
    {
        z & back(self.elders, (n >> (6 * d)) % 64)
    }
}
