// The two streets: how many tracks each has, and which wires find room in them. Positions count from 0, so they are document 01's p − 1.

// Ku and Kl of the documents.
#[derive(Clone, Copy, PartialEq, Eq, Debug)]
pub struct Streets {
    pub upper: u8,
    pub lower: u8,
}

impl Streets {
    // One of the sixteen pairs of streets with 0 to 3 tracks. No conversion, since it counts round.
    pub fn nth(k: usize) -> Streets {
        Streets {
            upper: (k / 4 % 4) as u8,
            lower: (k % 4) as u8,
        }
    }

    // Which of the pairs of streets with 0 to 3 tracks it is.
    pub fn number(self) -> usize {
        usize::from(self.upper) * 4 + usize::from(self.lower)
    }

    // How many tracks both streets have.
    pub fn tracks(self) -> usize {
        usize::from(self.upper) + usize::from(self.lower)
    }

    // The three limits of document 01 for the net at a position among so many open nets.
    pub fn fits(self, position: usize, open: usize) -> bool {
        position < open
            && position <= usize::from(self.upper)
            && open - 1 - position <= usize::from(self.lower)
            && open <= self.tracks()
    }

    // Whether some of the open wires can pass above a blank and the others below it.
    pub fn passes_blank(self, above: usize, open: usize) -> bool {
        above <= open && above <= usize::from(self.upper) && open - above <= usize::from(self.lower)
    }

    // The fewest of the open wires that can pass above a blank; none if they find no way past it.
    pub fn fewest_above(self, open: usize) -> Option<usize> {
        (0..=open).find(|above| self.passes_blank(*above, open))
    }
}
