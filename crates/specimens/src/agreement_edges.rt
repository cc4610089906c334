// Edges of the agreement test. A line is `name row sheet`.
use casebook::{Asked, Cases};

pub const CASES: [Cases; 3] = [
    // Labels carry no meaning, and lengths, nets and pins do.
    Cases {
        asked: Asked::Agreement(true),
        lines: b"
same-labels abab 1404000860
other-labels zyzy 1404000860
",
    },
    Cases {
        asked: Asked::Agreement(false),
        lines: b"
other-pins aabb 1404000860
one-net-of-two aaaa 1404000860
lone-pin abac 1404000860
longer-row ababa 1404000860
shorter-row aba 1404000860
",
    },
    // Empty inputs and damaged sheets have no row that agrees.
    Cases {
        asked: Asked::Agreement(false),
        lines: b"
empty-row-and-sheet - -
empty-sheet aa -
one-byte aa 10
empty-row - 10020200
n-1 a 100100
Ku-4 aa 40020200
one-short aa 100202
one-long aa 1002020000
left-open ab 14020000
",
    },
];
