// Edges of the drawer. A line is `name sheet size number place wanted`: `size` is the bytes that are lent for the film. The reader is asked the same
// sheets, but a line is a case whole, with the bytes that are lent.
use casebook::{Asked, Cases};

pub const CASES: [Cases; 4] = [
    // Empty and short sheets; node counts 0, 1, 2, 513 and 1023; films exact and one byte short.
    Cases {
        asked: Asked::Drawer,
        lines: b"
empty - 1000 11 0 -
one-byte 10 1000 11 0 -
n-0 1000 1000 11 0 -
n-1 100100 1000 11 0 -
n-2 10020200 1000 0 3 802000140080200414000028000020
n-513 1201 1000 11 0 -
n-1023 13ff 1000 11 0 -
one-short 100202 1000 13 0 -
one-long 1002020000 1000 13 0 -
",
    },
    // Track counts of 3, 4 and 15; films exact and one byte short.
    Cases {
        asked: Asked::Drawer,
        lines: b"
Ku-3 30020200 1000 0 3 802000140080200414000028000020
Ku-4 40020200 1000 12 0 -
Ku-15 f0020200 1000 12 0 -
Kl-3 0c020200 1000 0 3 801800100080180410000018000020
film-exact 10020200 15 0 3 802000140080200414000028000020
film-short 10020200 14 21 0 -
film-empty 10020200 0 21 0 -
film-exact-for-8 1404000860 40 0 8 80200014000028000002801800540080a00414008018081000001800404080a00c140000a8040060
film-short-for-8 1404000860 39 21 0 -
",
    },
    // Each fault of a sheet with no film lent: it is given before 21.
    Cases {
        asked: Asked::Drawer,
        lines: b"
E-behind-a-blank 1002c200 0 16 2 -
s-over-b 1002fe00 0 16 1 -
s-over-Ku 0403031800 0 17 2 -
wires-below-a-blank 10020300 0 30 2 -
p-over-b 14020600 0 16 1 -
M-on-no-net 10024200 0 16 1 -
E-on-no-net 1003020800 0 16 3 -
upper-limit 0804001820 0 17 2 -
lower-limit 2004000820 0 30 2 -
sum-limit 1404000060 0 31 3 -
left-open 14020000 0 18 2 -
padding 10020208 0 19 0 -
",
    },
    // Several causes at once, with no film lent.
    Cases {
        asked: Asked::Drawer,
        lines: b"
11-before-12 4001 0 11 0 -
12-before-13 4002020000 0 12 0 -
16-before-17 00020600 0 16 1 -
16-before-17-at-a-blank 0403032800 0 16 2 -
16-before-31 14030000c0 0 16 3 -
17-before-31 1403000080 0 17 3 -
30-before-31 1403000000 0 30 3 -
31-at-1-before-30-at-a-blank 00020300 0 31 1 -
31-at-1-before-30-at-2 00020000 0 31 1 -
30-at-2-before-17-at-3 1003000080 0 30 2 -
left-open-at-a-blank 14020300 0 18 2 -
30-before-18 10020000 0 30 2 -
18-before-19 14020001 0 18 2 -
30-before-19 10020001 0 30 2 -
13-before-21 100202 0 13 0 -
",
    },
];
