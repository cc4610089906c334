// Edges of the reader. A line is `name sheet size number place wanted`: `size` is the bytes that are lent for the row.
use casebook::{Asked, Cases};

pub const CASES: [Cases; 4] = [
    // Empty and short sheets; node counts 0, 1, 2, 513 and 1023.
    Cases {
        asked: Asked::Reader,
        lines: b"
empty - 100 11 0 -
one-byte 10 100 11 0 -
n-0 1000 100 11 0 -
n-1 100100 100 11 0 -
n-2 10020200 100 0 2 0000
n-513 1201 100 11 0 -
n-1023 13ff 100 11 0 -
one-short 100202 100 13 0 -
one-long 1002020000 100 13 0 -
head-alone 1002 100 13 0 -
",
    },
    // Track counts of 3, 4 and 15; row buffers exact and one byte short.
    Cases {
        asked: Asked::Reader,
        lines: b"
Ku-3 30020200 100 0 2 0000
Ku-4 40020200 100 12 0 -
Ku-15 f0020200 100 12 0 -
Kl-3 0c020200 100 0 2 0000
row-exact 10020200 2 0 2 0000
row-short 10020200 1 14 0 -
row-empty 10020200 0 14 0 -
row-exact-for-4 1404000860 4 0 4 00010001
row-short-for-4 1404000860 3 14 0 -
",
    },
    // Each fault of a node, each limit, nets left open, padding.
    Cases {
        asked: Asked::Reader,
        lines: b"
E-behind-a-blank 1002c200 100 16 2 -
s-over-b 1002fe00 100 16 1 -
s-over-Ku 0403031800 100 17 2 -
wires-below-a-blank 10020300 100 30 2 -
p-over-b 14020600 100 16 1 -
M-on-no-net 10024200 100 16 1 -
E-on-no-net 1003020800 100 16 3 -
upper-limit 0804001820 100 17 2 -
lower-limit 2004000820 100 30 2 -
sum-limit 1404000060 100 31 3 -
left-open 14020000 100 18 2 -
padding 10020208 100 19 0 -
",
    },
    // Several causes at once: the earliest test decides, and of two nodes the left one.
    Cases {
        asked: Asked::Reader,
        lines: b"
11-before-12 4001 100 11 0 -
12-before-13 4002020000 100 12 0 -
13-before-14 100202 1 13 0 -
14-before-16 1002c200 1 14 0 -
16-before-17 00020600 100 16 1 -
16-before-17-at-a-blank 0403032800 100 16 2 -
16-before-31 14030000c0 100 16 3 -
17-before-31 1403000080 100 17 3 -
30-before-31 1403000000 100 30 3 -
31-at-1-before-30-at-a-blank 00020300 100 31 1 -
31-at-1-before-30-at-2 00020000 100 31 1 -
30-at-2-before-17-at-3 1003000080 100 30 2 -
left-open-at-a-blank 14020300 100 18 2 -
30-before-18 10020000 100 30 2 -
18-before-19 14020001 100 18 2 -
30-before-19 10020001 100 30 2 -
",
    },
];
