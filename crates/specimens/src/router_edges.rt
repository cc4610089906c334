// Edges of the router. A line is `name row Ku Kl work sheet number place wanted`: `work` and `sheet` are the bytes that are lent.
use casebook::{Asked, Cases};

pub const CASES: [Cases; 3] = [
    // Rows of 0, 1 and 2 nodes; streets of 3, 4 and 255 tracks.
    Cases {
        asked: Asked::Router,
        lines: b"
row-of-0 - 1 0 1000 100 1 0 -
row-of-1 a 1 0 1000 100 1 0 -
row-of-2 aa 1 0 1000 100 0 2 10020200
Ku-3 aa 3 0 1000 100 0 2 30020200
Ku-4 aa 4 0 1000 100 2 0 -
Kl-3 aa 0 3 1000 100 0 2 0c020200
Kl-4 aa 0 4 1000 100 2 0 -
Ku-255 aa 255 0 1000 100 2 0 -
Kl-255 aa 0 255 1000 100 2 0 -
streets-of-3 aa 3 3 1000 100 0 2 3c020200
",
    },
    // Buffers exact and one byte short, of 2 to 5 nodes: the four lengths of padding.
    Cases {
        asked: Asked::Router,
        lines: b"
exact-for-2 aa 1 0 180 4 0 2 10020200
work-short-for-2 aa 1 0 179 4 4 0 -
sheet-short-for-2 aa 1 0 180 3 5 0 -
exact-for-3 aaa 1 0 270 5 0 3 1003010800
work-short-for-3 aaa 1 0 269 5 4 0 -
sheet-short-for-3 aaa 1 0 270 4 5 0 -
exact-for-4 aaaa 1 0 360 5 0 4 1004010420
work-short-for-4 aaaa 1 0 359 5 4 0 -
sheet-short-for-4 aaaa 1 0 360 4 5 0 -
exact-for-5 aaaaa 1 0 450 6 0 5 100501041080
work-short-for-5 aaaaa 1 0 449 6 4 0 -
sheet-short-for-5 aaaaa 1 0 450 5 5 0 -
",
    },
    // Two causes at once: the smaller number is given.
    Cases {
        asked: Asked::Router,
        lines: b"
no-bytes-lent - 1 0 0 0 1 0 -
1-before-2 a 4 4 0 0 1 0 -
2-before-3 ab 4 0 0 0 2 0 -
2-before-3-Kl aab 0 4 0 0 2 0 -
3-before-4 aab 1 0 269 5 3 3 -
3-before-6 ababc 1 0 1000 100 3 5 -
4-before-5 aa 1 0 179 3 4 0 -
5-before-6 aa 0 0 180 3 5 0 -
4-before-6 aa 0 0 179 4 4 0 -
6-with-exact-buffers aa 0 0 180 4 6 1 -
",
    },
];
