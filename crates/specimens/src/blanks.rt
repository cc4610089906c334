// Rows and sheets with blanks: byte FF in a row, kind 3 in a sheet. A line says what is asked, the bytes that are lent, and what is wanted (casebook).
use casebook::{Asked, Cases};

pub const CASES: [Cases; 7] = [
    // Rows with the smallest s at each blank: the first two routed, read back, agreed on and drawn, round a blank and of blanks alone.
    Cases {
        asked: Asked::Whole,
        lines: b"
a_a a\xffa 1 1 2000 100 0 3 1403030800 100 0 3 00ff00 1000 0 7 8020001400002800000280180054000018004022801804540000280440408020081400
__ \xff\xff 0 0 180 4 0 2 0002c300 2 0 2 ffff 0 0 0 -
",
    },
    Cases {
        asked: Asked::Router,
        lines: b"
_a_a_ \xffa\xffa\xff 1 1 450 6 0 5 1405c00c20c0
ab_ab_ ab\xffab\xff 1 1 540 7 0 6 1406000c618300
abcdef_fedcba abcdef\xfffedcba 3 3 1170 12 0 13 3c0d000000042ce286082080
",
    },
    // Check 3 spares a blank, 6 is given at none, and buffers are measured with the blanks.
    Cases {
        asked: Asked::Router,
        lines: b"
_a \xffa 1 1 1000 100 3 2 -
a_ a\xff 1 1 1000 100 3 1 -
ab_ab ab\xffab 2 0 1000 100 6 4 -
_aa_ \xffaa\xff 0 0 1000 100 6 2 -
one-blank \xff 1 1 1000 100 1 0 -
Ku-4 \xff\xff 4 0 1000 100 2 0 -
work-short \xff\xff 0 0 179 4 4 0 -
sheet-short \xff\xff 0 0 180 3 5 0 -
",
    },
    // Any legal s is read and drawn; 16, 17 and 30 at a blank.
    Cases {
        asked: Asked::Reader,
        lines: b"
s-0-of-1 1403030800 3 0 3 00ff00
s-1-of-1 1403031800 3 0 3 00ff00
_a_a_ 1405c00c20c0 5 0 5 ff00ff00ff
ab_ab_ 1406000c618300 6 0 6 0001ff0001ff
__ 0002c300 2 0 2 ffff
row-short 0002c300 1 14 0 -
30-at-a-blank 1003030800 100 30 2 -
17-at-a-blank 0403031800 100 17 2 -
16-at-a-blank 0403032800 100 16 2 -
padding 0002c301 100 19 0 -
",
    },
    Cases {
        asked: Asked::Drawer,
        lines: b"
s-1-of-1 1403031800 15 0 3 802000140000280000408020081400
s-1-of-1-film-short 1403031800 14 21 0 -
__ 0002c300 0 0 0 -
30-at-a-blank 1003030800 0 30 2 -
17-at-a-blank 0403031800 0 17 2 -
16-at-a-blank 0403032800 0 16 2 -
",
    },
    // The same blanks are asked for, and any label stands for a net but FF.
    Cases {
        asked: Asked::Agreement(true),
        lines: b"
a_a a\xffa 1403030800
another-s a\xffa 1403031800
label-254 \xfe\xff\xfe 1403030800
__ \xff\xff 0002c300
",
    },
    Cases {
        asked: Asked::Agreement(false),
        lines: b"
no-blank aba 1403030800
blank-elsewhere aa\xff 1403030800
blanks-for-the-net \xffa\xff 1403030800
blanks-alone \xff\xff\xff 1403030800
net-for-blanks aa 0002c300
blanks-for-a-net \xff\xff 10020200
30-at-a-blank a\xffa 1003030800
",
    },
];
