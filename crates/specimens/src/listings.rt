// The text of `listrow`.
use casebook::{Casebook, pairs};
use std::io;

pub fn short_inputs(book: &mut Casebook<'_, impl Print>) -> io::Result<()> {
    book.listing_case(b"no-bytes", b"", b"refused 1 at 0\n")?;
    book.listing_case(b"one-byte", b"\x02", b"refused 1 at 0\n")?;
    book.listing_case(b"two-bytes", b"\x02\x01", b"refused 1 at 0\n")?;
    book.listing_case(
        b"specimen",
        b"\x02\x01abcbac",
        b"sheet 6 2 1\n1 B 1 1\n2 B 2 2\n3 B 2 3\n4 E 3 3\n5 E 1 2\n6 E 1 1\n",
    )
}

pub fn blank_inputs(book: &mut Casebook<'_, impl Print>) -> io::Result<()> {
    book.listing_case(
        b"two-nets-and-blanks",
        b"\x01\x01ab\xffab\xff",
        b"sheet 6 1 1\n1 B 1 1\n2 B 1 2\n3 N 1 2\n4 E 2 2\n5 E 1 1\n6 N 0 0\n",
    )?;
    book.listing_case(
        b"blanks-alone",
        b"\x00\x00\xff\xff",
        b"sheet 2 0 0\n1 N 0 0\n2 N 0 0\n",
    )?;
    book.listing_case(
        b"refused-past-a-blank",
        b"\x02\x00ab\xffab",
        b"refused 6 at 4\n",
    )
}

pub fn refused_inputs(book: &mut Casebook<'_, impl Print>) -> io::Result<()> {
    book.listing_case(b"Ku-4", b"\x04\x01aa", b"refused 2 at 0\n")?;
    book.listing_case(b"S10", b"\x01\x01aab", b"refused 3 at 3\n")?;
    book.listing_case(b"S7", b"\x02\x01abcabcabc", b"refused 6 at 5\n")
}

// Inputs of 512, 513 and 600 nodes.
pub fn long_inputs(book: &mut Casebook<'_, impl Print>) -> io::Result<()> {
    let most: [u8; 514] = pairs::input();
    let over: [u8; 515] = pairs::input();
    let far: [u8; 602] = pairs::input();
    book.long_listing_case(
        b"512-nodes 5026 513",
        &most,
        b"sheet 512 1 0\n1 B 1 1\n2 E 1 1\n",
        b"511 N 0 0\n512 N 0 0\n",
    )?;
    book.listing_case(b"513-nodes", &over, b"refused 1 at 0\n")?;
    book.listing_case(b"600-nodes", &far, b"refused 1 at 0\n")
}
