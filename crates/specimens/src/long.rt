// Rows of 512 and 513 nodes. Lines name the lent bytes and the answer; rows, sheets and films are handed over, each by itself, since a row is also asked with a sheet
// that is not its own.
use casebook::sheets::{Drawer, Reader};
use casebook::{Casebook, pairs};
use std::io;

// 512 nodes: 255 nets of two and two blanks, with buffers exact and one byte short.
pub fn most_nodes(book: &mut Casebook<'_, impl Print>) -> io::Result<()> {
    let row: [u8; 512] = pairs::row();
    let sheet: [u8; 386] = pairs::sheet();
    let film: [u8; 3825] = pairs::film();
    most_routed(book, &row, &sheet)?;
    most_read(book, &row, &sheet)?;
    most_drawn(book, &sheet, &film)
}

fn most_routed(book: &mut Casebook<'_, impl Print>, row: &[u8], sheet: &[u8]) -> io::Result<()> {
    book.router_sheet(b"512-nodes aabb.. 1 0 46080 386 0 512 1200..", row, sheet)?;
    book.router_row(b"512-nodes-work-short aabb.. 1 0 46079 386 4 0 -", row)?;
    book.router_row(b"512-nodes-sheet-short aabb.. 1 0 46080 385 5 0 -", row)?;
    book.router_row(b"512-nodes-stuck aabb.. 0 0 46080 386 6 1 -", row)
}

fn most_read(book: &mut Casebook<'_, impl Print>, row: &[u8], sheet: &[u8]) -> io::Result<()> {
    book.handed_sheet(&Reader, b"512-nodes 1200.. 512 0 512 0000..", sheet, row)?;
    book.handed_sheet(
        &Reader,
        b"512-nodes-row-short 1200.. 511 14 0 -",
        sheet,
        b"",
    )?;
    book.agreement_sheet(b"512-nodes aabb.. 1200..", row, sheet, true)
}

fn most_drawn(book: &mut Casebook<'_, impl Print>, sheet: &[u8], film: &[u8]) -> io::Result<()> {
    book.handed_sheet(&Drawer, b"512-nodes 1200.. 3825 0 765 8020..", sheet, film)?;
    book.handed_sheet(
        &Drawer,
        b"512-nodes-film-short 1200.. 3824 21 0 -",
        sheet,
        b"",
    )
}

// The sheet of 256 nets: no row has so many nets, so that the reader refuses it after all its other tests and no row agrees with it, and the drawer draws it.
pub fn most_nets(book: &mut Casebook<'_, impl Print>) -> io::Result<()> {
    let row: [u8; 512] = pairs::row();
    let mut sheet: [u8; 386] = pairs::nets();
    let film: [u8; 3840] = pairs::film();
    nets_drawn(book, &sheet, &film)?;
    nets_refused(book, &row, &sheet)?;
    sheet[0] = 0x16;
    sheet[385] = 0;
    book.handed_sheet(&Reader, b"18-before-23 1600.. 512 18 512 -", &sheet, b"")
}

// Beside `most_drawn`: a case is its line, which is a constant, and the lines are other ones.
fn nets_drawn(book: &mut Casebook<'_, impl Print>, sheet: &[u8], film: &[u8]) -> io::Result<()> {
    book.handed_sheet(&Drawer, b"256-nets 1200.. 3840 0 768 8020..", sheet, film)?;
    book.handed_sheet(
        &Drawer,
        b"256-nets-film-short 1200.. 3839 21 0 -",
        sheet,
        b"",
    )
}

fn nets_refused(book: &mut Casebook<'_, impl Print>, row: &[u8], sheet: &[u8]) -> io::Result<()> {
    book.handed_sheet(&Reader, b"256-nets 1200.. 512 23 0 -", sheet, b"")?;
    book.handed_sheet(&Reader, b"14-before-23 1200.. 511 14 0 -", sheet, b"")?;
    book.agreement_sheet(b"256-nets aabb.. 1200..", row, sheet, false)
}

// 513 nodes: refused as a row, and as the count of a sheet of their length.
pub fn too_many_nodes(book: &mut Casebook<'_, impl Print>) -> io::Result<()> {
    let row: [u8; 513] = pairs::row();
    let mut sheet: [u8; 387] = pairs::sheet();
    sheet[1] = 1;
    book.router_row(b"513-nodes aabb.. 1 0 46170 387 1 0 -", &row)?;
    book.handed_sheet(&Reader, b"513-nodes 1201.. 1000 11 0 -", &sheet, b"")?;
    book.handed_sheet(&Drawer, b"513-nodes 1201.. 4000 11 0 -", &sheet, b"")?;
    book.agreement_sheet(b"513-nodes aabb.. 1201..", &row, &sheet, false)
}
