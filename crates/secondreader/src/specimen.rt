// A specimen of document 01, two nets under one track in each street: its row is placed, and its sheet and film are read.
use crate::judge::{MOST_NODES, first_fault, judge, number_nets};
use crate::picture::{shows, shows_wires};
use secondfilm::order::in_order;
use secondfilm::records::Place;
use secondfilm::sheets::{pack, pack_nodes, packed, record_count};
use secondfilm::wires::{Film, LEVELS, LentFilm, Point};
use secondrouter::nets::{Kind, Node, numbers_of};
use secondrouter::orders::Order;
use secondrouter::placing::Placing;
use secondrouter::streets::Streets;
use secondrouter::{depth, layers};

const STREETS: Streets = Streets { upper: 1, lower: 1 };

const SHEET: [u8; 5] = [0x14, 0x04, 0x00, 0x08, 0x60];

const FILM: [u8; 40] = [
    0x80, 0x20, 0x00, 0x14, 0x00, 0x00, 0x28, 0x00, 0x00, 0x02, 0x80, 0x18, 0x00, 0x54, 0x00, 0x80,
    0xa0, 0x04, 0x14, 0x00, 0x80, 0x18, 0x08, 0x10, 0x00, 0x00, 0x18, 0x00, 0x40, 0x40, 0x80, 0xa0,
    0x0c, 0x14, 0x00, 0x00, 0xa8, 0x04, 0x00, 0x60,
];

#[test]
fn row_is_placed(rt: HostRuntime) {
    let by_layers = Placing::of_row(rt.alloc(), b"abab", STREETS).and_then(layers::place);
    let by_depth = Placing::of_row(rt.alloc(), b"abab", STREETS).and_then(depth::place);
    assert!(rt; by_depth == by_layers);
    let mut sheet = [0xff; 5];
    if let Ok(placing) = by_layers {
        pack(&placing, &mut sheet);
        assert!(rt; packed(&placing).is_ok_and(|own| own.as_slice() == SHEET.as_slice()));
    }
    assert!(rt; sheet == SHEET);
}

#[test]
fn sheet_and_film_are_read(rt: HostRuntime) {
    let sheet = judge(rt.alloc(), &SHEET);
    assert!(rt; sheet.is_ok());
    if let Ok(mut sheet) = sheet {
        assert!(rt; number_nets(&mut sheet.nodes) == 2);
        assert!(rt; record_count(&sheet, 2) == 8);
        assert!(rt;
            sheet
                .row()
                .is_ok_and(|row| row.as_slice() == [0, 1, 0, 1].as_slice())
        );
        let mut film = Film::new(rt.alloc());
        assert!(rt; film.count_points(&FILM, &sheet) == Ok(72));
        assert!(rt; shows(&mut film, &sheet));
    }
}

#[test]
fn nets_are_numbered(rt: HostRuntime) {
    let numbers = numbers_of(rt.alloc(), b"ab\xffab");
    let wanted = [Some(0), Some(1), None, Some(0), Some(1)];
    assert!(rt; numbers.is_ok_and(|numbers| numbers.as_slice() == wanted.as_slice()));
}

#[test]
fn lent_memory_serves_as_well(rt: HostRuntime) {
    let mut lent = [Node::new(Kind::Blank, 0); MOST_NODES];
    assert!(rt;
        first_fault(&SHEET, &mut lent).is_ok_and(|head| head.streets == STREETS && head.nodes == 4)
    );
    let nodes = &mut lent[..4];
    assert!(rt; number_nets(nodes) == 2);
    let mut columns = [[Point::default(); LEVELS]; 49];
    let mut places = [Place {
        column: 0,
        level: 0,
    }; 441];
    let mut film = LentFilm::new(&mut columns, &mut places, 4);
    assert!(rt; film.count_points(&FILM, nodes, STREETS) == Ok(72));
    assert!(rt; shows_wires(&mut film, nodes, STREETS));
    assert!(rt; in_order(&FILM, 4) && !in_order(&FILM, 5));
    assert!(rt; layers::search(nodes, STREETS, &mut [Order::new(); 6], &mut [0; 4]).is_ok());
    let mut sheet = [0xff; 5];
    pack_nodes(nodes, STREETS, &mut sheet);
    assert!(rt; sheet == SHEET);
}
