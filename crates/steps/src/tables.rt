// The tables of orders of four nets, in words: what an ending leaves of a set of them, what leads back to it, and where a net stands in one.
//
// A net is named by its elders, how many of the four are older. Fewer than four nets are four with the missing ones on top.
// `e < 4` is asked by each function of a net's elders: e indexes a table, and is made from b and a, as b - 1 - a, or is an `Older`'s; a type for it would ask at each
// making what is asked here.
ghost use Rattle.std.specs.Prelude.{◌≡◌, ◌&&◌, ℕ, ◌*◌, ◌+◌, ◌-◌, ◌/◌, ◌%◌, ◌^◌, ◌≤◌, ◌<◌};
ghost use Rattle.steps.specs.Ranks.{capacity, fact, at_of};
ghost use Rattle.steps.specs.Sets.{bit};
ghost use Rattle.steps.specs.Stops.{Located};
ghost use Rattle.steps.specs.Four.{place_of, left_of, piece_left, Left, Pulls, Legal, Mask};

use crate::rank::{Place, beside, factorial};
use crate::word::only;
use rules::Streets;

// All orders of four nets.
pub(crate) const ALL: u32 = 16777215;

// By the elders of the net that ends, the place of the youngest and a set of the orders with the youngest there: the ranks of three that are left.
static LEFT: [[[u8; 64]; 4]; 4] = [
    [
        [
            0, 1, 1, 1, 2, 3, 3, 3, 1, 1, 1, 1, 3, 3, 3, 3, 2, 3, 3, 3, 2, 3, 3, 3, 3, 3, 3, 3, 3,
            3, 3, 3, 2, 3, 3, 3, 2, 3, 3, 3, 3, 3, 3, 3, 3, 3, 3, 3, 2, 3, 3, 3, 2, 3, 3, 3, 3, 3,
            3, 3, 3, 3, 3, 3,
        ],
        [
            0, 4, 4, 4, 8, 12, 12, 12, 1, 5, 5, 5, 9, 13, 13, 13, 8, 12, 12, 12, 8, 12, 12, 12, 9,
            13, 13, 13, 9, 13, 13, 13, 2, 6, 6, 6, 10, 14, 14, 14, 3, 7, 7, 7, 11, 15, 15, 15, 10,
            14, 14, 14, 10, 14, 14, 14, 11, 15, 15, 15, 11, 15, 15, 15,
        ],
        [
            0, 16, 4, 20, 32, 48, 36, 52, 4, 20, 4, 20, 36, 52, 36, 52, 8, 24, 12, 28, 40, 56, 44,
            60, 12, 28, 12, 28, 44, 60, 44, 60, 8, 24, 12, 28, 40, 56, 44, 60, 12, 28, 12, 28, 44,
            60, 44, 60, 8, 24, 12, 28, 40, 56, 44, 60, 12, 28, 12, 28, 44, 60, 44, 60,
        ],
        [
            0, 16, 16, 16, 32, 48, 48, 48, 16, 16, 16, 16, 48, 48, 48, 48, 32, 48, 48, 48, 32, 48,
            48, 48, 48, 48, 48, 48, 48, 48, 48, 48, 32, 48, 48, 48, 32, 48, 48, 48, 48, 48, 48, 48,
            48, 48, 48, 48, 32, 48, 48, 48, 32, 48, 48, 48, 48, 48, 48, 48, 48, 48, 48, 48,
        ],
    ],
    [
        [
            0, 1, 1, 1, 1, 1, 1, 1, 2, 3, 3, 3, 3, 3, 3, 3, 2, 3, 3, 3, 3, 3, 3, 3, 2, 3, 3, 3, 3,
            3, 3, 3, 2, 3, 3, 3, 3, 3, 3, 3, 2, 3, 3, 3, 3, 3, 3, 3, 2, 3, 3, 3, 3, 3, 3, 3, 2, 3,
            3, 3, 3, 3, 3, 3,
        ],
        [
            0, 4, 4, 4, 1, 5, 5, 5, 8, 12, 12, 12, 9, 13, 13, 13, 2, 6, 6, 6, 3, 7, 7, 7, 10, 14,
            14, 14, 11, 15, 15, 15, 8, 12, 12, 12, 9, 13, 13, 13, 8, 12, 12, 12, 9, 13, 13, 13, 10,
            14, 14, 14, 11, 15, 15, 15, 10, 14, 14, 14, 11, 15, 15, 15,
        ],
        [
            0, 4, 16, 20, 4, 4, 20, 20, 32, 36, 48, 52, 36, 36, 52, 52, 8, 12, 24, 28, 12, 12, 28,
            28, 40, 44, 56, 60, 44, 44, 60, 60, 8, 12, 24, 28, 12, 12, 28, 28, 40, 44, 56, 60, 44,
            44, 60, 60, 8, 12, 24, 28, 12, 12, 28, 28, 40, 44, 56, 60, 44, 44, 60, 60,
        ],
        [
            0, 16, 16, 16, 16, 16, 16, 16, 32, 48, 48, 48, 48, 48, 48, 48, 32, 48, 48, 48, 48, 48,
            48, 48, 32, 48, 48, 48, 48, 48, 48, 48, 32, 48, 48, 48, 48, 48, 48, 48, 32, 48, 48, 48,
            48, 48, 48, 48, 32, 48, 48, 48, 48, 48, 48, 48, 32, 48, 48, 48, 48, 48, 48, 48,
        ],
    ],
    [
        [
            0, 1, 2, 3, 1, 1, 3, 3, 2, 3, 2, 3, 3, 3, 3, 3, 1, 1, 3, 3, 1, 1, 3, 3, 3, 3, 3, 3, 3,
            3, 3, 3, 2, 3, 2, 3, 3, 3, 3, 3, 2, 3, 2, 3, 3, 3, 3, 3, 3, 3, 3, 3, 3, 3, 3, 3, 3, 3,
            3, 3, 3, 3, 3, 3,
        ],
        [
            0, 1, 2, 3, 4, 5, 6, 7, 8, 9, 10, 11, 12, 13, 14, 15, 4, 5, 6, 7, 4, 5, 6, 7, 12, 13,
            14, 15, 12, 13, 14, 15, 8, 9, 10, 11, 12, 13, 14, 15, 8, 9, 10, 11, 12, 13, 14, 15, 12,
            13, 14, 15, 12, 13, 14, 15, 12, 13, 14, 15, 12, 13, 14, 15,
        ],
        [
            0, 4, 8, 12, 4, 4, 12, 12, 8, 12, 8, 12, 12, 12, 12, 12, 16, 20, 24, 28, 20, 20, 28,
            28, 24, 28, 24, 28, 28, 28, 28, 28, 32, 36, 40, 44, 36, 36, 44, 44, 40, 44, 40, 44, 44,
            44, 44, 44, 48, 52, 56, 60, 52, 52, 60, 60, 56, 60, 56, 60, 60, 60, 60, 60,
        ],
        [
            0, 16, 32, 48, 16, 16, 48, 48, 32, 48, 32, 48, 48, 48, 48, 48, 16, 16, 48, 48, 16, 16,
            48, 48, 48, 48, 48, 48, 48, 48, 48, 48, 32, 48, 32, 48, 48, 48, 48, 48, 32, 48, 32, 48,
            48, 48, 48, 48, 48, 48, 48, 48, 48, 48, 48, 48, 48, 48, 48, 48, 48, 48, 48, 48,
        ],
    ],
    [
        [
            0, 1, 2, 3, 4, 5, 6, 7, 8, 9, 10, 11, 12, 13, 14, 15, 16, 17, 18, 19, 20, 21, 22, 23,
            24, 25, 26, 27, 28, 29, 30, 31, 32, 33, 34, 35, 36, 37, 38, 39, 40, 41, 42, 43, 44, 45,
            46, 47, 48, 49, 50, 51, 52, 53, 54, 55, 56, 57, 58, 59, 60, 61, 62, 63,
        ],
        [
            0, 1, 2, 3, 4, 5, 6, 7, 8, 9, 10, 11, 12, 13, 14, 15, 16, 17, 18, 19, 20, 21, 22, 23,
            24, 25, 26, 27, 28, 29, 30, 31, 32, 33, 34, 35, 36, 37, 38, 39, 40, 41, 42, 43, 44, 45,
            46, 47, 48, 49, 50, 51, 52, 53, 54, 55, 56, 57, 58, 59, 60, 61, 62, 63,
        ],
        [
            0, 1, 2, 3, 4, 5, 6, 7, 8, 9, 10, 11, 12, 13, 14, 15, 16, 17, 18, 19, 20, 21, 22, 23,
            24, 25, 26, 27, 28, 29, 30, 31, 32, 33, 34, 35, 36, 37, 38, 39, 40, 41, 42, 43, 44, 45,
            46, 47, 48, 49, 50, 51, 52, 53, 54, 55, 56, 57, 58, 59, 60, 61, 62, 63,
        ],
        [
            0, 1, 2, 3, 4, 5, 6, 7, 8, 9, 10, 11, 12, 13, 14, 15, 16, 17, 18, 19, 20, 21, 22, 23,
            24, 25, 26, 27, 28, 29, 30, 31, 32, 33, 34, 35, 36, 37, 38, 39, 40, 41, 42, 43, 44, 45,
            46, 47, 48, 49, 50, 51, 52, 53, 54, 55, 56, 57, 58, 59, 60, 61, 62, 63,
        ],
    ],
];

// By the elders of the net that ends and a set of ranks of three: the orders of four that leave one of them.
static BACK: [[u32; 64]; 4] = [
    [
        0, 523, 2100, 2623, 41152, 41675, 43252, 43775, 197888, 198411, 199988, 200511, 239040,
        239563, 241140, 241663, 2887680, 2888203, 2889780, 2890303, 2928832, 2929355, 2930932,
        2931455, 3085568, 3086091, 3087668, 3088191, 3126720, 3127243, 3128820, 3129343, 13647872,
        13648395, 13649972, 13650495, 13689024, 13689547, 13691124, 13691647, 13845760, 13846283,
        13847860, 13848383, 13886912, 13887435, 13889012, 13889535, 16535552, 16536075, 16537652,
        16538175, 16576704, 16577227, 16578804, 16579327, 16733440, 16733963, 16735540, 16736063,
        16774592, 16775115, 16776692, 16777215,
    ],
    [
        0, 263, 1080, 1343, 20672, 20935, 21752, 22015, 199168, 199431, 200248, 200511, 219840,
        220103, 220920, 221183, 1843200, 1843463, 1844280, 1844543, 1863872, 1864135, 1864952,
        1865215, 2042368, 2042631, 2043448, 2043711, 2063040, 2063303, 2064120, 2064383, 14712832,
        14713095, 14713912, 14714175, 14733504, 14733767, 14734584, 14734847, 14912000, 14912263,
        14913080, 14913343, 14932672, 14932935, 14933752, 14934015, 16556032, 16556295, 16557112,
        16557375, 16576704, 16576967, 16577784, 16578047, 16755200, 16755463, 16756280, 16756543,
        16775872, 16776135, 16776952, 16777215,
    ],
    [
        0, 85, 170, 255, 21760, 21845, 21930, 22015, 43520, 43605, 43690, 43775, 65280, 65365,
        65450, 65535, 5570560, 5570645, 5570730, 5570815, 5592320, 5592405, 5592490, 5592575,
        5614080, 5614165, 5614250, 5614335, 5635840, 5635925, 5636010, 5636095, 11141120, 11141205,
        11141290, 11141375, 11162880, 11162965, 11163050, 11163135, 11184640, 11184725, 11184810,
        11184895, 11206400, 11206485, 11206570, 11206655, 16711680, 16711765, 16711850, 16711935,
        16733440, 16733525, 16733610, 16733695, 16755200, 16755285, 16755370, 16755455, 16776960,
        16777045, 16777130, 16777215,
    ],
    [
        0, 266305, 532610, 798915, 1065220, 1331525, 1597830, 1864135, 2130440, 2396745, 2663050,
        2929355, 3195660, 3461965, 3728270, 3994575, 4260880, 4527185, 4793490, 5059795, 5326100,
        5592405, 5858710, 6125015, 6391320, 6657625, 6923930, 7190235, 7456540, 7722845, 7989150,
        8255455, 8521760, 8788065, 9054370, 9320675, 9586980, 9853285, 10119590, 10385895,
        10652200, 10918505, 11184810, 11451115, 11717420, 11983725, 12250030, 12516335, 12782640,
        13048945, 13315250, 13581555, 13847860, 14114165, 14380470, 14646775, 14913080, 15179385,
        15445690, 15711995, 15978300, 16244605, 16510910, 16777215,
    ],
];

// By a net's elders and a set of places: the orders of four in which the net stands at one of them.
static STANDING: [[u32; 16]; 4] = [
    [
        0, 10652160, 4792360, 15444520, 1311890, 11964050, 6104250, 16756410, 20805, 10672965,
        4813165, 15465325, 1332695, 11984855, 6125055, 16777215,
    ],
    [
        0, 5326080, 8785940, 14112020, 2623585, 7949665, 11409525, 16735605, 41610, 5367690,
        8827550, 14153630, 2665195, 7991275, 11451135, 16777215,
    ],
    [
        0, 798912, 3194883, 3993795, 12583692, 13382604, 15778575, 16577487, 199728, 998640,
        3394611, 4193523, 12783420, 13582332, 15978303, 16777215,
    ],
    [
        0, 63, 4032, 4095, 258048, 258111, 262080, 262143, 16515072, 16515135, 16519104, 16519167,
        16773120, 16773183, 16777152, 16777215,
    ],
];

// By the tracks of the upper and of the lower street and how many nets are open: the places where the net of a node may stand. They are those of street's
// `places_among`, and `PLACES` has them with b! bits for each; each is one look here, where it is asked at every node.
static LEGAL: [[[u32; 7]; 4]; 4] = [
    [
        [0, 0, 0, 0, 0, 0, 0],
        [0, 1, 0, 0, 0, 0, 0],
        [0, 1, 1, 0, 0, 0, 0],
        [0, 1, 1, 1, 0, 0, 0],
    ],
    [
        [0, 1, 0, 0, 0, 0, 0],
        [0, 1, 3, 0, 0, 0, 0],
        [0, 1, 3, 3, 0, 0, 0],
        [0, 1, 3, 3, 3, 0, 0],
    ],
    [
        [0, 1, 2, 0, 0, 0, 0],
        [0, 1, 3, 6, 0, 0, 0],
        [0, 1, 3, 7, 6, 0, 0],
        [0, 1, 3, 7, 7, 6, 0],
    ],
    [
        [0, 1, 2, 4, 0, 0, 0],
        [0, 1, 3, 6, 12, 0, 0],
        [0, 1, 3, 7, 14, 12, 0],
        [0, 1, 3, 7, 15, 14, 12],
    ],
];

// By a net's elders and the rank of an order of four: how many stand above the net, and the rank of the other three.
static SPOTS: [[(u8, u8); 24]; 4] = [
    [
        (3, 0),
        (2, 0),
        (3, 1),
        (1, 0),
        (2, 1),
        (1, 1),
        (3, 2),
        (2, 2),
        (3, 3),
        (0, 0),
        (2, 3),
        (0, 1),
        (3, 4),
        (1, 2),
        (3, 5),
        (0, 2),
        (1, 3),
        (0, 3),
        (2, 4),
        (1, 4),
        (2, 5),
        (0, 4),
        (1, 5),
        (0, 5),
    ],
    [
        (2, 0),
        (3, 0),
        (1, 0),
        (3, 1),
        (1, 1),
        (2, 1),
        (2, 2),
        (3, 2),
        (0, 0),
        (3, 3),
        (0, 1),
        (2, 3),
        (1, 2),
        (3, 4),
        (0, 2),
        (3, 5),
        (0, 3),
        (1, 3),
        (1, 4),
        (2, 4),
        (0, 4),
        (2, 5),
        (0, 5),
        (1, 5),
    ],
    [
        (1, 0),
        (1, 1),
        (2, 0),
        (2, 1),
        (3, 0),
        (3, 1),
        (0, 0),
        (0, 1),
        (2, 2),
        (2, 3),
        (3, 2),
        (3, 3),
        (0, 2),
        (0, 3),
        (1, 2),
        (1, 3),
        (3, 4),
        (3, 5),
        (0, 4),
        (0, 5),
        (1, 4),
        (1, 5),
        (2, 4),
        (2, 5),
    ],
    [
        (0, 0),
        (0, 1),
        (0, 2),
        (0, 3),
        (0, 4),
        (0, 5),
        (1, 0),
        (1, 1),
        (1, 2),
        (1, 3),
        (1, 4),
        (1, 5),
        (2, 0),
        (2, 1),
        (2, 2),
        (2, 3),
        (2, 4),
        (2, 5),
        (3, 0),
        (3, 1),
        (3, 2),
        (3, 3),
        (3, 4),
        (3, 5),
    ],
];

// Where the net of age a stands in the order of rank r of b nets. Fewer than four count as four: those that are missing are the youngest and stand on top, so that
// ranks and older nets stay as they are. Of five and six the youngest is apart, and the net among the others.
pub fn locate(a: usize, b: usize, r: usize) -> Place
    requires { (a < b) × (b ≤ capacity) × (r < fact b) }
    ensures { Located a b r result }
{
    if b < 5 {
        let place = spot(b - 1 - a, r);
        return Place {
            at: place.at + b - 4,
            rest: place.rest,
        };
    }
    let (first, others) = parted(b, r);
    if a == 0 {
        return Place {
            at: first,
            rest: others,
        };
    }
    beside(first, factorial(b - 2), locate(a - 1, b - 1, others))
}

// The first digit of a rank of five or six nets, and the rank of the others, by constants: a division by a number from a table takes several times as long.
fn parted(b: usize, r: usize) -> (usize, usize)
    requires { (4 < b) × (b ≤ capacity) }
    ensures { (result.0 ≡ r / fact (b - 1)) × (result.1 ≡ r % fact (b - 1)) }
{
    if b == 5 {
        (r / 24, r % 24)
    } else {
        (r / 120, r % 120)
    }
}

// Where the net with e elders stands in the order of rank r of four nets.
fn spot(e: usize, r: usize) -> Place
    requires { (e < 4) × (r < 24) }
    ensures { Located (3 - e) 4 r result }
{
    let (at, rest) = SPOTS[e][r];
    Place {
        at: usize::from(at),
        rest: usize::from(rest),
    }
}

// The ranks of three that are left where the net with e elders ends in the orders of x.
pub(crate) fn without(e: usize, x: u32) -> u32
    requires { e < 4 }
    ensures { Left e x result }
{
    if x == 0 {
        return 0;
    }
    let a = left_of(e, x, 0);
    let b = left_of(e, x, 1);
    let c = left_of(e, x, 2);
    let d = left_of(e, x, 3);
    (a | b) | (c | d)
}

// The same of the orders with the youngest net at p alone.
fn left_of(e: usize, x: u32, p: usize) -> u32
    requires { (e < 4) × (p < 4) }
    ensures { result ≡ piece_left e p (x / 2 ^ (6 * p) % 64) }
{
    let i = (x >> (6 * p)) % 64;
    u32::from(LEFT[e][p][i as usize])
}

// The orders of four that leave one of y, ranks of three, where the net with e elders ends.
pub(crate) fn back(e: usize, y: u32) -> u32
    requires { (e < 4) × (y < 64) }
    ensures { Pulls (left_of e) y result }
{
    BACK[e][y as usize]
}

// The orders of four in which the net with e elders stands at one of a set of places.
pub(crate) fn standing(e: usize, places: u32) -> u32
    requires { (e < 4) × (places < 16) }
    ensures { Pulls (place_of e) places result }
{
    STANDING[e][places as usize]
}

// The places where the net of a node may stand, of b that are open there.
pub(crate) fn legal(streets: Streets, b: usize) -> u32
    requires { b ≤ 6 }
    ensures { Legal streets.upper streets.lower b result }
{
    LEGAL[streets.upper as usize][streets.lower as usize][b]
}

// b, a and l are three parameters, here, at `five_at` and at the functions of an ending: they are the node's own, or with six nets those of five of them, so that a
// struct of them would be made at each call and taken apart here.
//
// The orders of b nets in which the one of age a stands at a place of l. Apart from `five_at`, which has the place of the youngest to reckon with.
pub(crate) fn few_at(b: usize, a: usize, l: u32) -> u32
    requires { (a < b) × (b ≤ 4) × (l < 2 ^ b) }
    ensures { Mask (fact b) (λ r. bit l (at_of a b r)) result }
{
    standing(b - 1 - a, l << (4 - b))
}

// The orders of four older nets, with the youngest of five at e, in which the net of age a of the five stands at a place of l.
pub(crate) fn five_at(a: usize, l: u32, e: usize) -> u32
    requires { (a < 5) × (l < 32) × (e < 5) }
    ensures { Mask 24 (λ r. bit l (at_of a 5 (24 * e + r))) result }
{
    if a == 0 {
        return taken(l, e, ALL);
    }
    standing(4 - a, l % (1u32 << e) | ((l >> (e + 1)) << e))
}

// The word w, where k is in l.
pub(crate) fn taken(l: u32, k: usize, w: u32) -> u32
    requires { k < 32 }
    ensures { ((i : ℕ) → bit result i ≡ bit l k && bit w i) × (result ≤ w) }
{
    only((l >> k) % 2 == 1, w)
}
