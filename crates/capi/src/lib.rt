// The entry points as C calls them, under the names of include/niraflue.h. A slice is a pointer and a length there; an answer is its number · 2^32 + its place.
#![tactic(auto)]

ghost use Rattle.std.specs.Prelude.{◌≡◌};
ghost use Rattle.rules.specs.Answers.{route_said, read_said, draw_said, agrees as agreeing};
ghost use Rattle.router.specs.Routed.{Routed};
ghost use Rattle.sheet.specs.GivenBack.{GivenBack};
ghost use Rattle.film.specs.Walks.{Drawn};
ghost use Rattle.capi.specs.Codes.{Handed};

use answers::code;
use film::drawer::draw;
use router::route;
use sheet::agreement::agrees;
use sheet::reader::read;

#[unsafe(no_mangle)]
pub extern "C" fn niraflue_route(
    row: &[u8],
    ku: u8,
    kl: u8,
    work: &mut [u8],
    sheet: &mut [u8],
) -> u64
    ensures { Handed (λ r. Routed row.now ku kl work.old sheet.old r work.new sheet.new) route_said result }
{
    code(route(row, ku, kl, work, sheet))
}

#[unsafe(no_mangle)]
pub extern "C" fn niraflue_read(sheet: &[u8], row: &mut [u8]) -> u64
    ensures { Handed (λ r. GivenBack sheet.now row.old r row.new) read_said result }
{
    code(read(sheet, row))
}

#[unsafe(no_mangle)]
pub extern "C" fn niraflue_agrees(row: &[u8], sheet: &[u8]) -> bool
    ensures { result ≡ agreeing row.now sheet.now }
{
    agrees(row, sheet)
}

#[unsafe(no_mangle)]
pub extern "C" fn niraflue_draw(sheet: &[u8], film: &mut [u8]) -> u64
    ensures { Handed (λ r. Drawn sheet.now film.old r film.new) draw_said result }
{
    code(draw(sheet, film))
}
