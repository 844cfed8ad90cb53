// The page map through the C door.
ghost use Rattle.std.specs.Prelude.{◌≡◌};
ghost use Rattle.pagemap.specs.Draw.{drawing, drawn};
ghost use Rattle.pagemap.specs.Count.{counted};
ghost use Rattle.image.specs.Image.{table_of};
ghost use Rattle.reserve.specs.Door.{count_of};

use image::decode;
use table::TENANTS;

// What counting reports: 0 or 15, and the number of set bits.
// The C interface: it has a number in the place of a Result.
#[repr(C)]
#[derive(Clone, Copy)]
pub struct Counted {
    pub answer: u16,
    pub count: u16,
}

// Draws the page map of a table into the first 512 bytes.
pub fn reserve_draw(height: u16, table: &[u8], map: &mut [u8]) -> u16
    ensures { drawing result map.new ≡ drawn height (table_of table.now) map.old }
{
    let mut nodes = [0u16; TENANTS];
    let n = decode(table, &mut nodes[..]);
    match pagemap::draw(height, &nodes[..n], map) {
        Ok(()) => 0,
        Err(refusal) => u16::from(refusal),
    }
}

// The number of set bits in the first 512 bytes of a map.
pub fn reserve_count(map: &[u8]) -> Counted
    ensures { result ≡ count_of (counted map.now) }
{
    match pagemap::count(map) {
        Ok(count) => Counted { answer: 0, count },
        Err(refusal) => Counted {
            answer: u16::from(refusal),
            count: 0,
        },
    }
}
