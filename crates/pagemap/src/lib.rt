// The page map of a reserve: a bit for each page, set where a held block covers the page, and the number of bits set in a lent map.
#![tactic(auto)]

ghost use Rattle.std.specs.Prelude.{◌≡◌, ℕ, min, ◌≤◌, ◌<◌, ◌++◌, length, get_or, take, drop};
ghost use Rattle.refusal.specs.Number.{number_in};
ghost use Rattle.tree.specs.Held.{one_if};
ghost use Rattle.tree.specs.Pages.{coveredb};
ghost use Rattle.layout.specs.Rows.{rows_hold};
ghost use Rattle.pagemap.specs.Map.{byte_of, bytes_of};
ghost use Rattle.pagemap.specs.Draw.{drawing, drawn};
ghost use Rattle.pagemap.specs.Count.{set_bits, counted, count_in};
ghost use Rattle.pagemap.specs.Flags.{filled, row_filled};
ghost use Rattle.pagemap.specs.Numbers.{number_at};

use calls::request::reserve_refusal;
use layout::{LEVELS, Layout};
use refusal::Refusal;
use survey::survey;
use table::NODES;

// The most pages that a reserve has, and the bytes of a map with a bit for each.
const PAGES: usize = 4096;

pub const MAP_BYTES: usize = 512;

// Draws the page map of a table into the first 512 bytes, or refuses with the first refusal that applies.
pub fn draw(height: u16, table: &[u16], map: &mut [u8]) -> Result<(), Refusal>
    ensures { drawing (number_in result) map.new ≡ drawn height table.now map.old }
{
    reserve_refusal(height, table.len())?;
    let mut owner = [0u16; NODES];
    let found = survey(height, table, &mut owner);
    if !found.in_order {
        return Err(Refusal::NotInOrder);
    }
    if map.len() < MAP_BYTES {
        return Err(Refusal::TooShort);
    }
    write_map(found.counts.layout(), map);
    Ok(())
}

// The number of set bits in the first 512 bytes; a shorter map is refused.
pub fn count(map: &[u8]) -> Result<u16, Refusal>
    ensures answer { number_in result ≡ (counted map.now).answer }
    ensures count { count_in result ≡ (counted map.now).count }
{
    if MAP_BYTES <= map.len() {
        Ok(set_bits(map))
    } else {
        Err(Refusal::TooShort)
    }
}

// The number of set bits in the first 512 bytes: the ones of 64 numbers. The sum has 64 bits as well, so that the compiler adds up pairs of
// counts as they come out of its vector instructions.
fn set_bits(map: &[u8]) -> u16
    requires { 512 ≤ length map.now }
    ensures { result ≡ set_bits (take 512 map.now) }
{
    let mut n: u64 = 0;
    for bytes in map[..MAP_BYTES].as_chunks::<8>().0 {
        n += u64::from(number(*bytes).count_ones());
    }
    n as u16
}

// The number of 64 bits that eight bytes make, low byte first.
fn number(bytes: [u8; 8]) -> u64
    ensures { result ≡ number_at bytes 0 }
{
    u64::from_le_bytes(bytes)
}

// Writes the map of the layout to the first 512 bytes: a flag for each page, 1 where a block of the layout covers it, and the flags packed.
fn write_map(layout: Layout, map: &mut [u8])
    requires { 512 ≤ length map.old }
    ensures { map.new ≡ bytes_of 512 (λ p. one_if (coveredb 12 (rows_hold layout) p)) ++ drop 512 map.old }
{
    let Layout { start, run, lone } = layout;
    let mut pages = [0u8; PAGES];
    for level in 0..LEVELS {
        fill_row(
            &mut pages,
            1 << level,
            start[level],
            run[level],
            lone[level],
        );
    }
    pack(&pages, map);
}

// Sets the flags of the pages of the `run` blocks from index `start` on and of the block at index `lone`, each of `size` pages. What lies past
// the last page has no flag, and at any size that is where index 65,535 lies, which stands for no block.
fn fill_row(pages: &mut [u8; PAGES], size: usize, start: u16, run: u16, lone: u16)
    requires { size ≤ 4096 }
    ensures { pages.new ≡ row_filled size start run lone pages.old }
{
    let first = usize::from(start);
    let past = first + usize::from(run);
    fill(pages, first * size, past * size);
    let at = usize::from(lone);
    fill(pages, at * size, (at + 1) * size);
}

// Sets the flags of the pages from `from` to before `to`.
fn fill(pages: &mut [u8; PAGES], from: usize, to: usize)
    requires { from ≤ to }
    ensures { pages.new ≡ filled from to pages.old }
{
    pages[from.min(PAGES)..to.min(PAGES)].fill(1);
}

// Packs the flags into the first 512 bytes, eight to a byte.
fn pack(pages: &[u8; PAGES], map: &mut [u8])
    requires { (512 ≤ length map.old) × ((p : ℕ) → get_or pages.now p 0 ≤ 1) }
    ensures { map.new ≡ bytes_of 512 (λ p. get_or pages.now p 0) ++ drop 512 map.old }
{
    for (j, packed) in map[..MAP_BYTES].iter_mut().enumerate() {
        *packed = byte(pages, j);
    }
}

// Byte j of the map: the flags of the pages 8j to 8j + 7, the first of which weighs 1.
fn byte(pages: &[u8; PAGES], j: usize) -> u8
    requires { (j < 512) × ((p : ℕ) → get_or pages.now p 0 ≤ 1) }
    ensures { result ≡ byte_of (λ p. get_or pages.now p 0) j }
{
    let mut sum = 0;
    for b in (0..8).rev() {
        sum = sum * 2 + pages[8 * j + b];
    }
    sum
}
