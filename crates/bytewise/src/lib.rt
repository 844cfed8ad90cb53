// The set bits of a page map counted byte by byte, as `pagemap::count` did before it took 64 bits at a time. Both have the same contract, so they
// give the same for every lent map. The benchmark holds them side by side; no other crate calls this one, and the C door's archive is without it.
#![tactic(auto)]

ghost use Rattle.std.specs.Prelude.{◌≡◌, ◌≤◌, length};
ghost use Rattle.refusal.specs.Number.{number_in};
ghost use Rattle.pagemap.specs.Count.{set_bits, counted, count_in};

use pagemap::MAP_BYTES;
use refusal::Refusal;

// The number of set bits in the first 512 bytes; a shorter map is refused.
pub fn bytewise_count(map: &[u8]) -> Result<u16, Refusal>
    ensures answer { number_in result ≡ (counted map.now).answer }
    ensures count { count_in result ≡ (counted map.now).count }
{
    if MAP_BYTES <= map.len() {
        Ok(set_bits(&map[..MAP_BYTES]))
    } else {
        Err(Refusal::TooShort)
    }
}

// The number of set bits of all the bytes.
fn set_bits(bytes: &[u8]) -> u16
    requires { length bytes.now ≤ 512 }
    ensures { result ≡ set_bits bytes.now }
{
    let mut n: u16 = 0;
    for byte in bytes {
        n += byte.count_ones() as u16;
    }
    n
}
