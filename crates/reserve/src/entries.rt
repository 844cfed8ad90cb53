// A tenant's entry through the C door, as numbers.
ghost use Rattle.std.specs.Prelude.{◌≡◌};
ghost use Rattle.refusal.specs.Number.{number_of};
ghost use Rattle.image.specs.Image.{table_of};
ghost use Rattle.reserve.specs.Look.{no_entry, entry_for};

use journal::word;
use refusal::Refusal;
use table::TENANTS;

// What a tenant's entry holds: 0 or the number of a refusal, and the tenant's node, or 0 if it holds nothing.
// The C interface: it has a number in the place of a Result.
#[repr(C)]
#[derive(Clone, Copy)]
pub struct Entry {
    pub answer: u16,
    pub node: u16,
}

// Looks up a tenant's entry in a table.
pub fn reserve_look(table: &[u8], tenant: u16) -> Entry
    ensures { result ≡ entry_for (table_of table.now) tenant }
{
    if table.len() != 2 * TENANTS {
        return Entry::from(Refusal::TableLength);
    }
    let t = tenant as usize;
    if TENANTS <= t {
        return Entry::from(Refusal::Tenant);
    }
    let node = word(table[2 * t], table[2 * t + 1]);
    Entry { answer: 0, node }
}

impl From<Refusal> for Entry {
    ghost from_gives = { λ refusal entry. entry ≡ no_entry (number_of refusal) };

    // A refusal: its number, and no node.
    fn from(refusal: Refusal) -> Entry {
        Entry {
            answer: u16::from(refusal),
            node: 0,
        }
    }
}
