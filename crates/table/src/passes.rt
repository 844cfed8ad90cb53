// Passes over the table by tenant, and over the owners by node: how many entries are used, who holds which node, and the nodes held by level.
ghost use Rattle.std.specs.Prelude.{◌≡◌, true, ℕ, suc, ◌^◌, ◌≤◌, eqb, ltb, length};
ghost use Rattle.table.specs.Table.{tally};
ghost use Rattle.table.specs.Owners.{nodes_below, owners_from, stored_if, used_in, level_counts};

use crate::NODES;
use layout::LEVELS;

// How many entries are 0, counted in 16 bits, of which the processor adds more at a time than of a count's.
fn zeros(part: &[u16]) -> u16
    requires { length part.now ≤ 8192 }
    ensures { result ≡ tally (λ n. eqb n 0) part.now }
{
    let mut n: u16 = 0;
    for entry in part {
        n += u16::from(*entry == 0);
    }
    n
}

// How many entries are not 0. To count those that are takes the processor fewer steps.
pub fn used(part: &[u16]) -> usize
    requires { length part.now ≤ 8192 }
    ensures { result ≡ used_in part.now }
{
    part.len() - usize::from(zeros(part))
}

// The bits that any entry has: a number that is below a power of two exactly if all entries are.
fn any_bits(part: &[u16]) -> u16
    ensures { (k : ℕ) → ltb result (2 ^ k) ≡ nodes_below (2 ^ k) part.now }
{
    part.iter().fold(0, |bits, entry| bits | *entry)
}

// Stores each tenant's number and one at its node, in the tenants' order.
fn store(table: &[u16], owner: &mut [u16; NODES])
    requires { (length table.now ≤ 4096) × (nodes_below 8192 table.now ≡ true) }
    ensures { owner.new ≡ owners_from owner.old 0 table.now }
{
    for (tenant, node) in table.iter().enumerate() {
        owner[usize::from(*node)] = tenant as u16 + 1;
    }
}

// Whether no node lies past a tree of this height; if so, each node of the table has its owner stored, and else nothing is. That all nodes
// are tested before the first is stored makes both passes faster.
pub fn owners(height: u16, table: &[u16], owner: &mut [u16; NODES]) -> bool
    requires { (length table.now ≤ 4096) × (height ≤ 12) }
    ensures below { result ≡ nodes_below (2 ^ suc height) table.now }
    ensures stored { owner.new
        ≡ stored_if (nodes_below (2 ^ suc height) table.now) owner.old table.now }
{
    let limit = 2 * layout::power(height);
    if any_bits(table) < limit {
        store(table, owner);
        return true;
    }
    false
}

// How many nodes of each level have an owner; 0 above the height.
pub fn level_counts(height: u16, owner: &[u16; NODES]) -> [u16; LEVELS]
    requires { height ≤ 12 }
    ensures { result ≡ level_counts height owner.now }
{
    let mut counts = [0u16; LEVELS];
    // Level by level from the root down: the first node of a level is twice that of the level above.
    let mut first = 1;
    for level in (0..=usize::from(height)).rev() {
        let next = 2 * first;
        counts[level] = used(&owner[first..next]) as u16;
        first = next;
    }
    counts
}
