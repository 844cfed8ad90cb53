// One look at a lent table: whether it is in order, how many blocks each level has, and who holds which node.
#![tactic(auto)]

ghost use Rattle.std.specs.Prelude.{◌≡◌, ℕ, ◌+◌, ◌^◌, ◌≤◌, ◌<◌, length, get_or, replicate};
ghost use Rattle.tree.specs.Pages.{sum};
ghost use Rattle.layout.specs.Layout.{pages};
ghost use Rattle.layout.specs.Rows.{no_index, rows_of};
ghost use Rattle.table.specs.Table.{in_order?};
ghost use Rattle.survey.specs.Owned.{row_owned, rows_owned};
ghost use Rattle.survey.specs.Survey.{Gathered, finding_of, owners_found};

use layout::{Counts, NONE};
use table::NODES;
use table::passes::{level_counts, owners, used};

// What a survey finds: whether the table is in order, and how many nodes of each level are held. The counts of a table out of order are
// promised too.
#[derive(Clone, Copy)]
pub struct Finding {
    pub in_order: bool,
    pub counts: Counts,
}

// What the table shows. `owner`, which is lent as zeros, then has at each held node its tenant's number and one; where a node lies past the
// tree, it is left as it was, and nothing is counted.
pub fn survey(height: u16, table: &[u16], owner: &mut [u16; NODES]) -> Finding
    requires { (height ≤ 12) × (length table.now ≡ 4096) × (owner.old ≡ replicate 8192 0) }
    ensures finding { result ≡ finding_of height table.now }
    ensures owners { owner.new ≡ owners_found height table.now }
{
    if !owners(height, table, owner) {
        return Finding {
            in_order: false,
            counts: Counts::none(),
        };
    }
    let counts = Counts {
        at: level_counts(height, owner),
    };
    Finding {
        in_order: ordered(height, table, counts, owner),
        counts,
    }
}

// Whether a table with no node past the tree is in order, from its owners by node and their number on each level.
fn ordered(height: u16, table: &[u16], counts: Counts, owner: &[u16; NODES]) -> bool
    requires { Gathered height table.now counts.at owner.now }
    ensures { result ≡ in_order? height table.now }
{
    // A node that stands twice is used twice and has one owner.
    let entries = used(table);
    let nodes = held(counts);
    if entries != nodes {
        return false;
    }
    if u32::from(layout::power(height)) < counts.total() {
        return false;
    }
    // Each level has as many owners as the layout has nodes there: if all of those have an owner, no other node has one.
    settled(height, counts, owner)
}

// How many blocks the counts have on all levels together.
fn held(counts: Counts) -> usize
    ensures { result ≡ sum 13 (λ (l : ℕ). get_or counts.at l 0) }
{
    let mut sum = 0;
    for n in counts.at {
        sum += usize::from(n);
    }
    sum
}

// Whether every node of the layout of the counts has an owner.
fn settled(height: u16, counts: Counts, owner: &[u16; NODES]) -> bool
    requires { (height ≤ 12) × (pages counts.at ≤ 2 ^ height) }
    ensures { result ≡ rows_owned height (rows_of counts.at) owner.now }
{
    let rows = counts.layout();
    // Level by level from the root down: the first node of a level is twice that of the level above.
    let mut first = 1;
    for level in (0..=usize::from(height)).rev() {
        if !level_settled(
            owner,
            first,
            rows.start[level],
            rows.run[level],
            rows.lone[level],
        ) {
            return false;
        }
        first *= 2;
    }
    true
}

// Whether every node of a level's row has an owner; the level's first node is `first`.
fn level_settled(nodes: &[u16], first: usize, start: u16, run: u16, lone: u16) -> bool
    requires { (length nodes.now ≡ 8192) × (first + start + run ≤ 8192) × (lone < no_index → first + lone < 8192) }
    ensures { result ≡ row_owned nodes.now first start run lone }
{
    let from = first + usize::from(start);
    let width = usize::from(run);
    if used(&nodes[from..from + width]) != width {
        return false;
    }
    if lone == NONE {
        return true;
    }
    nodes[first + usize::from(lone)] != 0
}
