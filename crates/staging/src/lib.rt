// Which of some movers are staged, where they wait for one another, and who goes next. A mover is a number below n, and a group of them is a
// number too, with the binary digit for 2^k set if mover k is in it. It has no type of its own: `chosen` counts groups down as numbers.
#![tactic(auto)]

mod movers;

ghost use Rattle.std.specs.Prelude.{◌≡◌, cond, ◌+◌, ◌*◌, ◌^◌, ◌≤◌, ◌<◌, eqb};
ghost use Rattle.std.specs.Int.Bits.{bit_and, bit_or};
ghost use Rattle.staging.specs.Graph.{joined, away};
ghost use Rattle.staging.specs.Choice.{graph_of, has as Spec·has, can_go?, next_of, below_it, order_of, works?, cost_of};
ghost use Rattle.staging.specs.Choice.{free_of, cheaper_of, better_of, chosen_of, everyone, Prices};

pub use movers::{MOST, Mover, Movers};

// Whether mover k is in the group.
pub fn has(group: u8, k: usize) -> bool
    requires { k < 8 }
    ensures { result ≡ Spec·has group k }
{
    (group >> k) % 2 == 1
}

// The group of mover k alone.
fn single(k: usize) -> u8
    requires { k < 8 }
    ensures { result ≡ 2 ^ k }
{
    1 << k
}

// The group with mover k.
pub fn with_mover(group: u8, k: usize) -> u8
    requires { k < 8 }
    ensures members { Spec·has result ≡ joined (Spec·has group) k }
    ensures number { result ≡ bit_or group (2 ^ k) }
{
    group | single(k)
}

// The group of all n movers.
fn all(n: usize) -> u8
    requires { n ≤ 7 }
    ensures { result ≡ everyone n }
{
    single(n) - 1
}

// Whether every member of one group is in the other.
fn within(group: u8, other: u8) -> bool
    ensures { result ≡ eqb (bit_and group other) group }
{
    group & other == group
}

// Whether two groups have no member in common.
fn apart(group: u8, other: u8) -> bool
    ensures { result ≡ eqb (bit_and group other) 0 }
{
    group & other == 0
}

// What a mover adds to the cost, if it is in the group: a page counts eight times as much as a tenant.
fn price(pages: u16, staged: bool) -> u32
    ensures price { result ≡ cond staged (pages * 8 + 1) 0 }
    ensures bounded { result ≤ 524281 }
{
    if staged { u32::from(pages) * 8 + 1 } else { 0 }
}

// A group, and what it costs to stage it.
#[derive(Clone, Copy)]
struct Priced {
    group: u8,
    cost: u32,
}

impl Movers {
    // Whether mover k is still there and waits for nobody else who is.
    fn can_go(self, away: u8, k: usize) -> bool
        requires { k < self.n }
        ensures { result ≡ can_go? (graph_of self) (Spec·has away) k }
    {
        !has(away, k) && within(self.list[k].waits, away)
    }

    // The next to go, where some are away already; None if nobody can go.
    pub fn next(self, away: u8) -> Option<usize>
        ensures { result ≡ below_it (next_of (graph_of self) (Spec·has away)) }
    {
        for k in (0..self.n).rev() {
            if self.can_go(away, k) {
                return Some(k);
            }
        }
        None
    }

    // Those who are away once all have gone that can, where a group is staged.
    fn all_gone(self, staged: u8) -> u8
        ensures { Spec·has result ≡ away (Spec·has staged) (order_of (graph_of self) (Spec·has staged)) }
    {
        let mut away = staged;
        for _ in 0..self.n {
            let Some(k) = self.next(away) else {
                break;
            };
            away = with_mover(away, k);
        }
        away
    }

    // Whether everybody who is not staged can go.
    fn works(self, staged: u8) -> bool
        ensures { result ≡ works? (graph_of self) (Spec·has staged) }
    {
        within(all(self.n), self.all_gone(staged))
    }

    // What it costs to stage a group.
    fn cost(self, group: u8) -> u32
        ensures { result ≡ cost_of (graph_of self) (Spec·has group) }
    {
        let mut sum: u32 = 0;
        for k in 0..self.n {
            sum += price(self.list[k].pages, has(group, k));
        }
        sum
    }

    // The group, if it costs less than the best one so far and everybody else can go; else the best one.
    fn cheaper(self, group: u8, best: Priced) -> Priced
        requires { Prices self best }
        ensures group { result.group ≡ cheaper_of (graph_of self) group best.group }
        ensures cost { Prices self result }
    {
        let cost = self.cost(group);
        if cost < best.cost && self.works(group) {
            Priced { group, cost }
        } else {
            best
        }
    }

    // The same, but a group with somebody who need not be staged, since it can go anyhow, is not looked at further.
    fn better(self, free: u8, group: u8, best: Priced) -> Priced
        requires { Prices self best × (Spec·has free ≡ free_of (graph_of self)) × (group < 2 ^ self.n) }
        ensures group { result.group ≡ better_of (graph_of self) group best.group }
        ensures cost { Prices self result }
    {
        if apart(group, free) {
            self.cheaper(group, best)
        } else {
            best
        }
    }

    // The group to be staged: of those without which everybody else can go, the one with the fewest pages, then the fewest tenants, then the
    // first list of ascending tenant numbers, which is the highest number.
    pub fn chosen(self) -> u8
        ensures { result ≡ chosen_of (graph_of self) }
    {
        let free = self.all_gone(0);
        let everyone = all(self.n);
        let mut best = Priced {
            group: everyone,
            cost: self.cost(everyone),
        };
        for group in (0..everyone).rev() {
            best = self.better(free, group, best);
        }
        best.group
    }
}
