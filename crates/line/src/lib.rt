// The line of those who wait for a block, over 193 lent numbers: how many wait, then tenant, level and passed count of each, the oldest first, and
// zeros behind them.
#![tactic(auto)]

ghost use Rattle.std.specs.Prelude.{◌≡◌, ℕ, ◌+◌, ◌-◌, ◌*◌, ◌≤◌, ◌<◌, [], ◌∷◌, ◌++◌, ltb, length, take, drop};
ghost use Rattle.line.specs.Line.{line_of, at, standing, waiting_count, waiting_in, waiting_of};
ghost use Rattle.line.specs.Order.{may_wait?, orderly?, line_in_order?};
ghost use Rattle.line.specs.Changes.{InForm, barred as Changes·barred, joined, once_more, place_of, place_chosen, front, without};

use table::passes::used;

// How many numbers a line has.
pub const NUMBERS: usize = 193;

// The most that wait.
pub const MOST: u16 = 64;

// How often one that waits may be passed.
const LIMIT: u16 = 8;

// The largest tenant number.
const LAST_TENANT: u16 = 4095;

// One who waits: its number, the level that it waits for, and its passed count.
#[derive(Clone, Copy)]
struct Waiting {
    tenant: u16,
    level: u16,
    passed: u16,
}

// The one at place i.
fn waiting_at(line: &[u16], i: usize) -> Waiting
    requires { 3 * i + 3 < length line.now }
    ensures { waiting_of result ≡ at line.now i }
{
    Waiting {
        tenant: line[3 * i + 1],
        level: line[3 * i + 2],
        passed: line[3 * i + 3],
    }
}

// Whether the numbers are a line in order, over the table.
pub fn in_order(height: u16, table: &[u16], line: &[u16]) -> bool
    requires { (length table.now ≡ 4096) × (length line.now ≡ 193) }
    ensures { result ≡ line_in_order? height table.now line.now }
{
    let count = line[0];
    if MOST < count {
        return false;
    }
    let n = count as usize;
    if used(&line[3 * n + 1..]) != 0 {
        return false;
    }
    orderly(height, table, line, n)
}

// Whether each of the first n may wait, and no tenant stands there twice.
fn orderly(height: u16, table: &[u16], line: &[u16], n: usize) -> bool
    requires { (length table.now ≡ 4096) × (3 * n < length line.now) × (n ≤ 64) }
    ensures { result ≡ orderly? height table.now (standing line.now 0 n) }
{
    for i in 0..n {
        let w = waiting_at(line, i);
        if !may_wait(height, table, w) {
            return false;
        }
        if place_from(line, i + 1, n, w.tenant) < n {
            return false;
        }
    }
    true
}

// Whether one may wait: not passed too often, a level of the reserve, a tenant's number, and nothing held.
fn may_wait(height: u16, table: &[u16], w: Waiting) -> bool
    requires { length table.now ≡ 4096 }
    ensures { result ≡ may_wait? height table.now (waiting_of w) }
{
    w.passed <= LIMIT
        && w.level <= height
        && w.tenant <= LAST_TENANT
        && table[usize::from(w.tenant)] == 0
}

// The place of a tenant, from a place on and below n; n if it stands at none.
fn place_from(line: &[u16], from: usize, n: usize, tenant: u16) -> usize
    requires { (3 * n < length line.now) × (from ≤ n) × (n ≤ 64) }
    ensures { result ≡ from + place_of tenant (standing line.now from (n - from)) }
{
    for i in from..n {
        if waiting_at(line, i).tenant == tenant {
            return i;
        }
    }
    n
}

// The functions below are handed over lent numbers, and their signatures are promised (docs/PROOFS.md): so `InForm` stands at each.

// The place of a tenant in line; the place behind the last if it is not in line.
#[tactic(auto, using(crate::proofs::Numbers::length_in_form, crate::proofs::Numbers::count_in_form))]
pub fn place_of(line: &[u16], tenant: u16) -> usize
    requires { InForm line.now }
    ensures { result ≡ place_of tenant (waiting_in line.now) }
{
    place_from(line, 0, line[0] as usize, tenant)
}

// Whether somebody in line was passed as often as may be.
#[tactic(auto, using(crate::proofs::Numbers::length_in_form, crate::proofs::Numbers::count_in_form))]
pub fn barred(line: &[u16]) -> bool
    requires { InForm line.now }
    ensures { result ≡ Changes·barred (waiting_in line.now) }
{
    let n = line[0] as usize;
    for i in 0..n {
        if LIMIT <= waiting_at(line, i).passed {
            return true;
        }
    }
    false
}

// The place of the first from the front whose level is one of the lowest so many, but of nobody behind one that was passed as often as may be; the
// place behind the last if there is none.
#[tactic(auto, using(crate::proofs::Numbers::length_in_form, crate::proofs::Numbers::count_in_form))]
pub fn choose(line: &[u16], levels: u16) -> usize
    requires { InForm line.now }
    ensures { result ≡ place_chosen (λ (l : ℕ). ltb l levels) (waiting_in line.now) }
{
    let n = line[0] as usize;
    for place in 0..n {
        let w = waiting_at(line, place);
        if w.level < levels {
            return place;
        }
        if LIMIT <= w.passed {
            return n;
        }
    }
    n
}

// Passes the first n once more.
#[tactic(auto, using(crate::proofs::Numbers::length_in_form, crate::proofs::Numbers::count_in_form))]
pub fn pass(line: &mut [u16], n: usize)
    requires { InForm line.old × (n ≤ waiting_count line.old) }
    ensures { line.new ≡ line_of (front once_more n (waiting_in line.old)) }
{
    for i in 0..n {
        line[3 * i + 3] += 1;
    }
}

// Puts a tenant at the end of a line that has a place left.
#[tactic(auto, using(crate::proofs::Numbers::length_in_form, crate::proofs::Numbers::count_in_form))]
pub fn join(line: &mut [u16], tenant: u16, level: u16)
    requires { InForm line.old × (waiting_count line.old < 64) }
    ensures { line.new ≡ line_of (joined tenant level (waiting_in line.old)) }
{
    let n = line[0] as usize;
    line[0] += 1;
    line[3 * n + 1] = tenant;
    line[3 * n + 2] = level;
}

// Takes the one at a place out of the line.
#[tactic(auto, using(crate::proofs::Numbers::length_in_form, crate::proofs::Numbers::count_in_form))]
pub fn take_out(line: &mut [u16], place: usize)
    requires { InForm line.old × (place < waiting_count line.old) }
    ensures { line.new ≡ line_of (without place (waiting_in line.old)) }
{
    close_gap(line, 3 * place + 1);
    line[0] -= 1;
}

// Moves the numbers behind the three from an index on up by three, and puts zeros at the end.
fn close_gap(line: &mut [u16], from: usize)
    requires { (length line.old ≡ 193) × (from + 3 ≤ 193) }
    ensures { line.new ≡ take from line.old ++ drop (from + 3) line.old ++ 0 ∷ 0 ∷ 0 ∷ [] }
{
    line.copy_within(from + 3..NUMBERS, from);
    line[NUMBERS - 3..NUMBERS].fill(0);
}
