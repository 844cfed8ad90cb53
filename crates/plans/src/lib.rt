// Which blocks move when one layout takes the place of another: level by level, from the ends of the two runs, the lone blocks and the hole
// alone, with no pass over the nodes.
#![tactic(auto)]

ghost use Rattle.std.specs.Prelude.{◌≡◌, [], ◌∷◌, ◌++◌, ◌+◌, ◌^◌, ◌≤◌, ◌<◌, length, get_or};
ghost use Rattle.layout.specs.Rows.{no_index};
ghost use Rattle.plans.specs.Plan.{row_holds, after as Plan·after, only_in, better_of, least_only, moves_in, plan_of, with_move};
ghost use Rattle.plans.specs.Plan.{move_of, level_shifts, Shiftable, LevelShifted};
ghost use Rattle.plans.specs.Plan.{row_of, index_on, node_on, Plannable, AllPlanned};

use layout::{Layout, NONE};
use table::{Move, NODES};

// The blocks of one level by index: the `run` indices from `start` on, and `lone`, but not `hole`. NONE for no lone block, and for no hole.
// No Option in place of NONE: layout::Layout has it too, and as the highest index `better` compares it like any other.
#[derive(Clone, Copy, PartialEq, Eq)]
pub struct Row {
    pub start: u16,
    pub run: u16,
    pub lone: u16,
    pub hole: u16,
}

impl Row {
    // Whether the block with this index is in the row.
    #[tactic(auto, unfolding(crate::specs::Plan::row_holds))]
    fn holds(self, index: u16) -> bool
        ensures { result ≡ row_holds self index }
    {
        index != self.hole && layout::in_row(self.start, self.run, self.lone, index)
    }
}

// The index behind another; NONE behind NONE.
fn after(index: u16) -> u16
    ensures { result ≡ Plan·after index }
{
    index.saturating_add(1)
}

// The candidate, if it is at least `from`, less than `best`, in `old` and not in `new`; else `best`.
#[tactic(auto, unfolding(crate::specs::Plan::better_of))]
fn better(old: Row, new: Row, from: u16, candidate: u16, best: u16) -> u16
    ensures { result ≡ better_of (only_in old new) from candidate best }
{
    if candidate < from || best <= candidate || new.holds(candidate) || !old.holds(candidate) {
        best
    } else {
        candidate
    }
}

// The least index from `from` on that is in `old` and not in `new`; NONE if there is none. Behind an index that is not of that kind, the next one
// is only where something of `old` begins or something of `new` ends.
fn least(old: Row, new: Row, from: u16) -> u16
    requires { new.start + new.run < no_index }
    ensures { result ≡ least_only old new from }
{
    let here = better(old, new, from, from, NONE);
    let at_start = better(old, new, from, old.start, here);
    let at_lone = better(old, new, from, old.lone, at_start);
    let behind_hole = better(old, new, from, after(old.hole), at_lone);
    let behind_run = better(old, new, from, new.start + new.run, behind_hole);
    let behind_lone = better(old, new, from, after(new.lone), behind_run);
    better(old, new, from, new.hole, behind_lone)
}

// At most seven moves, in order: the first `n` entries. The others hold zeros.
// No invariant of the type says so: lines::line and image::put_moves take any plan.
#[derive(Clone, Copy)]
pub struct Plan {
    pub n: usize,
    pub moves: [Move; 7],
}

impl Plan {
    // No moves.
    pub fn none() -> Plan
        ensures { result ≡ plan_of [] }
    {
        let unused = Move {
            tenant: 0,
            from: 0,
            to: 0,
            staged: 0,
        };
        Plan {
            n: 0,
            moves: [unused; 7],
        }
    }

    // The plan with one move more, at the end: `pushed_at_end` says what that is where the spare entries hold zeros.
    pub fn push(self, m: Move) -> Plan
        requires { self.n < 7 }
        ensures { result ≡ with_move self m }
    {
        let mut moves = self.moves;
        moves[self.n] = m;
        Plan {
            n: self.n + 1,
            moves,
        }
    }
}

// The move of whoever is on the node `from`; `owners` has each node's tenant and one.
fn move_from(owners: &[u16; NODES], from: u16, to: u16) -> Move
    requires { (from < 8192) × (0 < get_or owners.now from 0) }
    ensures { result ≡ move_of owners.now (record { from = from; to = to }) }
{
    Move {
        tenant: owners[from as usize] - 1,
        from,
        to,
        staged: 0,
    }
}

// A plan, and the index of a place that is left over, or NONE.
#[derive(Clone, Copy)]
pub struct Shifted {
    pub plan: Plan,
    pub spare: u16,
}

// The plan with the moves from one row to another at its end: the blocks that are in `old` and not in `new` go, left to right, to the places
// that are in `new` and not in `old`; spare is the first place left over. The level's first node is `base`, and `owners` has each node's tenant
// and one. A level that stays as it was, as most do, is not searched.
fn shift_rows(plan: Plan, base: u16, old: Row, new: Row, owners: &[u16; NODES]) -> Shifted
    requires rows { Shiftable base old new owners.now }
    requires room { (plan.n + length (level_shifts base old new) ≤ 7) × (plan ≡ plan_of (moves_in plan)) }
    ensures { LevelShifted base old new owners.now plan result }
{
    if old == new {
        return Shifted { plan, spare: NONE };
    }
    let mut plan = plan;
    let mut i = least(old, new, 0);
    let mut j = least(new, old, 0);
    while i < NONE && j < NONE {
        plan = plan.push(move_from(owners, base + i, base + j));
        i = least(old, new, i + 1);
        j = least(new, old, j + 1);
    }
    Shifted { plan, spare: j }
}

// The row of one level of a layout, with a hole.
fn row_of(rows: Layout, level: u16, hole: u16) -> Row
    requires { level ≤ 12 }
    ensures { result ≡ row_of rows level hole }
{
    let l = level as usize;
    Row {
        start: rows.start[l],
        run: rows.run[l],
        lone: rows.lone[l],
        hole,
    }
}

// The index of a node on the level whose first node is `base`, and which has `base` nodes; NONE for a node of another level.
fn index_on(base: u16, node: u16) -> u16
    ensures { result ≡ index_on base node }
{
    if base <= node && node - base < base {
        node - base
    } else {
        NONE
    }
}

// The node with an index on the level whose first node is `base`; 0 for NONE.
fn node_on(base: u16, index: u16) -> u16
    requires { index < no_index → base + index < 2 ^ 16 }
    ensures { result ≡ node_on base index }
{
    if index == NONE { 0 } else { base + index }
}

// Moves, and the newcomer's node, or 0.
#[derive(Clone, Copy)]
pub struct Planned {
    pub plan: Plan,
    pub node: u16,
}

// The moves that bring everybody from the old layout, without the node `gone` (0 for none), into the new one, by level from 0 up and left to
// right; and the place on the level wanted that they leave over, 0 if there is none. `owners` has each node's tenant and one.
pub fn plan_moves(
    height: u16,
    old: Layout,
    new: Layout,
    gone: u16,
    wanted: u16,
    owners: &[u16; NODES],
) -> Planned
    requires { Plannable height old new gone owners.now }
    ensures { AllPlanned height old new gone wanted owners.now result }
{
    let mut sofar = Planned {
        plan: Plan::none(),
        node: 0,
    };
    for level in 0..=height {
        let base = layout::power(height - level);
        let from = row_of(old, level, index_on(base, gone));
        let to = row_of(new, level, NONE);
        let s = shift_rows(sofar.plan, base, from, to, owners);
        let node = if level == wanted {
            node_on(base, s.spare)
        } else {
            sofar.node
        };
        sofar = Planned { plan: s.plan, node };
    }
    sofar
}
