// A call whose arguments are valid: what the table decides, and the table changed.
ghost use Rattle.std.specs.Prelude.{◌≡◌, List, ℕ, ◌+◌, ◌^◌, ◌≤◌, leb};
ghost use Rattle.layout.specs.Layout.{pages};
ghost use Rattle.rules.specs.Call.{tenant_of};
ghost use Rattle.rules.specs.Step.{first, size_checks};
ghost use Rattle.rules.specs.Value.{call_of, Gives};
ghost use Rattle.calls.specs.Changes.{Ready, Looked, without as Changes·without, Target, Resettled};
ghost use Rattle.calls.specs.Changes.{place_on, to_holder, grant_on, release_on, change_on};

use crate::carry::carry_out;
use carrying::in_order;
use layout::{Counts, NO_LEVEL};
use plans::{Plan, plan_moves};
use refusal::Refusal;
use rules::{Call, Done};
use sizes::level_for;
use table::NODES;

// What a survey shows of a table in order: how many blocks each level has, and each node's tenant and one.
// Whether a look is one at the table, and whether table and tenant are ready, stay clauses: no ghost field can speak of the table, which is lent beside
// the look and changed.
#[derive(Clone, Copy)]
pub struct Look<'a> {
    pub counts: Counts,
    pub owners: &'a [u16; NODES],
}

// Runs the call unless the table refuses it. All kinds of call go through this one function, so that the owners stand on the stack once.
pub fn change(height: u16, table: &mut [u16], call: Call) -> Result<Done, Refusal>
    requires ready { Ready height table.old (tenant_of (call_of call 0)) }
    requires size { first (size_checks height (call_of call 0)) ≡ 0 }
    ensures { Gives (change_on height table.old (call_of call 0)) result table.new }
{
    let mut owners = [0u16; NODES];
    let found = survey::survey(height, table, &mut owners);
    if !found.in_order {
        return Err(Refusal::NotInOrder);
    }
    let look = Look {
        counts: found.counts,
        owners: &owners,
    };
    settle(height, table, call, look)
}

// Runs the call on a table in order, of which a look is at hand, unless what is held refuses it.
pub fn settle(height: u16, table: &mut [u16], call: Call, look: Look) -> Result<Done, Refusal>
    requires ready { Ready height table.old (tenant_of (call_of call 0)) }
    requires size { first (size_checks height (call_of call 0)) ≡ 0 }
    requires looked { Looked height table.old look }
    ensures { Gives (change_on height table.old (call_of call 0)) result table.new }
{
    match call {
        Call::GrantLevel { tenant, level } => grant(height, table, tenant, level, look),
        Call::GrantPages { tenant, pages } => {
            grant(height, table, tenant, level_for(height, pages), look)
        }
        Call::Release { tenant } => give_up(height, table, tenant, look),
        Call::Grow { tenant, level } => {
            if table[tenant as usize] == 0 {
                return Err(Refusal::HoldsNone);
            }
            place(height, table, tenant, level, look)
        }
    }
}

// Grants the tenant a block of the level on a table in order, unless it holds one of another level or there is no room.
fn grant(
    height: u16,
    table: &mut [u16],
    tenant: u16,
    level: u16,
    look: Look,
) -> Result<Done, Refusal>
    requires ready { Ready height table.old tenant }
    requires level { level ≤ height }
    requires looked { Looked height table.old look }
    ensures { Gives (grant_on height table.old tenant level) result table.new }
{
    let t = tenant as usize;
    let node = table[t];
    if node != 0 {
        return answer_holder(height, node, level);
    }
    place(height, table, tenant, level, look)
}

// What a grant of the level gets a tenant that holds the node: the node itself, if it is of that level, since the grant is then a repeated one.
#[tactic(auto, unfolding(crate::specs::Changes::to_holder))]
fn answer_holder(height: u16, node: u16, level: u16) -> Result<Done, Refusal>
    ensures { (T : List ℕ) → Gives (to_holder height T node level) result T }
{
    if tree::level(height, node) != level {
        return Err(Refusal::Holds);
    }
    Ok(Done {
        node,
        plan: Plan::none(),
    })
}

// Releases the tenant's block on a table in order, unless it holds none.
fn give_up(height: u16, table: &mut [u16], tenant: u16, look: Look) -> Result<Done, Refusal>
    requires ready { Ready height table.old tenant }
    requires looked { Looked height table.old look }
    ensures { Gives (release_on height table.old tenant) result table.new }
{
    let t = tenant as usize;
    let node = table[t];
    if node == 0 {
        return Err(Refusal::HoldsNone);
    }
    let rest = without(height, look.counts, node);
    let done = resettle(height, table, tenant, look, rest, NO_LEVEL);
    Ok(Done { node, ..done })
}

// Gives the tenant a block of the level in the place of the one that it has, if it has one, unless there is no room.
fn place(
    height: u16,
    table: &mut [u16],
    tenant: u16,
    level: u16,
    look: Look,
) -> Result<Done, Refusal>
    requires ready { Ready height table.old tenant }
    requires level { level ≤ height }
    requires looked { Looked height table.old look }
    ensures { Gives (place_on height table.old tenant level) result table.new }
{
    let t = tenant as usize;
    let rest = without(height, look.counts, table[t]);
    if !has_room(height, rest, level) {
        return Err(Refusal::NoRoom);
    }
    Ok(resettle(height, table, tenant, look, rest.one_more(level), level))
}

// The counts without the block on the node, if that is one.
#[tactic(auto, unfolding(crate::specs::Changes::without))]
fn without(height: u16, counts: Counts, node: u16) -> Counts
    ensures { result.at ≡ Changes·without height counts.at node }
{
    if node == 0 {
        return counts;
    }
    counts.one_fewer(tree::level(height, node))
}

// Whether the reserve has room for one block more on the level.
fn has_room(height: u16, counts: Counts, level: u16) -> bool
    requires { (height ≤ 12) × (level ≤ 12) × (pages counts.at ≤ 4096) }
    ensures { result ≡ leb (pages counts.at + 2 ^ level) (2 ^ height) }
{
    let all = layout::power(height) as u32;
    let more = layout::power(level) as u32;
    let held = counts.total();
    held + more <= all
}

// Takes the tenant's block away, if it has one, moves the others into the layout of the new counts, and gives the tenant the place that they leave
// over on the level wanted, if any is. Hands back the moves in the order of the list, and the tenant's node.
fn resettle(
    height: u16,
    table: &mut [u16],
    tenant: u16,
    look: Look,
    new: Counts,
    wanted: u16,
) -> Done
    requires ready { Ready height table.old tenant }
    requires looked { Looked height table.old look }
    requires target { Target height table.old tenant new.at wanted }
    ensures { Resettled height table.old tenant new.at wanted result table.new }
{
    let t = tenant as usize;
    let gone = table[t];
    let from = look.counts.layout();
    let to = new.layout();
    let planned = plan_moves(height, from, to, gone, wanted, look.owners);
    table[t] = 0;
    carry_out(table, planned.plan);
    table[t] = planned.node;
    Done {
        node: planned.node,
        plan: in_order(height, planned.plan),
    }
}
