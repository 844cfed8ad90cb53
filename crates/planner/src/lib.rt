// The reserve's calls over a lent table, a lent line and a lent list of moves.
#![tactic(auto)]

ghost use Rattle.std.specs.Prelude.{◌≡◌, ◌++◌, ◌≤◌, length, drop};
ghost use Rattle.plans.specs.Plan.{moves_in};
ghost use Rattle.admission.specs.Step.{step};
ghost use Rattle.admission.specs.Value.{requested, lent, GivesAdmitted};
ghost use Rattle.planner.specs.Performed.{Performed};

use admission::{Admitted, Request};
use granting::run;
use plans::Plan;
use refusal::Refusal;
use table::Move;

// What an accepted call reports: whom an admit granted, the node that the tenant has now or gave up, and how many moves stand in the list.
#[derive(Clone, Copy)]
pub struct Report {
    pub tenant: Option<u16>,
    pub node: u16,
    pub moves: usize,
}

// Runs a call, and puts its moves at the front of the lent list.
pub fn perform(
    height: u16,
    table: &mut [u16],
    line: &mut [u16],
    moves: &mut [Move],
    request: Request,
) -> Result<Report, Refusal>
    ensures { Performed height request table.old line.old moves.old
        result table.new line.new moves.new }
{
    let admitted = run(height, table, line, moves.len(), request)?;
    fill(admitted.plan, moves);
    Ok(Report {
        tenant: admitted.tenant,
        node: admitted.node,
        moves: admitted.plan.n,
    })
}

// Runs a call on a list of so many entries, and hands its moves back by value: for callers that lend no list.
pub fn perform_by_value(
    height: u16,
    table: &mut [u16],
    line: &mut [u16],
    entries: usize,
    request: Request,
) -> Result<Admitted, Refusal>
    ensures { GivesAdmitted (step height (lent table.old line.old) (requested request entries))
        result table.new line.new }
{
    if entries < request.least_entries() {
        return run(height, table, line, entries, request);
    }
    perform_on_seven(height, table, line, request)
}

// Runs a call on a list of its own, of seven entries, which are enough for any call, and hands its moves back by value.
fn perform_on_seven(
    height: u16,
    table: &mut [u16],
    line: &mut [u16],
    request: Request,
) -> Result<Admitted, Refusal>
    ensures { GivesAdmitted (step height (lent table.old line.old) (requested request 7))
        result table.new line.new }
{
    let mut moves = Plan::none().moves;
    let report = perform(height, table, line, &mut moves, request)?;
    Ok(Admitted {
        tenant: report.tenant,
        node: report.node,
        plan: Plan {
            n: report.moves,
            moves,
        },
    })
}

// Puts the moves of a plan at the front of the list, and leaves the entries after them.
fn fill(plan: Plan, moves: &mut [Move])
    requires { (plan.n ≤ 7) × (plan.n ≤ length moves.old) }
    ensures { moves.new ≡ moves_in plan ++ drop plan.n moves.old }
{
    let n = plan.n;
    moves[..n].copy_from_slice(&plan.moves[..n]);
}
