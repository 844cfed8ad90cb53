// The moves of a plan, carried out on the table.
ghost use Rattle.std.specs.Prelude.{◌≡◌};
ghost use Rattle.table.specs.Pairing.{written};
ghost use Rattle.plans.specs.Plan.{moves_in};
ghost use Rattle.rules.specs.Value.{TenantsIn};

use plans::Plan;

// Gives each tenant of the plan its new node.
pub fn carry_out(table: &mut [u16], plan: Plan)
    requires { TenantsIn table.old plan }
    ensures { table.new ≡ written table.old (moves_in plan) }
{
    for m in &plan.moves[..plan.n] {
        table[m.tenant as usize] = m.to;
    }
}
