// An admit: the one in line that it grants.
ghost use Rattle.std.specs.Prelude.{◌≡◌, true, ℕ, ◌+◌, ◌^◌, ◌≤◌, ◌<◌, ltb, leb, length};
ghost use Rattle.std.proofs.Math.Option.{some};
ghost use Rattle.layout.specs.Layout.{pages};
ghost use Rattle.line.specs.Line.{at, waiting_count};
ghost use Rattle.line.specs.Order.{LineInOrder};
ghost use Rattle.calls.specs.Changes.{Looked};
ghost use Rattle.admission.specs.Call.{admit as Call·admit};
ghost use Rattle.admission.specs.Step.{fits, admission, step};
ghost use Rattle.admission.specs.Value.{lent, GivesAdmitted};
ghost use Rattle.granting.specs.Inner.{Prepared};
ghost use Rattle.admission.specs.declared.Request.TheVariants.{Admit};

use admission::Admitted;
use calls::change::{Look, settle};
use layout::{Counts, power};
use plans::Plan;
use refusal::Refusal;
use rules::Call;

// How many levels have room, from level 0 up.
fn levels_that_fit(height: u16, counts: Counts) -> u16
    requires { (height ≤ 12) × (pages counts.at ≤ 2 ^ height) }
    ensures { (l : ℕ) → ltb l result ≡ leb (pages counts.at + 2 ^ l) (2 ^ height) }
{
    let all = power(height) as u32;
    let free = all - counts.total();
    if free == 0 {
        return 0;
    }
    tree::depth(free as u16) + 1
}

// Grants the first in line that fits and is not barred the level that it waits for, on a table in order.
pub fn admit(
    height: u16,
    table: &mut [u16],
    line: &mut [u16],
    look: Look,
) -> Result<Admitted, Refusal>
    requires { Prepared height (lent table.old line.old) Admit look }
    ensures { GivesAdmitted (step height (lent table.old line.old) (Call·admit 7))
        result table.new line.new }
{
    if !line::in_order(height, table, line) {
        return Err(Refusal::NotInOrder);
    }
    let place = line::choose(line, levels_that_fit(height, look.counts));
    if (line[0] as usize) <= place {
        return Ok(Admitted {
            tenant: None,
            node: 0,
            plan: Plan::none(),
        });
    }
    admit_at(height, table, line, place, look)
}

// Grants the one at a place its level, which fits, as by a direct grant, takes it out of the line, and passes those in front of it.
fn admit_at(
    height: u16,
    table: &mut [u16],
    line: &mut [u16],
    place: usize,
    look: Look,
) -> Result<Admitted, Refusal>
    requires lengths { (height ≤ 12) × (length table.old ≡ 4096) }
    requires looked { Looked height table.old look }
    requires place { LineInOrder height table.old line.old × (place < waiting_count line.old) }
    requires fits { fits height table.old (at line.old place).level ≡ true }
    ensures { GivesAdmitted (admission height (lent table.old line.old) 7 (some (at line.old place)))
        result table.new line.new }
{
    let tenant = line[3 * place + 1];
    let level = line[3 * place + 2];
    let done = settle(height, table, Call::GrantLevel { tenant, level }, look)?;
    line::take_out(line, place);
    line::pass(line, place);
    Ok(Admitted {
        tenant: Some(tenant),
        node: done.node,
        plan: done.plan,
    })
}
