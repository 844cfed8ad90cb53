// Who may join the line, and who may leave it.
ghost use Rattle.std.specs.Prelude.{◌≡◌};
ghost use Rattle.refusal.specs.Number.{number_in};
ghost use Rattle.rules.specs.Step.{first};
ghost use Rattle.admission.specs.Call.{join, withdraw};
ghost use Rattle.admission.specs.Step.{checks};
ghost use Rattle.admission.specs.Value.{lent};

use crate::order::{both_in_order, waits};
use crate::refusals::{level_refusal, tenant_refusal};
use line::MOST;
use refusal::Refusal;

// Refuses with the first refusal that applies to a join.
pub fn join_refusal(
    height: u16,
    table: &[u16],
    line: &[u16],
    tenant: u16,
    level: u16,
) -> Result<(), Refusal>
    ensures { number_in result ≡ first (checks height (lent table.now line.now) (join tenant level)) }
{
    level_refusal(height, table.len(), line.len(), tenant, level)?;
    if !both_in_order(height, table, line) {
        return Err(Refusal::NotInOrder);
    }
    if table[tenant as usize] != 0 {
        return Err(Refusal::Holds);
    }
    if waits(line, tenant) {
        return Err(Refusal::Waits);
    }
    if MOST <= line[0] {
        return Err(Refusal::LineFull);
    }
    Ok(())
}

// Refuses with the first refusal that applies to a withdrawal.
pub fn withdraw_refusal(
    height: u16,
    table: &[u16],
    line: &[u16],
    tenant: u16,
) -> Result<(), Refusal>
    ensures { number_in result ≡ first (checks height (lent table.now line.now) (withdraw tenant)) }
{
    tenant_refusal(height, table.len(), line.len(), tenant)?;
    if !both_in_order(height, table, line) {
        return Err(Refusal::NotInOrder);
    }
    if !waits(line, tenant) {
        return Err(Refusal::HoldsNone);
    }
    Ok(())
}
