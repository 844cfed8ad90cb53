// The calls of the reserve over a lent table and a lent line: what the arguments of each decide, opening, joins and withdrawals.
#![tactic(auto)]

ghost use Rattle.std.specs.Prelude.{◌≡◌};
ghost use Rattle.refusal.specs.Number.{number_in};
ghost use Rattle.admission.specs.Call.{join as Call·join, withdraw as Call·withdraw};
ghost use Rattle.admission.specs.Step.{open_reserve, step};
ghost use Rattle.admission.specs.Value.{least_entries, lent};

use plans::Plan;
use refusal::Refusal;
use rules::Call;

pub mod order;
pub mod refusals;
mod waiting;

// A call that may move tenants: one that names its own tenant's block, or an admit.
#[derive(Clone, Copy)]
pub enum Request {
    Direct { call: Call },
    Admit,
}

impl Request {
    // The fewest move entries that it takes.
    pub fn least_entries(self) -> usize
        ensures { result ≡ least_entries self }
    {
        match self {
            Request::Direct { call } => call.least_entries(),
            Request::Admit => refusals::LEAST_ENTRIES,
        }
    }
}

// What an accepted request reports: whom an admit granted, the node that the tenant has now or gave up, and the moves that it made.
#[derive(Clone, Copy)]
pub struct Admitted {
    pub tenant: Option<u16>,
    pub node: u16,
    pub plan: Plan,
}

// Height, table and line are no struct: each is lent apart, and a join or a withdrawal only reads the table, which a struct would have changed.

// Opens a reserve on a lent table and a lent line: every entry becomes 0, and nobody waits.
pub fn open(height: u16, table: &mut [u16], line: &mut [u16]) -> Result<(), Refusal>
    ensures answer { number_in result ≡ (open_reserve height (lent table.old line.old)).answer }
    ensures state { lent table.new line.new
        ≡ (open_reserve height (lent table.old line.old)).state }
{
    refusals::reserve_refusal(height, table.len(), line.len())?;
    table.fill(0);
    line.fill(0);
    Ok(())
}

// Puts a tenant at the end of the line, to wait for a level.
pub fn join(
    height: u16,
    table: &[u16],
    line: &mut [u16],
    tenant: u16,
    level: u16,
) -> Result<(), Refusal>
    ensures answer { number_in result ≡ (step height (lent table.now line.old) (Call·join tenant level)).answer }
    ensures line { line.new ≡ (step height (lent table.now line.old) (Call·join tenant level)).state.line }
{
    waiting::join_refusal(height, table, line, tenant, level)?;
    line::join(line, tenant, level);
    Ok(())
}

// Takes a tenant out of the line.
pub fn withdraw(height: u16, table: &[u16], line: &mut [u16], tenant: u16) -> Result<(), Refusal>
    ensures answer { number_in result ≡ (step height (lent table.now line.old) (Call·withdraw tenant)).answer }
    ensures line { line.new ≡ (step height (lent table.now line.old) (Call·withdraw tenant)).state.line }
{
    waiting::withdraw_refusal(height, table, line, tenant)?;
    let place = line::place_of(line, tenant);
    line::take_out(line, place);
    Ok(())
}
