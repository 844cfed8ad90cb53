// The calls that may move tenants, over a lent table and a lent line: grants, releases and growths, and admits.
#![tactic(auto)]

ghost use Rattle.rules.specs.Value.{call_of};
ghost use Rattle.admission.specs.Call.{direct};
ghost use Rattle.admission.specs.Step.{step};
ghost use Rattle.admission.specs.Value.{requested, lent, Gives, GivesAdmitted};
ghost use Rattle.granting.specs.Inner.{Prepared};
ghost use Rattle.admission.specs.declared.Request.TheVariants.{Direct};

use admission::{Admitted, Request};
use calls::change::{Look, settle};
use refusal::Refusal;
use rules::{Call, Done};
use table::NODES;

mod chosen;
mod grant;

// Runs a request; `entries` is how many entries the lent move list has. The one survey of the table serves all kinds, so that the owners stand on the
// stack once.
pub fn run(
    height: u16,
    table: &mut [u16],
    line: &mut [u16],
    entries: usize,
    request: Request,
) -> Result<Admitted, Refusal>
    ensures { GivesAdmitted (step height (lent table.old line.old) (requested request entries))
        result table.new line.new }
{
    admission::refusals::refusal(height, table.len(), line.len(), entries, request)?;
    let mut owners = [0u16; NODES];
    let found = survey::survey(height, table, &mut owners);
    if !found.in_order {
        return Err(Refusal::NotInOrder);
    }
    let look = Look {
        counts: found.counts,
        owners: &owners,
    };
    match request {
        Request::Direct { call } => {
            let done = run_direct(height, table, line, call, look)?;
            Ok(Admitted {
                tenant: None,
                node: done.node,
                plan: done.plan,
            })
        }
        Request::Admit => chosen::admit(height, table, line, look),
    }
}

// Runs a grant, a release or a growth on a table in order. A release and a growth leave the line alone.
fn run_direct(
    height: u16,
    table: &mut [u16],
    line: &mut [u16],
    call: Call,
    look: Look,
) -> Result<Done, Refusal>
    requires { Prepared height (lent table.old line.old) (Direct call) look }
    ensures { Gives (step height (lent table.old line.old) (direct (call_of call 7)))
        result table.new line.new }
{
    match call {
        Call::GrantLevel { .. } | Call::GrantPages { .. } => {
            grant::grant(height, table, line, call, look)
        }
        Call::Release { .. } | Call::Grow { .. } => settle(height, table, call, look),
    }
}
