// The calls of the reserve on a table alone, and what they report, as values. What each call answers and leaves is defined in specs/, and
// proofs/ has the theorems about it.
#![tactic(auto)]

ghost use Rattle.std.specs.Prelude.{◌≡◌};
ghost use Rattle.rules.specs.Call.{tenant_of, least_entries};
ghost use Rattle.rules.specs.Value.{call_of};

use plans::Plan;

// What an accepted call reports: the node that its tenant has now or gave up, and the moves that it made.
#[derive(Clone, Copy)]
pub struct Done {
    pub node: u16,
    pub plan: Plan,
}

// A grant by level or by pages, a release, or a growth up or down.
#[derive(Clone, Copy)]
pub enum Call {
    GrantLevel { tenant: u16, level: u16 },
    GrantPages { tenant: u16, pages: u16 },
    Release { tenant: u16 },
    Grow { tenant: u16, level: u16 },
}

impl Call {
    // The tenant that the call is for.
    pub fn tenant(self) -> u16
        ensures { result ≡ tenant_of (call_of self 0) }
    {
        match self {
            Call::GrantLevel { tenant, .. }
            | Call::GrantPages { tenant, .. }
            | Call::Release { tenant }
            | Call::Grow { tenant, .. } => tenant,
        }
    }

    // The fewest move entries that the call takes: as many as a call of its kind can move tenants, or more.
    pub fn least_entries(self) -> usize
        ensures { result ≡ least_entries (call_of self 0) }
    {
        match self {
            Call::GrantLevel { .. } | Call::GrantPages { .. } | Call::Release { .. } => 4,
            Call::Grow { .. } => 7,
        }
    }
}
