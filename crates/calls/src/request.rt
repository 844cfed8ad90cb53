// The refusals that a call's arguments alone decide.
ghost use Rattle.std.specs.Prelude.{◌≡◌, ◌++◌, ◌≤◌};
ghost use Rattle.refusal.specs.Number.{number_in};
ghost use Rattle.rules.specs.Step.{first, length_checks, list_checks, size_checks, validity};
ghost use Rattle.rules.specs.Value.{call_of};

use layout::MAX_HEIGHT;
use refusal::Refusal;
use rules::Call;
use table::TENANTS;

// The largest tenant number.
pub const LAST_TENANT: u16 = 4095;

// Refuses with the first of refusals 1 and 2 that applies.
pub fn reserve_refusal(height: u16, length: usize) -> Result<(), Refusal>
    ensures { number_in result ≡ first (length_checks height length) }
{
    if MAX_HEIGHT < height {
        return Err(Refusal::Height);
    }
    if length != TENANTS {
        return Err(Refusal::TableLength);
    }
    Ok(())
}

// Refuses with the first of refusals 3 and 4 that applies.
fn list_refusal(least: usize, entries: usize, tenant: u16) -> Result<(), Refusal>
    ensures { number_in result ≡ first (list_checks least tenant entries) }
{
    if entries < least {
        return Err(Refusal::Moves);
    }
    if LAST_TENANT < tenant {
        return Err(Refusal::Tenant);
    }
    Ok(())
}

// Refuses with the one of refusals 5 and 6 that applies to what a call asks for.
fn size_refusal(height: u16, call: Call) -> Result<(), Refusal>
    requires { height ≤ 12 }
    ensures { number_in result ≡ first (size_checks height (call_of call 0)) }
{
    match call {
        Call::GrantLevel { level, .. } | Call::Grow { level, .. } if height < level => {
            Err(Refusal::Level)
        }
        Call::GrantPages { pages, .. } if layout::power(height) <= pages => Err(Refusal::Pages),
        _ => Ok(()),
    }
}

// Refuses with the first of refusals 1 to 6 that applies to a call.
pub fn call_refusal(height: u16, length: usize, entries: usize, call: Call) -> Result<(), Refusal>
    ensures { number_in result ≡ first (length_checks height length ++ validity height (call_of call entries)) }
{
    reserve_refusal(height, length)?;
    list_refusal(call.least_entries(), entries, call.tenant())?;
    size_refusal(height, call)
}
