// The refusals that a call's arguments alone decide, the lengths of table and line among them.
ghost use Rattle.std.specs.Prelude.{◌≡◌, [], ◌∷◌, ◌++◌, ltb};
ghost use Rattle.refusal.specs.Number.{number_in};
ghost use Rattle.rules.specs.Step.{check, first, level_check, validity};
ghost use Rattle.rules.specs.Value.{call_of};
ghost use Rattle.admission.specs.Step.{lent_checks};
ghost use Rattle.admission.specs.Inner.{argument_checks};
ghost use Rattle.admission.specs.declared.Request.TheVariants.{Direct};

use crate::Request;
use calls::request::{LAST_TENANT, call_refusal};
use line::NUMBERS;
use refusal::Refusal;
use rules::Call;

// The fewest move entries that an admit takes, as a grant and a release do.
pub const LEAST_ENTRIES: usize = 4;

// Refuses with the first of refusals 1 and 2 that applies to a table and a line of these lengths.
pub fn reserve_refusal(height: u16, length: usize, numbers: usize) -> Result<(), Refusal>
    ensures { number_in result ≡ first (lent_checks height length numbers) }
{
    calls::request::reserve_refusal(height, length)?;
    if numbers != NUMBERS {
        return Err(Refusal::TableLength);
    }
    Ok(())
}

// Refuses with the first of refusals 1 to 6 that applies to a request.
pub fn refusal(
    height: u16,
    length: usize,
    numbers: usize,
    entries: usize,
    request: Request,
) -> Result<(), Refusal>
    ensures { number_in result ≡ first (argument_checks height length numbers request entries) }
{
    match request {
        Request::Direct { call } => direct_refusal(height, length, numbers, entries, call),
        Request::Admit => moves_refusal(height, length, numbers, entries),
    }
}

// The same of a grant, which takes a line, and of a release or a growth, which takes none.
fn direct_refusal(
    height: u16,
    length: usize,
    numbers: usize,
    entries: usize,
    call: Call,
) -> Result<(), Refusal>
    ensures { number_in result ≡ first (argument_checks height length numbers (Direct call) entries) }
{
    match call {
        Call::GrantLevel { .. } | Call::GrantPages { .. } => {
            grant_refusal(height, length, numbers, entries, call)
        }
        Call::Release { .. } | Call::Grow { .. } => call_refusal(height, length, entries, call),
    }
}

// The same of a grant.
fn grant_refusal(
    height: u16,
    length: usize,
    numbers: usize,
    entries: usize,
    call: Call,
) -> Result<(), Refusal>
    ensures { number_in result ≡ first (lent_checks height length numbers ++ validity height (call_of call entries)) }
{
    reserve_refusal(height, length, numbers)?;
    call_refusal(height, length, entries, call)
}

// Refuses with the first of refusals 1 to 3 that applies to an admit.
fn moves_refusal(height: u16, length: usize, numbers: usize, entries: usize) -> Result<(), Refusal>
    ensures { number_in result ≡ first (lent_checks height length numbers ++ check 3 (ltb entries 4) ∷ []) }
{
    reserve_refusal(height, length, numbers)?;
    if entries < LEAST_ENTRIES {
        return Err(Refusal::Moves);
    }
    Ok(())
}

// Refuses with the first of refusals 1, 2 and 4 that applies to a withdrawal.
pub fn tenant_refusal(
    height: u16,
    length: usize,
    numbers: usize,
    tenant: u16,
) -> Result<(), Refusal>
    ensures { number_in result ≡ first (lent_checks height length numbers ++ check 4 (ltb 4095 tenant) ∷ []) }
{
    reserve_refusal(height, length, numbers)?;
    if LAST_TENANT < tenant {
        return Err(Refusal::Tenant);
    }
    Ok(())
}

// Refuses with the first of refusals 1, 2, 4 and 5 that applies to a join.
pub fn level_refusal(
    height: u16,
    length: usize,
    numbers: usize,
    tenant: u16,
    level: u16,
) -> Result<(), Refusal>
    ensures { number_in result ≡ first (lent_checks height length numbers ++ check 4 (ltb 4095 tenant) ∷ level_check height level ∷ []) }
{
    tenant_refusal(height, length, numbers, tenant)?;
    if height < level {
        return Err(Refusal::Level);
    }
    Ok(())
}
