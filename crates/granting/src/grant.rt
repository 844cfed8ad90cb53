// A direct grant behind a line: who grants so counts as last in line.
ghost use Rattle.std.specs.Prelude.{◌≡◌, ◌++◌, ℕ, ◌<◌, length};
ghost use Rattle.refusal.specs.Number.{number_in};
ghost use Rattle.line.specs.Changes.{InForm};
ghost use Rattle.rules.specs.Step.{first, validity};
ghost use Rattle.rules.specs.Value.{call_of};
ghost use Rattle.calls.specs.Changes.{Looked};
ghost use Rattle.rules.specs.Demand.{Asks};
ghost use Rattle.admission.specs.Call.{direct};
ghost use Rattle.admission.specs.Step.{reserve_checks, step};
ghost use Rattle.admission.specs.Value.{lent, Gives};
ghost use Rattle.granting.specs.Inner.{line_number, Unopposed};

use admission::order::waits;
use calls::change::{Look, settle};
use refusal::Refusal;
use rules::{Call, Done};

// Runs a grant of either kind on a table in order.
pub fn grant(
    height: u16,
    table: &mut [u16],
    line: &mut [u16],
    call: Call,
    look: Look,
) -> Result<Done, Refusal>
    requires asks { (l : ℕ) × Asks height (call_of call 7) l }
    requires arguments { first (reserve_checks height (lent table.old line.old) ++ validity height (call_of call 7)) ≡ 0 }
    requires looked { Looked height table.old look }
    ensures { Gives (step height (lent table.old line.old) (direct (call_of call 7)))
        result table.new line.new }
{
    if !line::in_order(height, table, line) {
        return Err(Refusal::NotInOrder);
    }
    line_refusal(table, line, call.tenant())?;
    give(height, table, line, call, look)
}

// Refuses with the first of refusals 18 and 10 that the line gives: 18 to one that waits, and 10 behind one that was passed as often as may be. Who
// holds a block, the table answers.
fn line_refusal(table: &[u16], line: &[u16], tenant: u16) -> Result<(), Refusal>
    requires tenant { tenant < length table.now }
    requires form { InForm line.now }
    ensures { number_in result ≡ line_number (lent table.now line.now) tenant }
{
    if table[tenant as usize] != 0 {
        return Ok(());
    }
    if waits(line, tenant) {
        return Err(Refusal::Waits);
    }
    if line::barred(line) {
        return Err(Refusal::NoRoom);
    }
    Ok(())
}

// Runs a grant that the line does not refuse, and passes everybody in line where it gives a block; a repeated one gives none.
fn give(
    height: u16,
    table: &mut [u16],
    line: &mut [u16],
    call: Call,
    look: Look,
) -> Result<Done, Refusal>
    requires asks { (l : ℕ) × Asks height (call_of call 7) l }
    requires looked { Looked height table.old look }
    requires unopposed { Unopposed height (lent table.old line.old) (call_of call 7) }
    ensures { Gives (step height (lent table.old line.old) (direct (call_of call 7)))
        result table.new line.new }
{
    let had = table[call.tenant() as usize];
    let done = settle(height, table, call, look)?;
    if had == 0 {
        let n = line[0] as usize;
        line::pass(line, n);
    }
    Ok(done)
}
