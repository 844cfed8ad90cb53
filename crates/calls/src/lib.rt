// The calls of the reserve over a lent table: opening, and grants by level and by pages, releases and growths, which one function runs.
#![tactic(auto)]

ghost use Rattle.std.specs.Prelude.{◌≡◌};
ghost use Rattle.refusal.specs.Number.{number_in};
ghost use Rattle.rules.specs.Step.{open_reserve, step};
ghost use Rattle.rules.specs.Value.{call_of, Gives};

use refusal::Refusal;
use rules::{Call, Done};

mod carry;
pub mod change;
pub mod request;

// Opens a reserve on a lent table: every entry becomes 0.
#[tactic(auto, unfolding(rules::specs::Step::open_reserve))]
pub fn open(height: u16, table: &mut [u16]) -> Result<(), Refusal>
    ensures answer { number_in result ≡ (open_reserve height table.old).answer }
    ensures table { table.new ≡ (open_reserve height table.old).table }
{
    request::reserve_refusal(height, table.len())?;
    table.fill(0);
    Ok(())
}

// Runs a call; `entries` is how many entries the lent move list has.
pub fn run(height: u16, table: &mut [u16], entries: usize, call: Call) -> Result<Done, Refusal>
    ensures { Gives (step height table.old (call_of call entries)) result table.new }
{
    request::call_refusal(height, table.len(), entries, call)?;
    change::change(height, table, call)
}
