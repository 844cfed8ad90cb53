// Why a call, or the reading of a journal, is refused, with the numbers that document 01 has under "Refusals by place".
#![tactic(auto)]

ghost use Rattle.std.specs.Prelude.{◌≡◌};
ghost use Rattle.refusal.specs.Number.{number_of};

#[derive(Clone, Copy, PartialEq, Eq)]
pub enum Refusal {
    // The height is above 12.
    Height = 1,
    // The table does not have 4,096 entries.
    TableLength = 2,
    // Fewer move entries are lent than the call takes.
    Moves = 3,
    // The tenant is above 4,095.
    Tenant = 4,
    // The level is above the height.
    Level = 5,
    // The pages with their guard page are more than the reserve has.
    Pages = 6,
    // The table is none that the planner leaves.
    NotInOrder = 7,
    // A grant to a tenant that holds a block of another level.
    Holds = 8,
    // A release or a growth by a tenant that holds none.
    HoldsNone = 9,
    // The pages held and the new block are more than the reserve has; of a growth, those of the others and its new block.
    NoRoom = 10,
    // The journal is empty, or its first record is no open.
    NoOpen = 11,
    // A record of a kind that there is not.
    UnknownKind = 12,
    // The journal ends inside a record.
    CutOff = 13,
    // An open record that is not the first.
    OpenAgain = 14,
    // The bytes lent for a map or a record are too few.
    TooShort = 15,
    // The journal has more than 65,536 bytes.
    TooLong = 16,
    // The line has 64 tenants.
    LineFull = 17,
    // The tenant waits in line.
    Waits = 18,
}

impl From<Refusal> for u16 {
    ghost from_gives = { λ refusal number. number ≡ number_of refusal };

    // The number of the refusal.
    fn from(refusal: Refusal) -> u16 {
        refusal as u16
    }
}
