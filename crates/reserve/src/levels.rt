// The level of a grant by pages through the C door.
ghost use Rattle.std.specs.Prelude.{◌≡◌};
ghost use Rattle.refusal.specs.Number.{number_of};
ghost use Rattle.reserve.specs.LevelOfPages.{no_level, level_asked};

use layout::{MAX_HEIGHT, power};
use refusal::Refusal;
use sizes::level_for;

// Which level a number of pages takes: 0 or the number of a refusal, and the level.
// The C interface: it has a number in the place of a Result.
#[repr(C)]
#[derive(Clone, Copy)]
pub struct Level {
    pub answer: u16,
    pub level: u16,
}

// The level that a grant of so many pages asks for in a reserve of this height.
pub fn reserve_level_of_pages(height: u16, pages: u16) -> Level
    ensures { result ≡ level_asked height pages }
{
    if MAX_HEIGHT < height {
        return Level::from(Refusal::Height);
    }
    if power(height) <= pages {
        return Level::from(Refusal::Pages);
    }
    let level = level_for(height, pages);
    Level { answer: 0, level }
}

impl From<Refusal> for Level {
    ghost from_gives = { λ refusal level. level ≡ no_level (number_of refusal) };

    // A refusal: its number, and no level.
    fn from(refusal: Refusal) -> Level {
        Level {
            answer: u16::from(refusal),
            level: 0,
        }
    }
}
