// The level that a number of pages takes.
#![tactic(auto)]

ghost use Rattle.std.specs.Prelude.{◌≡◌};
ghost use Rattle.sizes.specs.Level.{least_level, level_for};

// The level of an image that names no size, on a reserve that has it.
const LEVEL_OF_NO_SIZE: u16 = 4;

// The pages behind an image that are its own too, where it names its size.
const GUARD_PAGES: u32 = 1;

// The level that a number of pages takes: the smallest whose block has them and the guard page. 0 names no size.
#[tactic(auto, using(crate::proofs::Level::level_for_named))]
pub fn level_for(height: u16, pages: u16) -> u16
    ensures { result ≡ level_for height pages }
{
    if pages == 0 {
        return level_of_no_size(height);
    }
    least_level(u32::from(pages) + GUARD_PAGES)
}

// The level of an image that names no size: the whole of a reserve that is lower.
#[tactic(auto, unfolding(crate::specs::Level::level_for))]
fn level_of_no_size(height: u16) -> u16
    ensures { result ≡ level_for height 0 }
{
    height.min(LEVEL_OF_NO_SIZE)
}

// The smallest level whose block has so many pages.
fn least_level(pages: u32) -> u16
    ensures { result ≡ least_level pages }
{
    if pages <= 1 {
        return 0;
    }
    (pages - 1).ilog2() as u16 + 1
}
