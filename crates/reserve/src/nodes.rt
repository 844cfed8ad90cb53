// The pages of a node through the C door.
ghost use Rattle.std.specs.Prelude.{◌≡◌};
ghost use Rattle.refusal.specs.Number.{number_of};
ghost use Rattle.reserve.specs.NodePages.{no_pages, node_pages};

use layout::{MAX_HEIGHT, power};
use refusal::Refusal;
use tree::depth;

// Which pages a node covers: 0 or the number of a refusal, the first page, and how many there are.
// The C interface: it has a number in the place of a Result.
#[repr(C)]
#[derive(Clone, Copy)]
pub struct Pages {
    pub answer: u16,
    pub first: u16,
    pub count: u16,
}

// The pages that a node covers in a reserve of this height.
pub fn reserve_node_pages(height: u16, node: u16) -> Pages
    ensures { result ≡ node_pages height node }
{
    if MAX_HEIGHT < height {
        return Pages::from(Refusal::Height);
    }
    if node == 0 {
        return Pages::from(Refusal::NotInOrder);
    }
    let d = depth(node);
    if height < d {
        return Pages::from(Refusal::NotInOrder);
    }
    let index = node - power(d);
    let count = power(height - d);
    let first = index * count;
    Pages {
        answer: 0,
        first,
        count,
    }
}

impl From<Refusal> for Pages {
    ghost from_gives = { λ refusal pages. pages ≡ no_pages (number_of refusal) };

    // A refusal: its number, and no pages.
    fn from(refusal: Refusal) -> Pages {
        Pages {
            answer: u16::from(refusal),
            first: 0,
            count: 0,
        }
    }
}
