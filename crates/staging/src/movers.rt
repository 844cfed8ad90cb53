// The movers of a call.
ghost use Rattle.std.specs.Prelude.{ℕ, ◌^◌, ◌≤◌, ◌<◌, get_or};
ghost use Rattle.staging.specs.Mover.{nobody};

// The most movers that a call may have.
pub const MOST: usize = 7;

// A mover: the group that it waits for, and its pages.
#[derive(Clone, Copy)]
pub struct Mover {
    pub waits: u8,
    pub pages: u16,
}

// Movers by falling tenant number: the first n of the list, who wait for one another only. No Vec: the library has no heap.
#[derive(Clone, Copy)]
pub struct Movers {
    pub n: usize,
    pub list: [Mover; MOST],
    pub ghost few: { n ≤ 7 },
    pub ghost among_them: { (k : ℕ) → k < n → (get_or list k nobody).waits < 2 ^ n },
}
