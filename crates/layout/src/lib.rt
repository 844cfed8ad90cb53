// Counts of blocks by level, and their layout as one row for each level, from which a node is tested or found in constant time.
#![tactic(auto)]

ghost use Rattle.std.specs.Prelude.{◌≡◌, ◌+◌, ◌*◌, ◌^◌, ◌≤◌, ◌<◌, length, replicate};
ghost use Rattle.layout.specs.Layout.{pages, running, place, rise};
ghost use Rattle.layout.specs.Change.{one_block_fewer};
ghost use Rattle.layout.specs.Counts.{more};
ghost use Rattle.layout.specs.Rows.{rows_of, in_row, kth_index, kth_node, expected_node};
ghost use Rattle.layout.specs.Climb.{state_of, Markable, mark};

// What stands for an index, or for a level of a lone block, where there is none.
pub const NONE: u16 = 65_535;

// The greatest height of a reserve.
pub const MAX_HEIGHT: u16 = 12;

// How many levels a reserve can have: those from 0 to the greatest height.
pub const LEVELS: usize = 13;

// A level that no reserve has: where no level is wanted.
pub const NO_LEVEL: u16 = 13;

// How many blocks each level has.
#[derive(Clone, Copy)]
pub struct Counts {
    pub at: [u16; LEVELS],
}

// For each level, the index where its run of blocks begins, how many blocks the run has, and the index of the block that became lone, or NONE.
#[derive(Clone, Copy)]
pub struct Layout {
    pub start: [u16; LEVELS],
    pub run: [u16; LEVELS],
    pub lone: [u16; LEVELS],
}

impl Counts {
    // No blocks at all.
    pub fn none() -> Counts
        ensures { result.at ≡ replicate 13 0 }
    {
        Counts { at: [0; LEVELS] }
    }

    // The counts with one block more on the level; the same where it has 65,535 or there is no such level.
    pub fn one_more(self, level: u16) -> Counts
        ensures { result.at ≡ more self.at level }
    {
        let mut at = self.at;
        let l = level as usize;
        if l < LEVELS {
            at[l] = at[l].saturating_add(1);
        }
        Counts { at }
    }

    // The counts with one block fewer on the level; the same where it has none or there is no such level.
    pub fn one_fewer(self, level: u16) -> Counts
        ensures { result.at ≡ one_block_fewer self.at level }
    {
        let mut at = self.at;
        let l = level as usize;
        if l < LEVELS {
            at[l] = at[l].saturating_sub(1);
        }
        Counts { at }
    }

    // The number of pages of all the blocks.
    pub fn total(self) -> u32
        ensures { result ≡ pages self.at }
    {
        let mut sum: u32 = 0;
        let mut size: u32 = 1;
        for count in self.at {
            sum += u32::from(count) * size;
            size *= 2;
        }
        sum
    }

    // The layout of the counts.
    pub fn layout(self) -> Layout
        requires { pages self.at ≤ 4096 }
        ensures { result ≡ rows_of self.at }
    {
        let mut start = [0u16; LEVELS];
        let mut run = [0u16; LEVELS];
        let mut lone = [NONE; LEVELS];
        let mut s = Climb {
            before: 0,
            lone: None,
        };
        for (level, count) in self.at.iter().enumerate() {
            start[level] = s.before;
            run[level] = s.running(*count);
            s = s.placed(level as u16, *count);
            s.mark_in(&mut lone);
            s = s.risen();
        }
        Layout { start, run, lone }
    }

    // The k-th node of the level, left to right, in the layout of the counts; 0 where there is none, the counts have more pages than the
    // tree, or the height is above 12.
    pub fn expected(self, height: u16, level: u16, k: u16) -> u16
        ensures { result ≡ expected_node self.at height level k }
    {
        if MAX_HEIGHT < height || u32::from(power(height)) < self.total() {
            return 0;
        }
        self.layout().node(height, level, k)
    }
}

impl Layout {
    // The k-th node of the level, left to right; 0 where there is none or the height is above 12.
    fn node(self, height: u16, level: u16, k: u16) -> u16
        ensures { result ≡ kth_node self height level k }
    {
        if MAX_HEIGHT < height || height < level {
            return 0;
        }
        let l = level as usize;
        let i = kth_index(self.start[l], self.run[l], self.lone[l], k);
        let nodes = u32::from(power(height - level));
        if nodes <= i {
            return 0;
        }
        (nodes + i) as u16
    }
}

// Whether i is one of the `run` indices from `start` on, or is `lone`.
pub fn in_row(start: u16, run: u16, lone: u16, i: u16) -> bool
    ensures { result ≡ in_row start run lone i }
{
    (start <= i && i - start < run) || lone == i
}

// The k-th of the `run` indices from `start` on and then `lone`; NONE past these.
fn kth_index(start: u16, run: u16, lone: u16, k: u16) -> u32
    ensures { result ≡ kth_index start run lone k }
{
    if k < run {
        u32::from(start) + u32::from(k)
    } else if k == run {
        u32::from(lone)
    } else {
        u32::from(NONE)
    }
}

// 2 to the power e.
pub fn power(e: u16) -> u16
    requires { e ≤ 12 }
    ensures { result ≡ 2 ^ e }
{
    1 << e
}

// A block of level `level` that stands alone in a subtree, `down` levels below its root.
#[derive(Clone, Copy)]
struct Lone {
    level: u16,
    down: u16,
}

// What the levels below leave to a level: the first `before` subtrees are in use, and, where there is a lone block, the next one too, in which
// it stands.
#[derive(Clone, Copy)]
struct Climb {
    before: u16,
    lone: Option<Lone>,
}

impl Climb {
    // How many of the level's blocks keep their place whatever comes: all but the one that becomes lone.
    fn running(self, count: u16) -> u16
        ensures { result ≡ running (state_of self) count }
    {
        if self.lone.is_some() {
            count
        } else {
            count.saturating_sub(1)
        }
    }

    // The state with the blocks of level l placed.
    fn placed(self, l: u16, count: u16) -> Climb
        requires { self.before + count < 2 ^ 16 }
        ensures { state_of result ≡ place l (state_of self) count }
    {
        if self.lone.is_some() {
            return Climb {
                before: self.before + count,
                ..self
            };
        }
        if count == 0 {
            return self;
        }
        Climb {
            before: self.before + (count - 1),
            lone: Some(Lone { level: l, down: 0 }),
        }
    }

    // Writes the lone block's place so far among the lone places.
    fn mark_in(self, lone: &mut [u16; LEVELS])
        requires state { Markable (state_of self) }
        requires levels { length lone.old ≡ 13 }
        ensures { lone.new ≡ mark (state_of self) lone.old }
    {
        if let Some(block) = self.lone {
            lone[block.level as usize] = self.before * power(block.down);
        }
    }

    // The state one level up.
    fn risen(self) -> Climb
        requires { Markable (state_of self) }
        ensures { state_of result ≡ rise (state_of self) }
    {
        match self.lone {
            Some(block) if self.before % 2 == 0 => Climb {
                before: self.before / 2,
                lone: Some(Lone {
                    down: block.down + 1,
                    ..block
                }),
            },
            _ => Climb {
                before: self.before.div_ceil(2),
                lone: None,
            },
        }
    }
}
