// Prints the layouts that document 01 gives to check against, a line each: the height, the counts from level 0 up, and the nodes of
// each level, left to right; then the height 5 layout before and after a grant at level 1.
#![tactic(auto)]

use layout::Counts;

// One line: height, counts and nodes, or "no room" where the pages are too many. What cannot be written is missing on standard output, and nothing
// else is said of it.
fn line(rt: &HostRuntime, height: u16, [a, b, c, d]: [u16; 4]) {
    let counts = Counts {
        at: [a, b, c, d, 0, 0, 0, 0, 0, 0, 0, 0, 0],
    };
    let _ = print!(rt; "{height}: {a} {b} {c} {d}:");
    if counts.total() > room(height) {
        let _ = println!(rt; " no room");
        return;
    }
    for level in 0..4 {
        for k in 0..counts.at[level as usize] {
            let _ = print!(rt; " {}", counts.expected(height, level, k));
        }
    }
    let _ = println!(rt);
}

// The pages of a reserve of this height: 8, 32, or 1 for any other.
fn room(height: u16) -> u32 {
    match height {
        3 => 8,
        5 => 32,
        _ => 1,
    }
}

// The lines: the height, and the counts of levels 0 to 3.
const LINES: [(u16, [u16; 4]); 15] = [
    (3, [0, 0, 0, 0]),
    (3, [1, 0, 0, 0]),
    (3, [1, 1, 0, 0]),
    (3, [2, 1, 0, 0]),
    (3, [3, 1, 0, 0]),
    (3, [1, 0, 1, 0]),
    (3, [2, 0, 1, 0]),
    (3, [1, 1, 1, 0]),
    (3, [0, 1, 1, 0]),
    (3, [1, 2, 0, 0]),
    (3, [0, 0, 0, 1]),
    (0, [1, 0, 0, 0]),
    (3, [1, 2, 1, 0]),
    (5, [1, 1, 2, 1]),
    (5, [1, 2, 2, 1]),
];

fn main(rt: HostRuntime) {
    for (height, counts) in LINES {
        line(&rt, height, counts);
    }
}
