// Numbers of 16 bits as bytes, the low byte first: the image of a table, of a line and of a list of moves.
#![tactic(auto)]

ghost use Rattle.std.specs.Prelude.{◌≡◌, [], ◌∷◌, ◌++◌, ◌+◌, ◌*◌, ◌≤◌, length, drop};
ghost use Rattle.std.proofs.lemmas.List.Edits.{sets};
ghost use Rattle.plans.specs.Plan.{moves_in};
ghost use Rattle.image.specs.Image.{image_of, move_bytes, read_into, Decoded};

use journal::{put_word, word};
use plans::Plan;
use table::Move;

// The bytes of a move.
pub const MOVE_BYTES: usize = 8;

// Reads the numbers that an image stands for, and says how many they are: all, or none, and the numbers stay as they were, if the image has another
// length than two bytes for each.
pub fn decode(image: &[u8], numbers: &mut [u16]) -> usize
    ensures front { Decoded image.now numbers.new result }
    ensures numbers { numbers.new ≡ read_into image.now numbers.old }
{
    if image.len() != 2 * numbers.len() {
        return 0;
    }
    for (i, number) in numbers.iter_mut().enumerate() {
        *number = word(image[2 * i], image[2 * i + 1]);
    }
    numbers.len()
}

// Writes the image of numbers.
pub fn encode(numbers: &[u16], image: &mut [u8])
    requires { length image.old ≡ 2 * length numbers.now }
    ensures { image.new ≡ image_of numbers.now }
{
    for (i, number) in numbers.iter().enumerate() {
        put_word(image, 2 * i, *number);
    }
}

// Writes the eight bytes of a move at an index.
fn put_move(list: &mut [u8], at: usize, m: Move)
    requires { at + 8 ≤ length list.old }
    ensures { list.new ≡ sets list.old at (move_bytes (m ∷ [])) }
{
    put_word(list, at, m.tenant);
    put_word(list, at + 2, m.from);
    put_word(list, at + 4, m.to);
    put_word(list, at + 6, m.staged);
}

// Writes the moves of a plan from the front of the list, and leaves the bytes after them.
pub fn put_moves(plan: Plan, list: &mut [u8])
    requires { (plan.n ≤ 7) × (8 * plan.n ≤ length list.old) }
    ensures { list.new ≡ move_bytes (moves_in plan) ++ drop (8 * length (moves_in plan)) list.old }
{
    for (k, m) in plan.moves[..plan.n].iter().enumerate() {
        put_move(list, MOVE_BYTES * k, *m);
    }
}
