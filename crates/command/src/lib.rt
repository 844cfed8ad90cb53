// What programs that work on journals share: their arguments, reading and writing whole, and what they say on standard error.
#![tactic(auto)]

mod file;
mod message;
mod output;
mod system;
mod whole;

ghost use Rattle.std.specs.Prelude.{◌≤◌, length};
ghost use Rattle.command.specs.Whole.{Counts, Within};

use std::env::FillError;
use std::io::Read;
use std::rt::Env;
use whole::read_all;
use words::Word;

// The most bytes that are taken of an argument. No path has as many, so none is taken for another.
pub const WORD: usize = 4096;

// A program at work: the system that it runs on, its name, how it is used, its help, and how many operands it takes at most.
#[derive(Drop)]
pub struct Program<'a> {
    pub rt: &'a HostRuntime,
    pub name: &'a [u8],
    pub usage: &'a [u8],
    pub help: &'a [u8],
    pub most: usize,
}

impl Program<'_> {
    // Whether the program has work to do. The first option among its arguments decides: if it is --help, the help goes to standard output, and any
    // other is named on standard error, before the usage. So is the first operand that is too many.
    pub fn has_work(&self) -> bool {
        let end = end_of_operands(self.rt, arg_count(self.rt));
        match meaning_of(self.rt, end) {
            Word::Help => self.give_help(),
            Word::UnknownOption => self.object_to(end, b"unknown option"),
            _ => self.has_operands(),
        }
    }

    // Writes the help to standard output; there is no other work to do.
    fn give_help(&self) -> bool {
        self.write_to(b"-", self.help);
        false
    }

    // Says what is wrong with argument `i`, and how the program is used; there is no other work to do.
    fn object_to(&self, i: usize, fault: &[u8]) -> bool {
        let mut word = [0u8; WORD];
        let n = put_word(self.rt, i, &mut word);
        self.object(fault, &word[..n]);
        false
    }

    // Whether there are not too many operands, or names on standard error the first that is.
    fn has_operands(&self) -> bool {
        let words = arg_count(self.rt);
        if self.most < words {
            let surplus = place_of(self.rt, self.most + 1);
            if surplus < words {
                return self.object_to(surplus, b"unexpected argument");
            }
        }
        true
    }

    // Operand `i`, as the function `argument` puts it into the buffer.
    pub fn argument<'t>(&self, i: usize, text: &'t mut [u8]) -> &'t [u8]
        ensures { length result.now ≤ length text.entry.now }
    {
        let n = argument(self.rt, i, text);
        &text[..n]
    }

    // Reads the file of that name, or standard input for `-`, into a lent buffer, as `read_all` does, and answers how many bytes it has there; or
    // says on standard error why it cannot be read.
    pub fn read_input(&self, name: &[u8], buf: &mut [u8]) -> Option<usize>
        ensures { Within result buf.new }
    {
        if is_dash(name) {
            return self.read_from(&mut self.rt.stdin(), b"standard input", buf);
        }
        let mut file = self.or_complain(b"read", name, system::open(self.rt, name))?;
        self.read_from(&mut file, name, buf)
    }

    // The same from a source of that name.
    fn read_from<R: Read>(&self, source: &mut R, name: &[u8], buf: &mut [u8]) -> Option<usize>
        ensures { Within result buf.new }
    {
        self.or_complain(b"read", name, read_all(source, buf))
    }

    // Says on standard error why the listing of the journal in the file of that name, or on standard input for `-`, has ended. Here and in
    // `refuse_input` the number may be any, as in `words`.
    pub fn explain_end(&self, name: &[u8], number: u16, offset: usize) {
        self.explain(input_of(name), number, offset);
    }

    // Says on standard error why nothing is done with the journal in the file of that name, or on standard input for `-`.
    pub fn refuse_input(&self, deed: &[u8], name: &[u8], number: u16, offset: usize) {
        self.refuse(deed, input_of(name), number, offset);
    }

    // Writes all of the bytes to the file of that name, as `write_file` does, or to standard output for `-`, which it then closes.
    pub fn write_to(&self, name: &[u8], bytes: &[u8]) {
        if !is_dash(name) {
            self.write_file(name, bytes);
        } else if self.write_output(bytes) {
            self.close_output();
        }
    }
}

// How many arguments the program was started with, its own name among them.
fn arg_count(env: &impl Env) -> usize {
    for i in 0..usize::MAX {
        if let Err(FillError::NotPresent) = env.arg(i, &mut []) {
            return i;
        }
    }
    usize::MAX
}

// The first of so many words that is no operand, after the program's name: an option, or `--`. If there is none, that is the first that is missing.
fn end_of_operands(env: &impl Env, words: usize) -> usize {
    for i in 1..words {
        if !matches!(meaning_of(env, i), Word::Operand) {
            return i;
        }
    }
    words.max(1)
}

// What argument `i` means if no `--` comes before it. One that is missing is an operand.
fn meaning_of(env: &impl Env, i: usize) -> Word {
    let mut word = [0u8; WORD];
    let n = put_word(env, i, &mut word);
    words::meaning(&word[..n])
}

// Which argument operand `i` is, one that is missing if there is no such operand: `--` is passed over.
fn place_of(env: &impl Env, i: usize) -> usize {
    let words = arg_count(env);
    if i < words && i >= end_of_operands(env, words) {
        return i + 1;
    }
    i
}

// Puts operand `i` at the start of the buffer and answers its length; if there is none, `-`, which names standard input. The operands are the
// arguments but for the first `--`, behind which none is an option. No method of `Program`, which runs on one system: this takes any environment.
pub fn argument(env: &impl Env, i: usize, text: &mut [u8]) -> usize
    ensures { Counts result text.new }
{
    put_word(env, place_of(env, i), text)
}

// Puts argument `i` at the start of the buffer and answers its length, or `-` if there is none. Of what is longer than the buffer come the first bytes.
fn put_word(env: &impl Env, i: usize, text: &mut [u8]) -> usize
    ensures { Counts result text.new }
{
    match env.arg(i, text) {
        Ok(n) => n,
        Err(FillError::NotPresent) => put_dash(text),
        Err(FillError::TooLong) => text.len(),
    }
}

// Puts `-` at the start of the text and answers its length, 0 if the text has no room for it.
fn put_dash(text: &mut [u8]) -> usize
    ensures { Counts result text.new }
{
    match text {
        [] => 0,
        [first, ..] => {
            *first = b'-';
            1
        }
    }
}

// What the input of that name is called in messages.
fn input_of(name: &[u8]) -> &[u8] {
    if is_dash(name) {
        b"standard input"
    } else {
        name
    }
}

// Whether the name stands for standard input or output.
fn is_dash(name: &[u8]) -> bool {
    name == b"-".as_slice()
}
