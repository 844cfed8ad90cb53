// What a program says on standard error.
ghost use Rattle.std.specs.Prelude.{◌≡◌, List, ℕ, IfSome, ◌≤◌, length};
ghost use Rattle.std.specs.Fn.{FnOnceReturnsAtMut};

use crate::Program;
use crate::whole::write_all;
use std::io::{Cursor, Write};
use std::{io, str};

// The room for a message. No path is as long as this.
pub const ROOM: usize = 8192;

impl Program<'_> {
    // What a call gave; or nothing, and standard error says what the program could not do.
    pub(crate) fn or_complain<T: Drop>(
        &self,
        deed: &[u8],
        thing: &[u8],
        given: io::Result<T>,
    ) -> Option<T>
        ensures { IfSome result (λ it. given ≡ Ok it) }
    {
        match given {
            Ok(it) => Some(it),
            Err(reason) => {
                self.complain(deed, thing, reason);
                None
            }
        }
    }

    // Says what the program could not do, with the system's reason for the call that has just failed: "PROGRAM: cannot DEED THING: REASON".
    fn complain(&self, deed: &[u8], thing: &[u8], reason: io::Error) {
        self.say_what(|text| words::message(self.name, deed, thing, text));
        self.say(b": ");
        self.say_reason(reason);
        self.say(b"\n");
    }

    // Says what the program could not do with a thing, and why: "PROGRAM: cannot DEED THING" and the reason, as it is.
    pub(crate) fn say_cannot(&self, deed: &[u8], thing: &[u8], reason: &[u8]) {
        self.say_what(|text| words::message(self.name, deed, thing, text));
        self.say(reason);
    }

    // Says what the program could not do with a journal, and why: "PROGRAM: cannot DEED THING: REASON, refusal NUMBER at offset OFFSET".
    pub(crate) fn refuse(&self, deed: &[u8], thing: &[u8], number: u16, offset: usize) {
        self.say_what(|text| words::refusal(self.name, deed, thing, number, offset, text));
    }

    // Says why the listing of a journal has ended: "PROGRAM: THING: REASON, refusal NUMBER at offset OFFSET".
    pub(crate) fn explain(&self, thing: &[u8], number: u16, offset: usize) {
        self.say_what(|text| words::ending(self.name, thing, number, offset, text));
    }

    // Says what is wrong with a word of the command line, "PROGRAM: FAULT WORD", and how the program is used.
    pub(crate) fn object(&self, fault: &[u8], word: &[u8]) {
        self.say_what(|text| words::objection(self.name, fault, word, text));
        self.say(self.usage);
    }

    // Says what `put` puts to the start of a text, whose length it answers.
    fn say_what<F: FnOnce(&mut [u8]) -> usize>(&self, put: F)
        requires callable { F.IsAlwaysCallable put }
        requires within { (before after : List ℕ) (n : ℕ) → FnOnceReturnsAtMut F.FnOnce put before n after → n ≤ length after }
    {
        let mut text = [0u8; ROOM];
        let n = put(&mut text);
        self.say(&text[..n]);
    }

    // Writes the bytes to standard error. There is nobody left to be told if that fails.
    fn say(&self, bytes: &[u8]) {
        let _ = write_all(&mut self.rt.stderr(), bytes);
    }

    // Writes the system's words for an error to standard error. They are ASCII, and shorter than the buffer.
    fn say_reason(&self, reason: io::Error) {
        let mut text = Cursor::new([0u8; 256]);
        let _ = write!(text, "{reason}");
        let text = text.into_inner();
        if let Ok(text) = str::from_utf8(&text) {
            self.say(without_number(text).as_bytes());
        }
    }
}

// The words without the number that std puts behind them, and without the zeros that fill the buffer.
fn without_number(words: &str) -> &str {
    let words = words.trim_end_matches('\0');
    match words.rsplit_once(" (os error ") {
        Some((words, _)) => words,
        None => words,
    }
}
