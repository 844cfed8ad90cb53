// The words of programs: what they say on standard error, the name of a file until it is whole, and what a word of the command line means.
#![tactic(auto)]

ghost use Rattle.std.specs.Prelude.{◌≡◌, ◌++◌, ◌≤◌, min, length};
ghost use Rattle.lines.specs.Decimal.{decimal};
ghost use Rattle.words.specs.Reason.{reason};
ghost use Rattle.words.specs.Message.{cannot, said, refusal_at, why, refused_at, ends_at, not_taken_text, Begins};
ghost use Rattle.words.specs.File.{part_of};
ghost use Rattle.words.specs.Word.{is_option, meaning_of};

use lines::text::Text;
use refusal::Refusal;

const HEIGHT: u16 = Refusal::Height as u16;

const NO_OPEN: u16 = Refusal::NoOpen as u16;

const UNKNOWN_KIND: u16 = Refusal::UnknownKind as u16;

const CUT_OFF: u16 = Refusal::CutOff as u16;

const OPEN_AGAIN: u16 = Refusal::OpenAgain as u16;

const TOO_LONG: u16 = Refusal::TooLong as u16;

// What a word of the command line means, as long as the options have not ended.
#[derive(Clone, Copy)]
pub enum Word {
    // The name of a file, or `-`.
    Operand,
    // `--`: every word after it is an operand.
    EndOfOptions,
    // --help.
    Help,
    // Any other option.
    UnknownOption,
}

// Puts what a program could not do, and to what, into lent bytes, as far as there is room, and answers how many bytes it has there.
pub fn message(program: &[u8], deed: &[u8], thing: &[u8], text: &mut [u8]) -> usize
    ensures { Begins (cannot program.now deed.now thing.now) text.old result text.new }
{
    let mut said = Writer { text, n: 0 };
    said.cannot(program, deed, thing);
    said.n
}

// The same with why the journal is refused, as a line. Here and in `ending` the number may be any: no RefusedAt, which has only those of refusals.
pub fn refusal(
    program: &[u8],
    deed: &[u8],
    thing: &[u8],
    number: u16,
    offset: usize,
    text: &mut [u8],
) -> usize
    ensures { Begins (refused_at program.now deed.now thing.now number offset) text.old result
        text.new }
{
    let mut said = Writer { text, n: 0 };
    said.cannot(program, deed, thing);
    said.why(number, offset);
    said.n
}

// Puts why the listing of a journal has ended into lent bytes, in the same way, as a line.
pub fn ending(program: &[u8], thing: &[u8], number: u16, offset: usize, text: &mut [u8]) -> usize
    ensures { Begins (ends_at program.now thing.now number offset) text.old result text.new }
{
    let mut said = Writer { text, n: 0 };
    said.says(program, thing);
    said.why(number, offset);
    said.n
}

// Puts what is wrong with a word of the command line into lent bytes, in the same way, as a line.
pub fn objection(program: &[u8], fault: &[u8], word: &[u8], text: &mut [u8]) -> usize
    ensures { Begins (not_taken_text program.now fault.now word.now) text.old result text.new }
{
    let mut said = Writer { text, n: 0 };
    said.says(program, fault);
    said.append(b" ");
    said.append(word);
    said.append(b"\n");
    said.n
}

// Puts the name that a file has until it is whole into lent bytes, as far as there is room, and answers how many bytes it has there.
pub fn part_name(name: &[u8], text: &mut [u8]) -> usize
    ensures { Begins (part_of name.now) text.old result text.new }
{
    let mut part = Writer { text, n: 0 };
    part.append(name);
    part.append(b".part");
    part.n
}

// What a word means, as long as the options have not ended.
pub fn meaning(word: &[u8]) -> Word
    ensures { result ≡ meaning_of word.now }
{
    if word == b"--".as_slice() {
        return Word::EndOfOptions;
    }
    if word == b"--help".as_slice() {
        return Word::Help;
    }
    if is_option(word) {
        return Word::UnknownOption;
    }
    Word::Operand
}

// Whether the word begins as options do.
fn is_option(word: &[u8]) -> bool
    ensures { result ≡ is_option word.now }
{
    matches!(word, [b'-', _, ..])
}

// A message in lent bytes, as far as there is room: the first `n` of them.
#[derive(Drop)]
struct Writer<'a> {
    text: &'a mut [u8],
    n: usize,
    ghost within: { n ≤ length text.now },
}

impl Writer<'_> {
    ghost use Rattle.words.specs.Writing.{Adds};

    // Puts what a program could not do, and to what, to the end of the message.
    fn cannot(&mut self, program: &[u8], deed: &[u8], thing: &[u8])
        ensures { Adds self.old (cannot program.now deed.now thing.now) self.new }
    {
        self.append(program);
        self.append(b": cannot ");
        self.append(deed);
        self.append(b" ");
        self.append(thing);
    }

    // Puts the first words that a program says to the end of the message.
    fn says(&mut self, program: &[u8], what: &[u8])
        ensures { Adds self.old (said program.now what.now) self.new }
    {
        self.append(program);
        self.append(b": ");
        self.append(what);
    }

    // Puts why a journal is refused, in words and by number and offset, to the end of a line.
    fn why(&mut self, number: u16, offset: usize)
        ensures { Adds self.old (why number offset) self.new }
    {
        self.append(b": ");
        self.append(reason(number));
        self.number(b", refusal ", usize::from(number));
        self.number(b" at offset ", offset);
        self.append(b"\n");
    }

    // Puts what a number is and then the number itself, in decimal, to the end of the message.
    fn number(&mut self, what: &[u8], number: usize)
        ensures { Adds self.old (what.now ++ decimal number) self.new }
    {
        self.append(what);
        let digits = Text::empty().decimal(number);
        self.append(&digits.bytes[..digits.n]);
    }

    // Puts `more` to the end of the message, as far as there is room.
    fn append(&mut self, more: &[u8])
        ensures { Adds self.old more.now self.new }
    {
        let end = self.n + more.len().min(self.text.len() - self.n);
        self.text[self.n..end].copy_from_slice(&more[..end - self.n]);
        self.n = end;
    }
}

// The words for a journal's refusal with this number.
fn reason(number: u16) -> &'static [u8]
    ensures { result.now ≡ reason number }
{
    match number {
        HEIGHT => b"the height is above 12",
        NO_OPEN => b"the journal is empty, or its first record is no open",
        UNKNOWN_KIND => b"a record of unknown kind",
        CUT_OFF => b"the journal ends inside a record",
        OPEN_AGAIN => b"an open record that is not the first",
        TOO_LONG => b"the journal has more than 65,536 bytes",
        _ => b"the journal is refused",
    }
}
