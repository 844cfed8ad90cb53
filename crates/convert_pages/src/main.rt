// Converts a journal: each grant of 0 pages becomes a grant of level 0, and every other record stays as it is.
#![tactic(auto)]

use command::{Program, WORD};

fn main(rt: HostRuntime) {
    let convert_pages = Program {
        rt: &rt,
        name: b"convert_pages",
        usage: b"usage: convert_pages [OLD [NEW]]\nconvert_pages --help says more.\n",
        help: b"usage: convert_pages [OLD [NEW]]\n\
        Converts the journal in OLD into NEW: each grant of 0 pages becomes a grant of\n\
        level 0, and every other record is copied. It is for journals from before\n\
        version 4.0 of the header, in which 0 pages meant one page; now they mean 16.\n\
        Without OLD, or if it is -, it reads standard input; without NEW, or if it is -,\n\
        it writes to standard output. A name that begins with - comes after --.\n\
        The whole journal is converted, or nothing. NEW is written as NEW.part, which\n\
        takes the name NEW when all of it is on the disk. A NEW.part that is there\n\
        before is left as it is, and nothing is converted: remove it if no conversion is\n\
        at work. \"Old journals\" in docs/MANUAL.md has the rest.\n",
        most: 2,
    };
    if convert_pages.has_work() {
        let mut old = [0u8; WORD];
        convert_from(&convert_pages, convert_pages.argument(1, &mut old));
    }
}

// Reads the journal in the file of that name, or on standard input for `-`, and converts it.
fn convert_from(convert_pages: &Program, old: &[u8]) {
    let mut input = [0u8; 65537];
    if let Some(n) = convert_pages.read_input(old, &mut input) {
        convert_whole(convert_pages, old, &input[..n]);
    }
}

// Converts a journal that was read under that name, or says why not. The whole of it is converted before any of it is written.
fn convert_whole(convert_pages: &Program, old: &[u8], journal: &[u8]) {
    let mut out = [0u8; 65537];
    match conversion::convert(journal, &mut out) {
        Ok(length) => write(convert_pages, &out[..length]),
        Err(at) => { convert_pages.refuse_input(b"convert", old, u16::from(at.refusal), at.offset) }
    }
}

// Writes the new journal to the file that the second argument names, or to standard output.
fn write(convert_pages: &Program, journal: &[u8]) {
    let mut new = [0u8; WORD];
    convert_pages.write_to(convert_pages.argument(2, &mut new), journal);
}
