// Lists a journal on standard output: that in the file that the argument names, or that on standard input.
#![tactic(auto)]

use command::{Program, WORD};
use line::NUMBERS;

fn main(rt: HostRuntime) {
    let listing = Program {
        rt: &rt,
        name: b"listing",
        usage: b"usage: listing [FILE]\nlisting --help says more.\n",
        help: b"usage: listing [FILE]\n\
        Lists the journal in FILE, or on standard input if there is no FILE or it is -.\n\
        A FILE whose name begins with - comes after --. Each record is a line:\n\
        \n    ordinal kind who size answer node moves move...\n\n\
        ordinal  the place of the record in the journal, from 1\n\
        kind     O open, G grant by level, P grant by pages, R release, Z growth,\n         W join, A admit, X withdrawal\n\
        who      the tenant; for O the height; for A who was admitted, or - for nobody\n\
        size     the level, for P the pages; - for O, R, A and X\n\
        answer   0 if the call was accepted, or else the number of its refusal\n\
        node     the node of the tenant, for R the one given up; 0 if nobody was\n         admitted; - for O, W, X and a refused call\n\
        moves    how many other tenants are moved\n\
        move     tenant:old>new, or tenant:old=new if the tenant is staged: its pages\n         wait outside the reserve while the others move\n\
        \nA journal that cannot be listed to its end has a last line\n\
        \n    ! offset number\n\n\
        with the offset of the first record that is not listed and the number of the\n\
        refusal; standard error then says why. docs/MANUAL.md has all this with examples,\n\
        and what each refusal means.\n",
        most: 1,
    };
    if listing.has_work() {
        let mut name = [0u8; WORD];
        list_from(&listing, listing.argument(1, &mut name));
    }
}

// Lists the journal in the file of that name, or on standard input for `-`.
fn list_from(listing: &Program, name: &[u8]) {
    let mut input = [0u8; 65537];
    if let Some(n) = listing.read_input(name, &mut input) {
        list_whole(listing, name, &input[..n]);
    }
}

// Lists a journal that was read under that name. Why the listing ended before the journal did is said when all of it is written.
fn list_whole(listing: &Program, name: &[u8], journal: &[u8]) {
    let mut table = [0u16; 4096];
    let mut line = [0u16; NUMBERS];
    if list(listing, journal, &mut table, &mut line)
        && listing.close_output()
        && let Err(at) = conversion::judge(journal)
    {
        listing.explain_end(name, u16::from(at.refusal), at.offset);
    }
}

// Writes the listing of a journal, block by block, and answers whether all of it was written: a write that fails ends it.
fn list(listing: &Program, journal: &[u8], table: &mut [u16], line: &mut [u16]) -> bool {
    let mut block = [0u8; 65536];
    let mut state = replay::start();
    loop {
        let filled = replay::fill(state, journal, table, line, &mut block);
        if !listing.write_output(&block[..filled.length]) {
            return false;
        }
        if !filled.on {
            return true;
        }
        state = filled.state;
    }
}
