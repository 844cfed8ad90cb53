// Calls the library as a program in Rattle does, which no journal and no C program can: with its own enums and arrays, and on tables and
// lines of any length. A line for each call, as in the listing but without its ordinal: kind, height or tenant, level or pages, answer, node,
// number of moves, and all seven entries of the array of moves, also those that no move stands in. A line with = has the numbers of the table,
// or of the line, that are not 0, each behind its place. The papers' examples are journals in examples/, which tests/listing and tests/door run.
// What cannot be written to standard output is missing there, and nothing else is said of it.
#![tactic(auto)]

use admission::{Admitted, Request};
use line::NUMBERS;
use planner::perform_by_value;
use plans::Plan;
use refusal::Refusal;
use rules::Call;

// The height of the reserve.
const HEIGHT: u16 = 3;

fn main(rt: HostRuntime) {
    table_lengths(&rt);
    line_lengths(&rt);
}

// Tables of 4,095, 4,096 and 4,097 entries.
fn table_lengths(rt: &HostRuntime) {
    let _ = println!(rt; "# tables of 4,095 entries, 4,096 and 4,097");
    let mut short = [0u16; 4097];
    short[1] = 9;
    on_empty_line(rt, &mut short[..4095]);
    let mut right = [0u16; 4097];
    right[1] = 9;
    on_empty_line(rt, &mut right[..4096]);
    let mut long = [0u16; 4097];
    long[1] = 9;
    on_empty_line(rt, &mut long);
}

fn on_empty_line(rt: &HostRuntime, table: &mut [u16]) {
    let mut numbers = [0u16; NUMBERS];
    every_call(rt, table, &mut numbers);
    show(rt, table);
}

// Lines of 192, 193 and 194 numbers.
fn line_lengths(rt: &HostRuntime) {
    let _ = println!(rt; "# lines of 192 numbers, 193 and 194");
    let mut short = [0u16; 194];
    short[1] = 9;
    on_empty_table(rt, &mut short[..192]);
    let mut right = [0u16; 194];
    right[1] = 9;
    on_empty_table(rt, &mut right[..193]);
    let mut long = [0u16; 194];
    long[1] = 9;
    on_empty_table(rt, &mut long);
}

fn on_empty_table(rt: &HostRuntime, line: &mut [u16]) {
    let mut space = [0u16; 4096];
    every_call(rt, &mut space, line);
    show(rt, line);
}

// Every kind of call, from the opening on, and one with three entries for its moves. A table or a line of another length is left as it is,
// with a 9 in it; a release and a growth take no line.
fn every_call(rt: &HostRuntime, table: &mut [u16], line: &mut [u16]) {
    open(rt, table, line);
    grant(rt, table, line, 3);
    grant(rt, table, line, 4);
    with_line(rt, table, line);
    without_line(rt, table, line);
}

fn with_line(rt: &HostRuntime, table: &mut [u16], line: &mut [u16]) {
    direct(
        rt,
        table,
        line,
        4,
        Call::GrantPages {
            tenant: 1,
            pages: 1,
        },
    );
    join(rt, table, line, 3, 0);
    admit(rt, table, line);
    withdraw(rt, table, line, 3);
}

fn without_line(rt: &HostRuntime, table: &mut [u16], line: &mut [u16]) {
    direct(
        rt,
        table,
        line,
        7,
        Call::Grow {
            tenant: 1,
            level: 0,
        },
    );
    direct(rt, table, line, 4, Call::Release { tenant: 1 });
}

fn open(rt: &HostRuntime, table: &mut [u16], line: &mut [u16]) {
    let answer = admission::open(HEIGHT, table, line);
    let _ = print!(rt; "O {HEIGHT} -");
    print_answer(rt, answer);
}

fn grant(rt: &HostRuntime, table: &mut [u16], line: &mut [u16], entries: usize) {
    direct(
        rt,
        table,
        line,
        entries,
        Call::GrantLevel {
            tenant: 0,
            level: 0,
        },
    );
}

// Runs a call on a lent list of moves: `perform_by_value` lends one of seven entries to `perform`, unless fewer than the call takes are asked for.
fn direct(rt: &HostRuntime, table: &mut [u16], line: &mut [u16], entries: usize, call: Call) {
    let admitted = perform_by_value(HEIGHT, table, line, entries, Request::Direct { call });
    print_call(rt, call);
    print_admitted(rt, admitted);
}

fn admit(rt: &HostRuntime, table: &mut [u16], line: &mut [u16]) {
    let admitted = perform_by_value(HEIGHT, table, line, 4, Request::Admit);
    print_named(rt, admitted);
    print_admitted(rt, admitted);
}

fn join(rt: &HostRuntime, table: &[u16], line: &mut [u16], tenant: u16, level: u16) {
    let answer = admission::join(HEIGHT, table, line, tenant, level);
    let _ = print!(rt; "W {tenant} {level}");
    print_answer(rt, answer);
}

fn withdraw(rt: &HostRuntime, table: &[u16], line: &mut [u16], tenant: u16) {
    let answer = admission::withdraw(HEIGHT, table, line, tenant);
    let _ = print!(rt; "X {tenant} -");
    print_answer(rt, answer);
}

// A call's kind, tenant, and level or pages.
fn print_call(rt: &HostRuntime, call: Call) {
    let _ = match call {
        Call::GrantLevel { tenant, level } => print!(rt; "G {tenant} {level}"),
        Call::GrantPages { tenant, pages } => print!(rt; "P {tenant} {pages}"),
        Call::Release { tenant } => print!(rt; "R {tenant} -"),
        Call::Grow { tenant, level } => print!(rt; "Z {tenant} {level}"),
    };
}

// An admit's kind, and the tenant granted.
fn print_named(rt: &HostRuntime, admitted: Result<Admitted, Refusal>) {
    let _ = match admitted {
        Ok(
            Admitted {
                tenant: Some(tenant),
                ..
            },
        ) => print!(rt; "A {tenant} -"),
        _ => print!(rt; "A - -"),
    };
}

// What a call reports that answers no node and moves nobody.
fn print_answer(rt: &HostRuntime, answer: Result<(), Refusal>) {
    let number = match answer {
        Ok(()) => 0,
        Err(refusal) => u16::from(refusal),
    };
    let _ = println!(rt; " {number} - 0");
}

// A refused call has no moves, so no entry of its array has one.
fn print_admitted(rt: &HostRuntime, admitted: Result<Admitted, Refusal>) {
    match admitted {
        Ok(Admitted { node, plan, .. }) => {
            let _ = print!(rt; " 0 {node}");
            print_moves(rt, plan);
        }
        Err(refusal) => {
            let _ = print!(rt; " {} -", u16::from(refusal));
            print_moves(rt, Plan::none());
        }
    }
}

fn print_moves(rt: &HostRuntime, plan: Plan) {
    let _ = print!(rt; " {}", plan.n);
    for m in &plan.moves {
        let sign = if m.staged == 0 { '>' } else { '=' };
        let _ = print!(rt; " {}:{}{sign}{}", m.tenant, m.from, m.to);
    }
    let _ = println!(rt; "");
}

// The numbers that are not 0.
fn show(rt: &HostRuntime, table: &[u16]) {
    let _ = print!(rt; "=");
    for (tenant, node) in table.iter().enumerate() {
        if *node != 0 {
            let _ = print!(rt; " {tenant}:{node}");
        }
    }
    let _ = println!(rt; "");
}
