// The program `delays [--tables FILE] [CALL]`: the delays of a call with their rules (change request 12), a row a frame. Crate delays_files does the work; here are the words of the command line and
// the tables, of which the initial delay is read: a fresh decoder carries it into the first frame.
#![tactic(auto)]

use tables::Scalar;

const USAGE: [u8; 37] = *b"usage: delays [--tables FILE] [CALL]\n";

// The delay that a fresh decoder carries.
fn initial(t: &[i16; 1880]) -> i16 {
    tables::scalars(t, Scalar::InitialPreviousPitchDelay)
}

// The tables are checked before the call is opened.
fn run(rt: &HostRuntime, tables: &[u8], given: bool, name: &[u8]) {
    let mut t = [0i16; 1880];
    let mut b = [0i16; 234];
    let checked = files::tables(rt, tables, &mut t, &mut b);
    if checked.code != 0 {
        delays_files::refuse(rt, checked.code);
        return;
    }
    let from = files::input(
        rt,
        given,
        name,
        b"delays",
        b"reading a call from the terminal; end it with Ctrl-D (delays --help tells more)",
    );
    if let Ok(from) = from {
        delays_files::delays(rt, &from, name, initial(&t));
    }
}

fn main(rt: HostRuntime) {
    let a = files::asked(&rt, 0, 1);
    let usage = USAGE;
    let done = files::answered(
        &rt,
        a,
        b"delays",
        &usage,
        b"Prints the pitch delays of a call and how each was found, a row a frame: its number, which is that of its line, and for each of its two subframes\nthe delay in thirds of a sample and its rule: 1 coded in thirds, 2 coded whole, 3 coded relative to the first, 4 carried after bad parity,\n5 carried in concealment. At the end stand the delays of each rule, and the share of carried ones, rounded down.\nIn concealment the whole part of the delay before is carried, and one sample more in each subframe that follows, up to 143.\n\n  delays monday.call >monday.delays\n  plot/delays -o monday.png monday.delays\n\n  CALL            a file or a named pipe; else the call is read from standard input\n  --tables FILE   the tables, 3,760 bytes; else tables.g729 of this folder. Their initial delay is carried into the first frame\n  --help          this text\n  --version       the version\n\nEvery line but the rows begins with #. A whole table ends with # carried; a call that is refused ends with # refused code C line L, and the reason is said on standard error.\nThe exit status is 0 in any case, but where the reader of a pipe has gone.\n",
    );
    if done {
        return;
    }
    let mut tables = [0u8; 4096];
    let mut name = [0u8; 4096];
    let tables = files::argument(&rt, a.tables, b"tables.g729", &mut tables);
    let name = files::argument(&rt, a.first, b"standard input", &mut name);
    run(&rt, tables, a.first.is_some(), name);
}
