// The rows of the tally: what each counts, and how they are printed.
use replay::stream;
use replay::tally::Tally;

#[derive(Clone, Copy)]
pub enum Row {
    // Of all bytes of a law in one call, and all their samples.
    ReadCode,
    Read,
    WriteCode,
    Write,
    // Of each sample of 16 bits by itself: of those that are table values, and of the others.
    Taken,
    One,
    Refused,
    Untouched,
    // Of single calls.
    Call,
    Kept,
}

pub(crate) fn print_all<R: Print>(rt: &R, tally: &Tally) {
    stream::print_row(
        rt,
        "g711::read, all bytes, code",
        tally,
        Row::ReadCode as usize,
    );
    stream::print_row(rt, "g711::read, all bytes", tally, Row::Read as usize);
    stream::print_row(
        rt,
        "g711::write, their samples, code",
        tally,
        Row::WriteCode as usize,
    );
    stream::print_row(rt, "g711::write, their samples", tally, Row::Write as usize);
    stream::print_row(
        rt,
        "g711::write, each sample, code",
        tally,
        Row::Taken as usize,
    );
    stream::print_row(rt, "g711::write, each sample", tally, Row::One as usize);
    stream::print_row(rt, "no table value, code", tally, Row::Refused as usize);
    stream::print_row(
        rt,
        "no table value, nothing written",
        tally,
        Row::Untouched as usize,
    );
    stream::print_row(rt, "calls, code", tally, Row::Call as usize);
    stream::print_row(
        rt,
        "refused calls, nothing written",
        tally,
        Row::Kept as usize,
    );
}
