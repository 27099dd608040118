// The rows of the tally: what each counts, and how they are printed.
use replay::stream;
use replay::tally::Tally;

#[derive(Clone, Copy)]
pub enum Row {
    Code,
    // Of calls that are not refused.
    Heard,
    // Of those that are.
    Kept,
}

pub(crate) fn print_all<R: Print>(rt: &R, tally: &Tally) {
    stream::print_row(rt, "mix::mix, code", tally, Row::Code as usize);
    stream::print_row(rt, "heard, check sum", tally, Row::Heard as usize);
    stream::print_row(
        rt,
        "refused calls, nothing written",
        tally,
        Row::Kept as usize,
    );
}
