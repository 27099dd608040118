// The rows of the tally: what each counts, and how they are printed.
use replay::stream;
use replay::tally::Tally;

// Of the calls with fifteen fields and with fourteen, their codes and their bytes.
#[derive(Clone, Copy)]
pub enum Row {
    Lines,
    Fifteen,
    FifteenBytes,
    Fourteen,
    FourteenBytes,
    ReadBack,
}

pub(crate) fn print_all<R: Print>(rt: &R, tally: &Tally) {
    let lines = tally.compared(Row::Lines as usize);
    let _ = println!(rt; "rows {lines}");
    stream::print_row(rt, "pack::write_fields, code", tally, Row::Fifteen as usize);
    stream::print_row(
        rt,
        "pack::write_fields, bytes",
        tally,
        Row::FifteenBytes as usize,
    );
    stream::print_row(
        rt,
        "pack::write_fields_parity, code",
        tally,
        Row::Fourteen as usize,
    );
    stream::print_row(
        rt,
        "pack::write_fields_parity, bytes",
        tally,
        Row::FourteenBytes as usize,
    );
    stream::print_row(
        rt,
        "bitstream::fields, read back",
        tally,
        Row::ReadBack as usize,
    );
}
