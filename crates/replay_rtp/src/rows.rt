// The rows of the tally: what each counts, and how they are printed.
use replay::stream;
use replay::tally::Tally;

#[derive(Clone, Copy)]
pub enum Row {
    Payloads,
    // Of a payload, its code and the number of its frames.
    Code,
    Number,
    // Of its frames, the code of each, the last one, and the check sum of all.
    FrameCode,
    Last,
    All,
    // Of an index that is too high, its code, and what comes beside it.
    Refusal,
    Beside,
}

pub(crate) fn print_all<R: Print>(rt: &R, tally: &Tally) {
    let payloads = tally.compared(Row::Payloads as usize);
    let _ = println!(rt; "payloads {payloads}");
    stream::print_row(rt, "rtp::frames, code", tally, Row::Code as usize);
    stream::print_row(rt, "rtp::frames, number", tally, Row::Number as usize);
    stream::print_row(rt, "rtp::find, code", tally, Row::FrameCode as usize);
    stream::print_row(rt, "rtp::find, last frame", tally, Row::Last as usize);
    stream::print_row(
        rt,
        "rtp::find and rtp::part, all frames",
        tally,
        Row::All as usize,
    );
    stream::print_row(rt, "index too high, code", tally, Row::Refusal as usize);
    stream::print_row(
        rt,
        "index too high, frame and part",
        tally,
        Row::Beside as usize,
    );
}
