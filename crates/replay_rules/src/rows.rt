// The rows of the tally: what each counts, and how they are printed.
use replay::stream;
use replay::tally::Tally;

#[derive(Clone, Copy)]
pub enum Row {
    FrameCode,
    FrameDelays,
    FrameRules,
    FrameCarried,
    ScanCode,
    ScanDelays,
    ScanRules,
    ScanCarried,
    Rules,
    // Of refused frames.
    Kept,
    // Behind each frame.
    Counters,
    // Of a call of Count.
    CountCode,
    Counted,
    // Of a number.
    Known,
    OfNumber,
    // F, C and M lines.
    Lines,
}

// Those of a frame by one of the two calls: the code; behind it the delays, the rules and the delay that is carried on.
#[derive(Clone, Copy)]
pub struct Rows {
    pub code: Row,
    pub delays: Row,
    pub rules: Row,
    pub carried: Row,
}

pub const FRAME: Rows = Rows {
    code: Row::FrameCode,
    delays: Row::FrameDelays,
    rules: Row::FrameRules,
    carried: Row::FrameCarried,
};

pub const SCAN: Rows = Rows {
    code: Row::ScanCode,
    delays: Row::ScanDelays,
    rules: Row::ScanRules,
    carried: Row::ScanCarried,
};

// How many values differ so far, without the count of the lines.
pub(crate) fn differing(tally: &Tally) -> u32 {
    let mut sum = 0u32;
    for row in 0..Row::Lines as usize {
        sum = sum.wrapping_add(tally.differ(row));
    }
    sum
}

fn print_frame<R: Print>(rt: &R, name: &str, carried: &str, tally: &Tally, rows: Rows) {
    stream::print_row(rt, name, tally, rows.code as usize);
    stream::print_row(rt, "its delays", tally, rows.delays as usize);
    stream::print_row(rt, "its rules", tally, rows.rules as usize);
    stream::print_row(rt, carried, tally, rows.carried as usize);
}

pub(crate) fn print_all<R: Print>(rt: &R, tally: &Tally) {
    print_frame(
        rt,
        "decoder::frame, code",
        "the delay that its state carries",
        tally,
        FRAME,
    );
    print_frame(
        rt,
        "frame_delays::frame_delays, code",
        "the delay that it carries",
        tally,
        SCAN,
    );
    stream::print_row(rt, "rule::frame_rules", tally, Row::Rules as usize);
    stream::print_row(
        rt,
        "refused frames, nothing written",
        tally,
        Row::Kept as usize,
    );
    stream::print_row(rt, "counters of the frames", tally, Row::Counters as usize);
    stream::print_row(rt, "count::count, code", tally, Row::CountCode as usize);
    stream::print_row(rt, "its counters", tally, Row::Counted as usize);
    stream::print_row(rt, "rule::known", tally, Row::Known as usize);
    stream::print_row(rt, "rule::of_number", tally, Row::OfNumber as usize);
    stream::print_row(rt, "rows", tally, Row::Lines as usize);
}
