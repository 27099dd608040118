// The rows of the tally: what each counts, and how they are printed.
use replay::stream;
use replay::tally::Tally;

#[derive(Clone, Copy)]
pub enum Row {
    Calls,
    Frames,
    Answers,
    WholeSamples,
    WholeStates,
    ResumedSamples,
    ResumedStates,
    Refusals,
    Unchanged,
}

pub(crate) fn print<R: Print>(rt: &R, tally: &Tally) {
    let calls = tally.compared(Row::Calls as usize);
    let frames = tally.compared(Row::Frames as usize);
    let _ = println!(rt; "calls {calls} frames {frames}");
    stream::print_row(rt, "answers", tally, Row::Answers as usize);
    stream::print_row(rt, "whole, samples", tally, Row::WholeSamples as usize);
    stream::print_row(rt, "whole, states", tally, Row::WholeStates as usize);
    stream::print_row(rt, "resumed, samples", tally, Row::ResumedSamples as usize);
    stream::print_row(rt, "resumed, states", tally, Row::ResumedStates as usize);
    stream::print_row(rt, "refusals", tally, Row::Refusals as usize);
    stream::print_row(
        rt,
        "unchanged after a refusal",
        tally,
        Row::Unchanged as usize,
    );
}
