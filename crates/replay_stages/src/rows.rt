// The rows of the tally: what each counts, and how they are printed.
use replay::stream;
use replay::tally::Tally;

#[derive(Clone, Copy)]
pub enum Row {
    Cases,
    Frames,
    Unpack,
    Parity,
    Delay,
    NewRow,
    ErasedRow,
    DecodeLsf,
    Remember,
    Lsp,
    Interpolate,
    Lp,
    Random,
    Codevector,
    Sharpen,
    DecodeGain,
    ConcealGain,
    Sharpening,
    Vector,
    Excitation,
    Synthesize,
    Reconstruct,
    Carried,
}

fn print_parameters<R: Print>(rt: &R, tally: &Tally) {
    stream::print_row(rt, "bitstream::unpack", tally, Row::Unpack as usize);
    stream::print_row(rt, "pitch::parity_ok", tally, Row::Parity as usize);
    stream::print_row(rt, "pitch::PitchState", tally, Row::Delay as usize);
    stream::print_row(rt, "lsp::new_row", tally, Row::NewRow as usize);
    stream::print_row(rt, "lsp::erased_row", tally, Row::ErasedRow as usize);
    stream::print_row(rt, "lsp::decode_lsf", tally, Row::DecodeLsf as usize);
    stream::print_row(rt, "lsp::remember_output", tally, Row::Remember as usize);
    stream::print_row(rt, "lsp::lsf_to_lsp", tally, Row::Lsp as usize);
    stream::print_row(rt, "lsp::interpolate", tally, Row::Interpolate as usize);
    stream::print_row(rt, "lpc::lsp_to_lp", tally, Row::Lp as usize);
}

fn print_code_and_signal<R: Print>(rt: &R, tally: &Tally) {
    stream::print_row(rt, "fixed::random_index", tally, Row::Random as usize);
    stream::print_row(rt, "fixed::codevector", tally, Row::Codevector as usize);
    stream::print_row(rt, "fixed::sharpen", tally, Row::Sharpen as usize);
    stream::print_row(rt, "gain::decode", tally, Row::DecodeGain as usize);
    stream::print_row(rt, "gain::conceal", tally, Row::ConcealGain as usize);
    stream::print_row(rt, "gain::sharpening", tally, Row::Sharpening as usize);
    stream::print_row(rt, "adaptive::adaptive_vector", tally, Row::Vector as usize);
    stream::print_row(rt, "synth::excitation", tally, Row::Excitation as usize);
    stream::print_row(rt, "synth::synthesize", tally, Row::Synthesize as usize);
    stream::print_row(rt, "synth::reconstruct", tally, Row::Reconstruct as usize);
    stream::print_row(rt, "carried", tally, Row::Carried as usize);
}

pub(crate) fn print<R: Print>(rt: &R, tally: &Tally) {
    let cases = tally.compared(Row::Cases as usize);
    let frames = tally.compared(Row::Frames as usize);
    let _ = println!(rt; "cases {cases} frames {frames}");
    print_parameters(rt, tally);
    print_code_and_signal(rt, tally);
}
