// The operations of 01 for other languages, the delays of frames with their rules, the writing of frames and lines, the frames of RTP payloads, G.711, what each leg of a conference heard, the trying of playout depths, the agreement of two decoders and the comparison with a far one: C functions over pointers and lengths, each the proved function of its crate.
// A slice is a pointer and then a length in elements. Each returns 0 or the number of its refusal, which leaves all lent memory as it
// was; what it answers beside its number goes to lent memory. The two for RTP payloads return a struct of both. include/holdamek.h says the same for C.
#![tactic(auto)]

ghost use Rattle.std.specs.Prelude.{◌≡◌, length};
ghost use Rattle.tables.specs.Layout.{table_check};
ghost use Rattle.bitstream.specs.Fields as fields;
ghost use Rattle.pack.specs.Pack.{write_fields, write_fields_parity};
ghost use Rattle.rtp.specs.Rtp.{frames, find};
ghost use Rattle.g711.specs.G711 as g711;
ghost use Rattle.mix.specs.Mix as mixing;
ghost use Rattle.playout.specs.Playout.{playout};
ghost use Rattle.state.specs.State as state;
ghost use Rattle.agree.specs.Agree.{agree};
ghost use Rattle.decoder.specs.Call.{frame};
ghost use Rattle.frame_delays.specs.Delays.{frame_delays};
ghost use Rattle.line.specs.Line.{line};
ghost use Rattle.line.specs.Write.{write};
ghost use Rattle.compare_step.specs.Compare as comparison;
ghost use Rattle.holdamek.specs.Lent.{comparing, lend_compare, framed, lend_frame, scanned, lend_delays, lent, lend_line, lend_write, lend_playout, counting, lend_count, agreeing, lend_agree};

use compare_step::Class;

mod lent;

#[unsafe(no_mangle)]
pub extern "C" fn holdamek_table_check(t: &[i16]) -> u32
    ensures { result ≡ table_check t.now }
{
    refusal::code(tables::table_check(t))
}

#[unsafe(no_mangle)]
pub extern "C" fn holdamek_fields(bytes: &[u8], receiver: &mut [u16]) -> u32
    ensures { fields.answer result receiver.new ≡ fields.fields_call bytes.now receiver.old }
{
    refusal::code(bitstream::fields(bytes, receiver))
}

// The frame of fifteen fields, in the order of their bits, goes to `bytes`.
#[unsafe(no_mangle)]
pub extern "C" fn holdamek_write_fields(numbers: &[u16], bytes: &mut [u8]) -> u32
    ensures { fields.answer result bytes.new ≡ write_fields numbers.now bytes.old }
{
    refusal::code(pack::write_fields(numbers, bytes))
}

// The same of fourteen: P0 is left out, and supplied.
#[unsafe(no_mangle)]
pub extern "C" fn holdamek_write_fields_parity(numbers: &[u16], bytes: &mut [u8]) -> u32
    ensures { fields.answer result bytes.new ≡ write_fields_parity numbers.now bytes.old }
{
    refusal::code(pack::write_fields_parity(numbers, bytes))
}

// The number of frames of an RTP payload. No memory is lent for writing: what is answered beside the number is returned with it, 0 beside a refusal.
#[unsafe(no_mangle)]
pub extern "C" fn holdamek_payload_frames(payload: &[u8]) -> rtp::FrameCount
    ensures { result ≡ frames (length payload.now) }
{
    rtp::frames(payload)
}

// The kind of one of its frames, and where in the payload its bytes lie: no reference crosses this border.
#[unsafe(no_mangle)]
pub extern "C" fn holdamek_payload_frame(payload: &[u8], index: usize) -> rtp::FramePart
    ensures { result ≡ find (length payload.now) index }
{
    rtp::find(payload, index)
}

// The samples of G.711 bytes of a law, 1 A or 2 mu.
#[unsafe(no_mangle)]
pub extern "C" fn holdamek_g711_read(law: u32, bytes: &[u8], samples: &mut [i16]) -> u32
    ensures { g711.read result samples.new ≡ g711.read_call law bytes.now samples.old }
{
    refusal::code(g711::read(law, bytes, samples))
}

// And back: the bytes of samples that are table values of the law.
#[unsafe(no_mangle)]
pub extern "C" fn holdamek_g711_write(law: u32, samples: &[i16], bytes: &mut [u8]) -> u32
    ensures { g711.written result bytes.new ≡ g711.write_call law samples.now bytes.old }
{
    refusal::code(g711::write(law, samples, bytes))
}

// What each leg of a conference heard: the sum of all others, limited.
#[unsafe(no_mangle)]
pub extern "C" fn holdamek_mix(legs: &[i16], heard: &mut [i16]) -> u32
    ensures { mixing.mixed result heard.new ≡ mixing.mix_call legs.now heard.old }
{
    refusal::code(mix::mix(legs, heard))
}

// The kind of each frame at a playout depth goes to `kinds`, 0 voice or 3 lost, and how many are lost to `lost`.
#[unsafe(no_mangle)]
pub extern "C" fn holdamek_playout(
    frames: u32,
    start: u32,
    depth: u32,
    numbers: &[u32],
    times: &[u32],
    kinds: &mut [u32],
    lost: &mut u32,
) -> u32
    ensures { lent result lost.new kinds.new ≡ lend_playout lost.old (playout frames start depth numbers.now times.now kinds.old) }
{
    match playout::playout(frames, start, depth, numbers, times, kinds) {
        Err(untried) => untried.number(),
        Ok(n) => {
            *lost = n;
            0
        }
    }
}

#[unsafe(no_mangle)]
pub extern "C" fn holdamek_fresh_state(t: &[i16], b: &mut [i16]) -> u32
    ensures { state.answer result b.new ≡ state.fresh_state t.now b.old }
{
    refusal::code(state::fresh_state(t, b))
}

// The samples go to `out`; the delays that both subframes used to `delays`, integer and fraction of each, and how each was found to `rules`, the numbers of change request 12.
#[tactic(auto, unfolding(crate::specs::Lent::lend_frame))]
#[unsafe(no_mangle)]
pub extern "C" fn holdamek_frame(
    t: &[i16],
    b: &mut [i16],
    kind: u32,
    payload: &[u8],
    out: &mut [i16],
    delays: &mut [i16; 4],
    rules: &mut [u32; 2],
) -> u32
    ensures { framed result b.new out.new delays.new rules.new ≡ lend_frame delays.old rules.old (frame t.now b.old kind payload.now out.old) }
{
    let answer = decoder::frame(t, b, kind, payload, out);
    match answer {
        Err(r) => r.number(),
        Ok(r) => {
            *delays = lent::delays_of(r);
            *rules = lent::rules_of(r);
            0
        }
    }
}

// The same delays and rules without the samples: from the delay that is carried into the frame, which becomes the one that is carried on.
#[tactic(auto, unfolding(crate::specs::Lent::lend_delays))]
#[unsafe(no_mangle)]
pub extern "C" fn holdamek_delays(
    carried: &mut i16,
    kind: u32,
    payload: &[u8],
    delays: &mut [i16; 4],
    rules: &mut [u32; 2],
) -> u32
    ensures { scanned result carried.new delays.new rules.new ≡ lend_delays delays.old rules.old (frame_delays carried.old kind payload.now) }
{
    let answer = frame_delays::frame_delays(carried, kind, payload);
    match answer {
        Err(refused) => refused.number(),
        Ok(r) => {
            *delays = lent::delays_of(r);
            *rules = lent::rules_of(r);
            0
        }
    }
}

// The kind goes to `kind`, the payload to the front of `payload`.
#[unsafe(no_mangle)]
pub extern "C" fn holdamek_line(text: &[u8], kind: &mut u32, payload: &mut [u8]) -> u32
    ensures { lent result kind.new payload.new ≡ lend_line kind.old (line text.now payload.old) }
{
    match line::line(text, payload) {
        Err(no_line) => no_line.number(),
        Ok(k) => {
            *kind = k;
            0
        }
    }
}

// The line goes to the front of `out`, its length to `length`.
#[unsafe(no_mangle)]
pub extern "C" fn holdamek_write_line(
    kind: u32,
    payload: &[u8],
    out: &mut [u8],
    length: &mut usize,
) -> u32
    ensures { lent result length.new out.new ≡ lend_write length.old (write kind payload.now out.old) }
{
    match line::write(kind, payload, out) {
        Err(r) => r.number(),
        Ok(n) => {
            *length = n;
            0
        }
    }
}

// The counts of a call with a frame of this kind and these rules in them: its frames, those of them that are concealed, and its subframes by their rule.
#[unsafe(no_mangle)]
pub extern "C" fn holdamek_count(kind: u32, first: u32, second: u32, counts: &mut [u32; 7]) -> u32
    ensures { counting result counts.new ≡ lend_count kind first second counts.old }
{
    let kind_known = kind::known(kind);
    let rules_known = lent::rules_known(first, second);
    if !kind_known {
        return 5;
    }
    if !rules_known {
        return 24;
    }
    let rules = lent::rules_of_numbers(first, second);
    match count::count(kind, rules, lent::counts_of(counts)) {
        Err(r) => r.number(),
        Ok(c) => {
            *counts = lent::numbers_of(c);
            0
        }
    }
}

// How far two decoders agree from here on goes to `agreement`: 0 nothing can be said, 1 parameters, 2 pulses, 3 samples.
#[tactic(auto, unfolding(crate::specs::Lent::lend_agree))]
#[unsafe(no_mangle)]
pub extern "C" fn holdamek_agree(a: &[i16], b: &[i16], agreement: &mut u32) -> u32
    ensures { agreeing result agreement.new ≡ lend_agree agreement.old (agree a.now b.now) }
{
    let answer = agree::agree(a, b);
    match answer {
        Err(r) => r.number(),
        Ok(found) => {
            *agreement = found as u32;
            0
        }
    }
}

// The memory of a comparison before its first frame.
#[unsafe(no_mangle)]
pub extern "C" fn holdamek_begin_compare(t: &[i16], m: &mut [i16]) -> u32
    ensures { comparison.begun result m.new ≡ comparison.begin t.now m.old }
{
    refusal::code(compare_step::begin(t, m))
}

// What a frame is goes to `class`: 0 concealed, 1 settling, 2 not clean, 3 known, 4 differs; its number in the count, or the first sample that differs, to `number`; how much it differs, to `rest`.
#[tactic(auto, unfolding(crate::specs::Lent::lend_compare))]
#[unsafe(no_mangle)]
pub extern "C" fn holdamek_compare(
    t: &[i16],
    m: &mut [i16],
    kind: u32,
    payload: &[u8],
    y: &[i16],
    out: &mut [i16],
    class: &mut u32,
    number: &mut u32,
    rest: &mut i32,
) -> u32
    ensures { comparing result m.new out.new class.new number.new rest.new ≡ lend_compare class.old number.old rest.old (comparison.compare t.now m.old kind payload.now y.now out.old) }
{
    let answer = compare_step::compare(t, m, kind, payload, y, out);
    match answer {
        Err(r) => r.number(),
        Ok(Class::Concealed) => {
            *class = 0;
            *number = 0;
            *rest = 0;
            0
        }
        Ok(Class::Settling(n)) => {
            *class = 1;
            *number = n as u32;
            *rest = 0;
            0
        }
        Ok(Class::NotClean(n)) => {
            *class = 2;
            *number = n as u32;
            *rest = 0;
            0
        }
        Ok(Class::Known) => {
            *class = 3;
            *number = 0;
            *rest = 0;
            0
        }
        Ok(Class::Differs(d)) => {
            *class = 4;
            *number = d.sample as u32;
            let by = d.rest;
            *rest = by;
            0
        }
    }
}
