// What one decoder has at a frame.
use parameters::Decoded;
use replay::part;

#[derive(Clone, Copy)]
pub struct Values {
    // Before it: the seed of erased frames; past excitation and last ten samples.
    pub seed: i16,
    pub signal: [i16; 164],
    // Of both subframes: delays, each with its fraction; gains; filter coefficients; sharpened codevectors.
    pub delays: [i16; 4],
    pub pitch_gains: [i16; 2],
    pub fixed_gains: [i16; 2],
    pub filters: [i16; 22],
    pub pulses: [i16; 80],
    // Its ten line spectral frequencies, and its samples.
    pub frequencies: [i16; 10],
    pub samples: [i16; 80],
}

// From the state block before the frame, its parameters and its samples.
pub(crate) fn of_frame(before: &[i16; 234], d: Decoded, samples: [i16; 80]) -> Values {
    let first = d.first;
    let second = d.second;
    let delay = first.delay;
    let next = second.delay;
    let params = d.params;
    let frequencies = params.omega;
    let signal = part::array(before, 70);
    let mut filters = [0; 22];
    filters[..11].copy_from_slice(&first.a);
    filters[11..].copy_from_slice(&second.a);
    let mut pulses = [0; 80];
    pulses[..40].copy_from_slice(&first.code);
    pulses[40..].copy_from_slice(&second.code);
    Values {
        seed: part::word(before, 62, 0),
        signal,
        delays: [delay.integer, delay.fraction, next.integer, next.fraction],
        pitch_gains: [first.gp, second.gp],
        fixed_gains: [first.gc, second.gc],
        filters,
        pulses,
        frequencies,
        samples,
    }
}
