// Renders one window of a sawtooth and writes its samples in hex: frequency 1, eight samples of an eighth of a second, into internal buffer 0.
// Rests on `magnetron` for the pools, on `engine` for the run and on `std::io` for printing; what it writes is compared with document 01's listing.
#![tactic(auto)]

use engine::run::run;
use magnetron::buffer::BufferIndex;
use magnetron::lent::Lent;
use magnetron::pool::Pools;
use magnetron::prepare::new_pool;
use microwave::oscillator::{OscillatorSpec, OscillatorType};
use microwave::parameter::Parameter;
use stages::kind::Kind;
use stages::patch::Patch;
use stages::stage::Stage;
use stages::state::new_states;
use std::io::Stdout;

// A sawtooth of one turn a second into internal buffer 0.
fn sawtooth() -> Stage {
    Stage {
        kind: Kind::Oscillator {
            oscillator: OscillatorSpec {
                oscillator_type: OscillatorType::Sawtooth,
                frequency: Parameter::Fixed(1.0),
                phase: Parameter::Absent,
            },
        },
        output: BufferIndex::Internal(0),
        out_level: Parameter::Absent,
    }
}

// A sample's 16 hex digits on a line. A NaN has no bits of its own: it is written as the usual quiet one.
fn write_sample(stdout: Stdout, x: f64) {
    let bits = std::num::f64_to_bits_with_nan(x);
    let _ = println!(stdout; "{bits:016x}");
}

// Each sample on a line.
fn write_samples(stdout: Stdout, samples: &[f64]) {
    for &x in samples {
        write_sample(stdout, x);
    }
}

// The run, on new pools that were prepared; whether it was accepted. Where a pool or prepare is refused, the run is refused too.
// The stage has no ring and no slot: nothing is lent as rings and as values.
fn render(internal: &mut [f64], none: &mut [f64], zeros: &[f64]) -> bool {
    let inner = new_pool(1, 8, internal).pool;
    let outer = new_pool(0, 0, none).pool;
    let lent = Lent {
        internal: &*internal,
        external: &*none,
        zeros,
        pools: Pools {
            internal: inner,
            external: outer,
            reset: false,
        },
        window: 8,
    };
    let ready = lent.prepare().pools;
    let patch = Patch {
        count: 1,
        stages: [sawtooth(); 32],
    };
    let ran = run(
        patch,
        &[0],
        ready,
        new_states(),
        8,
        0.125,
        internal,
        none,
        zeros,
        &mut [],
        &[],
    );
    ran.answer.is_ok()
}

// The lent samples do not begin as zeros: the new pool is to make them so.
fn main(rt: HostRuntime) {
    let stdout = rt.stdout();
    let mut internal = [1.0; 8];
    let mut none = [0.0; 0];
    let zeros = [0.0; 8];
    if !render(&mut internal, &mut none, &zeros) {
        return;
    }
    let _ = println!(stdout; "internal 0 window 8");
    write_samples(stdout, &internal);
}
