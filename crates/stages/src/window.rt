// The window as a stage sees it. Rests on nothing.
ghost use Rattle.std.specs.Prelude.{◌≡◌};
ghost use Rattle.stages.specs.Stage.{window_of};

// How many samples, how wide each, how long all of them.
#[derive(Clone, Copy)]
pub struct RenderWindow {
    pub buffer_len: usize,
    pub sample_width_secs: f64,
    pub render_window_secs: f64,
}

// A window of n samples, each `width` seconds wide.
pub fn render_window(n: usize, width: f64) -> RenderWindow
    ensures { result ≡ window_of n width }
{
    RenderWindow {
        buffer_len: n,
        sample_width_secs: width,
        render_window_secs: width * std::num::nearest_u64_to_f64(n as u64),
    }
}
