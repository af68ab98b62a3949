// What a run is given: the patch, the records and its window by value, and the slices that are lent.
use magnetron::pool::Pools;
use stages::patch::Patch;
use stages::state::States;
use stages::window::RenderWindow;

#[derive(Clone, Copy)]
pub(crate) struct Records {
    pub patch: Patch,
    pub pools: Pools,
    pub states: States,
    pub window: RenderWindow,
}

// The order and the lent slices, as they are before the first sample: what the checks look at.
#[derive(Clone, Copy)]
pub(crate) struct Lent<'a> {
    pub order: &'a [u8],
    pub internal: &'a [f64],
    pub external: &'a [f64],
    pub zeros: &'a [f64],
    pub rings: &'a [f64],
    pub values: &'a [f64],
}
