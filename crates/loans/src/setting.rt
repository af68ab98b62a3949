// What the host does with the external buffers before a window: it leaves one as it is, marks it stale, or stores samples in it. Rests on
// `stream` for the samples; the engine is not asked.
ghost use Rattle.stream.specs.Place.{Kept};

use magnetron::pool::Pools;
use stream::place::Place;

#[derive(Clone, Copy, PartialEq, Eq)]
enum Setting {
    Leave,
    MarkStale,
    Store,
}

// A number that is no setting's.
#[derive(Clone, Copy, PartialEq, Eq)]
struct UnknownSetting;

impl TryFrom<u64> for Setting {
    type Error = UnknownSetting;

    fn try_from(number: u64) -> Result<Self, UnknownSetting> {
        match number {
            0 => Ok(Setting::Leave),
            1 => Ok(Setting::MarkStale),
            2 => Ok(Setting::Store),
            _ => Err(UnknownSetting),
        }
    }
}

// One setting for each external buffer, of which there are at most 16.
pub fn set_all(place: &mut Place, pools: &mut Pools, n: usize, external: &mut [f64])
    ensures { Kept place.old place.new }
{
    let count = pools.external.count;
    let capacity = pools.external.capacity;
    if 16 < count {
        return place.refuse();
    }
    for (k, stale) in pools.external.stale.iter_mut().take(count).enumerate() {
        match read_setting(place) {
            Setting::Leave => {}
            Setting::MarkStale => *stale = true,
            Setting::Store => {
                store(place, external, k.saturating_mul(capacity), n);
                *stale = false;
            }
        }
    }
}

// One that has no meaning is refused, and leaves the buffer as it is.
fn read_setting(place: &mut Place) -> Setting
    ensures { Kept place.old place.new }
{
    let setting = Setting::try_from(place.next());
    place.refuse_if(setting.is_err());
    setting.unwrap_or(Setting::Leave)
}

// Stores n samples from an index on; where they would not fit, the case is refused.
fn store(place: &mut Place, external: &mut [f64], from: usize, n: usize)
    ensures { Kept place.old place.new }
{
    let end = from.saturating_add(n);
    match external.get_mut(from..end) {
        Some(samples) => place.read_samples(samples),
        None => place.refuse(),
    }
}
