// One step of what remembers: the next state, with the sample. Rests on nothing.
ghost use Rattle.std.specs.Prelude.{◌≡◌};

#[derive(Clone, Copy)]
pub struct Step<S> {
    pub next: S,
    pub sample: f64,
}

impl<S> Step<S> {
    // The same sample, with another state made of the next one.
    pub(crate) fn map<T, F: FnOnce(S) -> T>(self, to: F) -> Step<T>
        requires { F.pre to self.next }
        ensures made { F.post to self.next result.next }
        ensures sample { result.sample ≡ self.sample }
    {
        Step {
            next: to(self.next),
            sample: self.sample,
        }
    }
}
