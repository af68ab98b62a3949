// The sorts of cases, by the number that each begins with. Of those that `operations` answers the number goes on to it. Rests on nothing.
#[derive(Clone, Copy, PartialEq, Eq)]
pub(crate) enum Sort {
    Session,
    Functions,
    Device(u64),
    Pools(u64),
    PatchFile,
}

// A number that is no sort's.
#[derive(Clone, Copy, PartialEq, Eq)]
pub(crate) struct UnknownSort;

impl TryFrom<u64> for Sort {
    type Error = UnknownSort;

    fn try_from(number: u64) -> Result<Self, UnknownSort> {
        match number {
            1 => Ok(Sort::Session),
            2 => Ok(Sort::Functions),
            3..=7 => Ok(Sort::Device(number)),
            8 | 9 => Ok(Sort::Pools(number)),
            10 => Ok(Sort::PatchFile),
            _ => Err(UnknownSort),
        }
    }
}
