// Why a patch file is refused, and where. Rests on nothing.
ghost use Rattle.std.specs.Prelude.{◌≡◌};
ghost use Rattle.files.specs.Fault.{fault_number, unless};

// In the sequence of their numbers, 20 to 25.
#[derive(Clone, Copy, PartialEq, Eq)]
pub enum FaultReason {
    // The bytes end inside a number or inside eight bytes, or where one of these would begin.
    EndsEarly = 20,
    // The version is not 1.
    OtherVersion = 21,
    // No kind, choice or parameter mark has that number.
    Unknown = 22,
    // A number is too large, or has more than five bytes.
    TooLarge = 23,
    // Bytes follow the last stage.
    LeftOver = 24,
    // There are more than 32 stages.
    TooManyStages = 25,
}

// Its number in document 02.
impl From<FaultReason> for usize {
    ghost from_gives = { λ reason n. n ≡ fault_number reason };

    fn from(reason: FaultReason) -> usize {
        reason as usize
    }
}

// The reason, and the offset where the number, the eight bytes or the leftover at fault begins.
#[derive(Clone, Copy, PartialEq, Eq)]
pub struct Fault {
    pub reason: FaultReason,
    pub offset: usize,
}

impl FaultReason {
    // A fault for this reason, of what begins at `offset`.
    pub(crate) fn at(self, offset: usize) -> Fault
        ensures { result ≡ record { reason = self; offset = offset } }
    {
        Fault {
            reason: self,
            offset,
        }
    }
}

// A fault for this reason, of what begins at `offset`, where the test fails.
pub(crate) fn fault_unless(passed: bool, reason: FaultReason, offset: usize) -> Result<(), Fault>
    ensures { result ≡ unless passed reason offset }
{
    if passed {
        Ok(())
    } else {
        Err(reason.at(offset))
    }
}
