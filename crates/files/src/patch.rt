// A patch file, whole. Rests on `stage` for each of its stages, and on `flat` for the patch.
ghost use Rattle.std.specs.Prelude.{◌≡◌, [], ◌≤◌};
ghost use Rattle.files.specs.Fault.{in_numbers};
ghost use Rattle.files.specs.File.{patch_from, read_of};
ghost use Rattle.files.specs.Inside.{told, patch_of_stages};

use crate::fault::{Fault, FaultReason, fault_unless};
use crate::reading::Reading;
use flat::patch::{FlatPatch, no_flat};

// The patch that a file says, read once from its first byte on; or why it is refused.
pub fn read_patch(bytes: &[u8]) -> Result<FlatPatch, Fault>
    ensures { in_numbers result ≡ read_of bytes.now }
{
    let mut reading = Reading { bytes, offset: 0 };
    let version = reading.number()?;
    fault_unless(version == 1, FaultReason::OtherVersion, 0)?;
    let counted = reading.offset;
    let count = reading.number()?;
    fault_unless(count <= 32, FaultReason::TooManyStages, counted)?;
    let patch = reading.stages(count)?;
    let end = reading.offset;
    fault_unless(bytes.len() <= end, FaultReason::LeftOver, end)?;
    Ok(patch)
}

impl<'a> Reading<'a> {
    // As many stages as the count says, and zeros after them.
    fn stages(&mut self, count: usize) -> Result<FlatPatch, Fault>
        requires { count ≤ 32 }
        ensures said { told result self.new.offset ≡ patch_of_stages count self.old.bytes.now self.old.offset }
        ensures kept { self.new.bytes ≡ self.old.bytes }
    {
        let mut patch = empty();
        patch.count = count;
        for k in 0..count {
            patch.stages[k] = self.stage()?;
        }
        Ok(patch)
    }
}

// A patch of no stages: what stands where a file is refused.
pub fn empty() -> FlatPatch
    ensures { result ≡ patch_from [] }
{
    let none = no_flat();
    FlatPatch {
        count: 0,
        stages: [none; 32],
    }
}
