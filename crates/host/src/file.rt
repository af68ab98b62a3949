// A patch file, read into the patch that the run takes. Rests on `files`.
ghost use Rattle.std.specs.Prelude.{◌≡◌};
ghost use Rattle.files.specs.Fault.{in_numbers};
ghost use Rattle.files.specs.File.{read_of};
ghost use Rattle.host.specs.Host.{read_patch_of};

use files::fault::Fault;
use files::patch::{empty, read_patch};
use flat::patch::FlatPatch;

// 0, 0 and the patch; or a refusal's number, the offset where what is at fault begins, and the empty patch.
// Stays: the C interface, grynnadot_read_patch, has a refusal's number beside the patch.
#[repr(C)]
#[derive(Clone, Copy)]
pub struct ReadPatch {
    pub number: usize,
    pub offset: usize,
    pub patch: FlatPatch,
}

impl From<Result<FlatPatch, Fault>> for ReadPatch {
    ghost from_gives = { λ read flat. flat ≡ read_patch_of (in_numbers read) };

    fn from(read: Result<FlatPatch, Fault>) -> ReadPatch {
        match read {
            Ok(patch) => ReadPatch {
                number: 0,
                offset: 0,
                patch,
            },
            Err(fault) => ReadPatch {
                number: fault.reason.into(),
                offset: fault.offset,
                patch: empty(),
            },
        }
    }
}

// The patch that a file says; or why it was refused, the offset of what is at fault, and the empty patch.
#[unsafe(no_mangle)]
pub extern "C" fn grynnadot_read_patch(bytes: &[u8]) -> ReadPatch
    ensures { result ≡ read_patch_of (read_of bytes.now) }
{
    read_patch(bytes).into()
}
