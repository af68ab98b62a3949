// A patch as a file: bytes in, a patch of plain numbers out, or a refusal with the offset of what is at fault.
// Rests on `flat` for the patch and for what a kind is made of, and on `words` for eight bytes.
#![tactic(auto)]

pub mod fault;
mod parameter;
pub mod patch;
mod reading;
mod stage;
