// A patch as plain numbers, the way a host in C, a file or a stream of tests has it, and the patch of stages that they name.
// What strings tell leaves in the same way. Whether buffers, sizes, slots and absences are good is for the run to judge.
#![tactic(auto)]

pub mod form;
pub mod patch;
pub mod reach;
pub mod stage;
