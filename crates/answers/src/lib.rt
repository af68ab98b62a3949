// What calls answer, and silence: refusals with their reasons, a stage's activity, and zeros in a lent slice. Rests on `numbers` for the zero and on
// `order` for checks in sequence.
#![tactic(auto)]

pub mod activity;
pub mod refusal;
pub mod zeros;
