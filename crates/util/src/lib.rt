// Rings and their parts: the delay line, the interactions, and the comb and the all-pass made of them.
#![tactic(auto)]

pub mod all_pass;
pub mod answered;
pub mod comb_filter;
pub mod delay_line;
pub mod interaction;
pub mod lent;
pub mod low_pass;
mod place;
pub mod reach;
mod reading;
mod ring_filter;
pub mod soft_clip;
pub mod step;
