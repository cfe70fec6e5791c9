// What a C program calls: numbers and slices alone. host/opening.h says the same in C.
#![tactic(auto)]

mod reads;
mod widths;
mod writes;

pub use reads::opening_read;
pub use widths::opening_width;
pub use writes::{opening_add_summary, opening_add_update, opening_frame_size, opening_start};
