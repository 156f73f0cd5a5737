//! The lines of a transcript and the texts of a status.
#![tactic(auto)]

mod changes;
mod commands;
mod ending;
mod output;
mod shown;
mod status;
mod values;

pub use changes::{
    change_line, change_text, noncurrent_line, nonresident_line, recovered_line, suspect_line,
};
pub use commands::{
    break_line, frame_line, no_frame_line, no_function_line, no_locals_line, no_place_line,
};
pub use ending::{depth_line, exit_line, fault_line, limit_line};
pub use output::{end_line, out_line, out_lines};
pub use shown::{no_stop_line, nothing_here_line, stop_line, value_line};
pub use status::{Status, fault_text};
pub use values::{
    array_text, frame_pointer, literal_pointer, member_text, null_text, static_pointer,
    structure_text, unknown_pointer,
};
