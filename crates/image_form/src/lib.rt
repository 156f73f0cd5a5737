//! The image: machine code and the tables of its debugger in one file.
#![tactic(auto)]

mod format;
mod lent;
mod members;
mod name_lookup;
mod numbers;
mod reading;
mod recipes;
mod records;
mod tables;
mod variables;
mod verdicts;
mod writing;

pub use format::Image;
pub use image_form_sections::{ImageErr, Level, Version};
pub use lent::View;
pub use members::Member;
pub use numbers::{
    CallRecord, ChangeRecord, FunctionRecord, Header, MemberRecord, NodeRecord, PlaceRecord,
    RowRecord, VariableRecord,
};
pub use reading::{read, view};
pub use recipes::Node;
pub use tables::{AssignedPair, Change, FlowPair, Function, Place};
pub use variables::{ElementType, Storage, Variable};
pub use verdicts::{CallRow, Verdict, VisibleRow};
pub use writing::{spell, spelling_is_unique, write};
