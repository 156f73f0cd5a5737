//! Instructions of RV32IM and the words that spell them.
#![tactic(auto)]

mod decoding;
mod encoding;
mod instruction;
mod law;
mod opcode;
mod operation;

pub use decoding::decode;
pub use encoding::encode;
pub use instruction::{
    BranchOperation, ImmediateOperation, Instruction, LoadOperation, RegisterOperation,
    StoreOperation,
};
pub use law::{decoding_undoes_encoding, encoding_undoes_decoding};
