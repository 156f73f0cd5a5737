//! The lines that say how a run ended.

ghost use Rattle.std.specs.Prelude.{◌≡◌, IfOk};
ghost use Rattle.line_form.specs.Lines.{depth_line, exit_line, fault_line, limit_line};

use std::alloc::{AllocError, Global};

/// `exit VALUE`: the program ended with this value. `AllocError` where memory for the text was refused, as for each of
/// these lines.
#[tactic(auto, unfolding(crate::specs::Lines::exit_line))]
pub fn exit_line(alloc: Global, value: i32) -> Result<Vec<u8>, AllocError>
    ensures { IfOk result (λ text. text.items ≡ exit_line value) }
{
    Ok(format!(in alloc; "exit {value}")?.into_bytes())
}

/// `depth`: a call found too many activations.
#[tactic(auto, unfolding(crate::specs::Lines::depth_line))]
pub fn depth_line(alloc: Global) -> Result<Vec<u8>, AllocError>
    ensures { IfOk result (λ text. text.items ≡ depth_line) }
{
    Vec::from_slice(alloc, b"depth")
}

/// `fault 0xADDRESS`: the machine could not go on. The address has eight digits.
#[tactic(auto, using(crate::proofs::HexadecimalLemmas::padded_hexadecimal), unfolding(crate::specs::Lines::fault_line))]
pub fn fault_line(alloc: Global, address: u32) -> Result<Vec<u8>, AllocError>
    ensures { IfOk result (λ text. text.items ≡ fault_line address) }
{
    Ok(format!(in alloc; "fault 0x{address:08x}")?.into_bytes())
}

/// `limit COUNT`: the run stood still after so many instructions.
#[tactic(auto, unfolding(crate::specs::Lines::limit_line))]
pub fn limit_line(alloc: Global, count: u64) -> Result<Vec<u8>, AllocError>
    ensures { IfOk result (λ text. text.items ≡ limit_line count) }
{
    Ok(format!(in alloc; "limit {count}")?.into_bytes())
}
