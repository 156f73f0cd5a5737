//! Blocks as they are placed one behind the other, each once.

ghost use Rattle.std.specs.Prelude.{◌≡◌, ◌<◌, ℕ, IfOk, OnOk, get_or, length, true};
ghost use Rattle.rv_emit_plan.specs.Orders.{placing_view, with_placed, ArePlaced, Grows};

use std::alloc::{AllocError, Global};

/// Blocks as they are placed.
#[derive(Drop)]
pub struct Placing {
    /// For each block whether it is placed.
    is_placed: Vec<bool>,
    /// Those that are, in order.
    pub order: Vec<u32>,
}

impl Placing {
    /// Block 0 alone, if there is one, of so many blocks.
    pub fn begin(alloc: Global, blocks: u32) -> Result<Placing, AllocError>
        ensures placed { IfOk result (λ p. ArePlaced (placing_view p)) }
        ensures count { IfOk result (λ p. length p.is_placed.items ≡ blocks) }
    {
        let mut placing = Placing {
            is_placed: vec![in alloc; false; blocks as usize]?,
            order: Vec::new(alloc),
        };
        placing.place(0)?;
        Ok(placing)
    }

    /// Places a block behind those that are placed, if there is such a block and it is not one of them.
    pub fn place(&mut self, block: u32) -> Result<(), AllocError>
        ensures exact { OnOk result (placing_view self.new ≡ with_placed block (placing_view self.old)) }
        ensures grown { OnOk result (Grows (placing_view self.old) (placing_view self.new)) }
        ensures there { OnOk result (get_or self.new.is_placed.items block true ≡ true) }
    {
        if let Some(false) = self.is_placed.get(block as usize) {
            self.is_placed[block as usize] = true;
            self.order.push(block)?;
        }
        Ok(())
    }

    /// Places the blocks that are not placed yet, of so many, by number.
    pub fn place_rest(&mut self, blocks: u32) -> Result<(), AllocError>
        ensures grown { OnOk result (Grows (placing_view self.old) (placing_view self.new)) }
        ensures all { OnOk result ((n : ℕ) → n < blocks → get_or self.new.is_placed.items n true ≡ true) }
    {
        for block in 0..blocks {
            self.place(block)?;
        }
        Ok(())
    }
}
