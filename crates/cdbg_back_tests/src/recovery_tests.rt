//! One recipe over a slot, worked by hand: a call of each function.

use recovery::{FrameHome, PlacedRecipe, home_value, slot_value, value};
use std::test::Fail;
use word_base::{Operation, Truncation};

#[test]
fn a_recipe_is_computed_from_its_homes(rt: HostRuntime) -> Result<(), Fail> {
    let mut registers = [0u32; 32];
    registers[9] = 5;
    let ram = [7u8, 0, 0, 0, 1];
    assert!(rt; home_value(&registers, &ram, FrameHome::Register(9)) == 5);
    assert!(rt; slot_value(&ram, 1) == 0x0100_0000);
    let slot = Box::new(rt.alloc(), PlacedRecipe::Home(FrameHome::Slot(0)))?;
    let nine = Box::new(rt.alloc(), PlacedRecipe::Constant(9))?;
    let difference = Box::new(
        rt.alloc(),
        PlacedRecipe::Operated(Operation::Sub, slot, nine),
    )?;
    let recipe = PlacedRecipe::Truncated(Truncation::Unsigned8, difference);
    assert!(rt; value(&recipe, &registers, &ram) == 254);
    Ok(())
}
