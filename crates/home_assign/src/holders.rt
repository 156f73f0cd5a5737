//! Which names have which registers.

ghost use Rattle.std.specs.Prelude.{◌≡◌, ◌<◌, ◌≤◌, ◌++◌, ◌∷◌, ℕ, [], List, IfOk, OnOk, length, slice_get};
ghost use Rattle.graph_homes.specs.declared.home.Home.TheVariants.{Register};
ghost use Rattle.home_assign.specs.Holders.{AreHolders};

use graph_homes::Home;
use std::alloc::{AllocError, Global};

/// No names for each register.
fn no_holders(alloc: Global) -> Result<Vec<Vec<u32>>, AllocError>
    ensures { IfOk result (λ holders. AreHolders [] 32 holders.items) }
{
    let mut holders = Vec::new(alloc);
    for _register in 0..32usize {
        holders.push(Vec::new(alloc))?;
    }
    Ok(holders)
}

/// A further name has a home.
fn add_holder(holders: &mut [Vec<u32>], home: Home, name: u32) -> Result<(), AllocError>
    requires { (r : ℕ) → home ≡ Register r → r < length holders.old }
    ensures { OnOk result
        ((homes : List Home) → name ≡ length homes → AreHolders homes (length holders.old) holders.old
        → AreHolders (homes ++ home ∷ []) (length holders.old) holders.new) }
{
    if let Home::Register(register) = home {
        holders[register as usize].push(name)?;
    }
    Ok(())
}

/// For each register the names whose home it is, in order.
pub(crate) fn holders_of(alloc: Global, homes: &[Home]) -> Result<Vec<Vec<u32>>, AllocError>
    requires few { length homes.now ≤ 3000 }
    requires registers { (x r : ℕ) → slice_get homes.now x ≡ Some (Register r) → r < 32 }
    ensures { IfOk result (λ holders. AreHolders homes.now 32 holders.items) }
{
    let mut holders = no_holders(alloc)?;
    for (name, home) in homes.iter().enumerate() {
        add_holder(&mut holders, *home, name as u32)?;
    }
    Ok(holders)
}
