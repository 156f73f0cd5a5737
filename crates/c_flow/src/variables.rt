//! The numbers of variables among all of a program.

ghost use Rattle.std.specs.Prelude.{◌≡◌};
ghost use Rattle.c_tree.specs.declared.object_type.Object.TheVariants.{Automatic};
ghost use Rattle.c_tree.specs.Programs.{program_view};
ghost use Rattle.c_flow.specs.Assigns.{variable_number};
ghost use Rattle.c_flow.specs.Tables.{FewVariables};

use c_tree::{Object, Program};

/// The number of an automatic variable, if the program has it.
pub fn automatic_number(program: &Program, variable: usize) -> Option<u32>
    requires { FewVariables (program_view program.now) }
    ensures { result ≡ variable_number (program_view program.now) (Automatic variable) }
{
    if variable < program.automatics.len() {
        let behind = program.statics.len() + program.literals.len();
        Some((behind + variable) as u32)
    } else {
        None
    }
}

/// The number of an object's variable, if the program has it.
pub fn variable_number(program: &Program, object: Object) -> Option<u32>
    requires { FewVariables (program_view program.now) }
    ensures { result ≡ variable_number (program_view program.now) object }
{
    match object {
        Object::Static(x) => {
            if (x as usize) < program.statics.len() {
                Some(x)
            } else {
                None
            }
        }
        Object::Literal(x) => {
            if (x as usize) < program.literals.len() {
                Some((program.statics.len() + x as usize) as u32)
            } else {
                None
            }
        }
        Object::Automatic(x) => automatic_number(program, x as usize),
    }
}
