//! Which of the variables in scope are visible, for the many scopes of a program.

ghost use Rattle.std.specs.Prelude.{◌≡◌, ℕ, ◌<◌, ◌≤◌, ◌^◌, true, false, IfOk, length, map};
ghost use Rattle.c_tree.specs.Programs.{automatic_view};
ghost use Rattle.c_places.specs.Places.{is_same_name, name_of, visible};
ghost use Rattle.c_flow.specs.Names.{AreClasses, IsFirstOfName, class_of};

use c_tree::AutomaticVariable;
use std::alloc::{AllocError, Global};

/// The name of an automatic variable; nothing where there is none of that number.
fn name_at(automatics: &[AutomaticVariable], variable: usize) -> &[u8]
    ensures { result.now ≡ name_of (map automatic_view automatics.now) variable }
{
    match automatics.get(variable) {
        None => &[],
        Some(found) => found.name.as_bytes(),
    }
}

/// Whether two variables have one name.
fn have_one_name(automatics: &[AutomaticVariable], one: usize, other: usize) -> bool
    ensures { result ≡ is_same_name (name_of (map automatic_view automatics.now) one)
        (name_of (map automatic_view automatics.now) other) }
{
    name_at(automatics, one) == name_at(automatics, other)
}

/// The first variable of the name of a variable.
fn first_of_name(automatics: &[AutomaticVariable], variable: usize) -> usize
    ensures { IsFirstOfName (map automatic_view automatics.now) variable result }
{
    for i in 0..variable {
        if have_one_name(automatics, i, variable) {
            return i;
        }
    }
    variable
}

/// The classes of automatic variables by their names, and behind them that of what is no variable.
pub fn name_classes(
    alloc: Global,
    automatics: &[AutomaticVariable],
) -> Result<Vec<usize>, AllocError>
    requires { length automatics.now < 2 ^ 32 }
    ensures { IfOk result (λ v. AreClasses (map automatic_view automatics.now) v.items) }
{
    let mut classes = Vec::new(alloc);
    for i in 0..automatics.len() + 1 {
        classes.push(first_of_name(automatics, i))?;
    }
    Ok(classes)
}

/// The class of a variable.
fn class_of(automatics: &[AutomaticVariable], classes: &[usize], variable: usize) -> usize
    requires { AreClasses (map automatic_view automatics.now) classes.now }
    ensures class { result ≡ class_of (length (map automatic_view automatics.now)) classes.now variable }
    ensures within { result < length classes.now }
{
    let place = if variable < automatics.len() {
        variable
    } else {
        automatics.len()
    };
    classes[place]
}

/// The variables of a scope that are not hidden.
pub fn visible_by_class(
    alloc: Global,
    automatics: &[AutomaticVariable],
    classes: &[usize],
    scope: &[usize],
) -> Result<Vec<usize>, AllocError>
    requires { AreClasses (map automatic_view automatics.now) classes.now }
    ensures { IfOk result (λ v. v.items ≡ visible (map automatic_view automatics.now) scope.now) }
{
    let mut seen = vec![in alloc; false; classes.len()]?;
    let mut found = Vec::new(alloc);
    for i in (0..scope.len()).rev() {
        let class = class_of(automatics, classes, scope[i]);
        if !seen[class] {
            seen[class] = true;
            found.push(scope[i])?;
        }
    }
    found.reverse();
    Ok(found)
}
