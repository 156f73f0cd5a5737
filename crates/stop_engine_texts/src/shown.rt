//! What is shown of a name.

ghost use Rattle.std.specs.Prelude.{◌≡◌, [], IfOk, option_map, unwrap_or};
ghost use Rattle.places.specs.Path.{numbers, places};
ghost use Rattle.stop_engine_texts.specs.Sight.{sight_line, sight_of};

use debug_records::Place;
use line_form::{
    no_stop_line, noncurrent_line, nonresident_line, nothing_here_line, recovered_line,
    suspect_line, value_line,
};
use places::Path;
use std::alloc::{AllocError, Global};

/// What is shown of a name where a session stands. Values and changes are texts; a change's has its number, its pass,
/// its kind and its place.
#[derive(Drop)]
pub enum Shown {
    /// It stands at no stop.
    NoStop,
    /// No variable of this name is visible at the place.
    NoName,
    /// The value of the variable.
    Value(Vec<u8>),
    /// The value, computed anew, and the change that took it away.
    Recovered {
        value: Vec<u8>,
        change: Vec<u8>,
    },
    /// The variable's home has not the variable's value: the change that made it so, and the path that shows it, if
    /// there is one.
    Noncurrent {
        change: Vec<u8>,
        path: Option<Path>,
    },
    /// The variable's home has another's value: the change that made it so, and the path that shows it, if there is
    /// one.
    Nonresident {
        change: Vec<u8>,
        path: Option<Path>,
    },
    /// The variable's home may have its value or not: the change that may have made it so, the path that shows it, and
    /// the one on which nothing disturbs the home, if there are such.
    Suspect {
        change: Vec<u8>,
        path: Option<Path>,
        current: Option<Path>,
    },
}

/// The places of a path, and none where there is no path.
fn path_places(path: &Option<Path>) -> &[Place]
    ensures { numbers result.now ≡ unwrap_or (option_map (λ p. places p) path.now) [] }
{
    match path {
        Some(path) => &path.places,
        None => &[],
    }
}

/// The line that says what is shown of a name. `AllocError` where memory for it was refused.
pub fn shown_line(alloc: Global, name: &[u8], shown: &Shown) -> Result<Vec<u8>, AllocError>
    ensures { IfOk result (λ line. line.items ≡ sight_line name.now (sight_of shown.now)) }
{
    match shown {
        Shown::NoStop => Ok(no_stop_line(alloc)?),
        Shown::NoName => Ok(nothing_here_line(alloc, name)?),
        Shown::Value(value) => Ok(value_line(alloc, name, value)?),
        Shown::Recovered { value, change } => Ok(recovered_line(alloc, name, value, change)?),
        Shown::Noncurrent { change, path } => {
            Ok(noncurrent_line(alloc, name, change, path_places(path))?)
        }
        Shown::Nonresident { change, path } => {
            Ok(nonresident_line(alloc, name, change, path_places(path))?)
        }
        Shown::Suspect {
            change,
            path,
            current,
        } => {
            let (path, current) = (path_places(path), path_places(current));
            Ok(suspect_line(alloc, name, change, path, current)?)
        }
    }
}
