//! The commands of a script.

/// What `break` marks.
#[derive(PartialEq, Eq, Drop)]
pub enum Target {
    /// `break LINE`: all stops on this line of the source, counted from 1.
    Line(u32),
    /// `break NAME`: the first stop in the first function of this name.
    Function(String),
}

/// What a line of a script asks for.
#[derive(PartialEq, Eq, Drop)]
pub enum Command {
    /// `break LINE` or `break NAME`: mark stops.
    Break(Target),
    /// `step`: run to the next stop, into calls.
    Step,
    /// `continue`: run to the next marked stop.
    Continue,
    /// `next`: run to the next stop that is marked or no deeper than here, past calls.
    Next,
    /// `finish`: run to the next stop that is marked or less deep than here, out of the innermost function.
    Finish,
    /// `print NAME`: show the variable of this name.
    Print(String),
    /// `locals`: show all visible variables.
    Locals,
    /// `where`: list the frames, innermost first.
    Where,
    /// `quit`: end the session.
    Quit,
}
