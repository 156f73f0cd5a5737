//! What the program is asked to do.

use debug_records::{Mode, PassName};

/// Compile a source, save its image, and debug it by a script.
#[derive(Drop)]
pub struct Debug {
    /// The passes, in the order in which they are applied.
    pub passes: Vec<PassName>,
    pub mode: Mode,
    /// How many instructions are executed at most.
    pub limit: u32,
    /// The names of the texts.
    pub source: String,
    pub script: String,
    pub input: String,
    /// The name under which the image is saved.
    pub image: String,
}

/// Compile a source and save its image.
#[derive(Drop)]
pub struct Compile {
    /// The passes, in the order in which they are applied.
    pub passes: Vec<PassName>,
    pub mode: Mode,
    pub source: String,
    /// The name under which the image is saved.
    pub image: String,
}

/// Debug a saved image by a script.
#[derive(Drop)]
pub struct Attach {
    /// How many instructions are executed at most.
    pub limit: u32,
    pub image: String,
    pub script: String,
    pub input: String,
}

/// List the changes that the passes make in a source.
#[derive(Drop)]
pub struct Passes {
    /// The passes, in the order in which they are applied.
    pub passes: Vec<PassName>,
    pub source: String,
}

/// Compile and run a generated program, and count what can be shown.
#[derive(Clone, Copy)]
pub struct Sweep {
    /// What the generator begins with.
    pub seed: u32,
    /// How large the program is, 1 to 400.
    pub size: u32,
}

/// What the program is asked to do.
#[derive(Drop)]
pub enum Job {
    Debug(Debug),
    Compile(Compile),
    Attach(Attach),
    Passes(Passes),
    Sweep(Sweep),
}
