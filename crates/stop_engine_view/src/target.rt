//! What a pointer points to.

/// What an address is taken for.
#[derive(Clone, Copy)]
pub enum Target {
    /// So many bytes behind the start of a static variable, by its number.
    Static {
        variable: u32,
        offset: u32,
    },
    /// So many bytes behind the start of a string literal; the first has number 1.
    Literal {
        number: u32,
        offset: u32,
    },
    /// So many bytes behind the start of a variable of the activation at a depth.
    Local {
        variable: u32,
        depth: u32,
        offset: u32,
    },
}
