//! The header and the records of an image as the numbers that they are spelled by, in the order of the file.

/// The numbers of a header behind its first four bytes.
#[derive(Clone, Copy)]
pub struct Header {
    /// The version of the format.
    pub version: u32,
    /// How many bytes the image has.
    pub length: u32,
    /// 0 where scalars are kept in slots, 1 where they are kept in registers.
    pub mode: u32,
    /// How many code words there are.
    pub code: u32,
    /// How many initial bytes there are.
    pub initial: u32,
    pub functions: u32,
    pub places: u32,
    pub variables: u32,
    pub changes: u32,
    /// How many flow pairs there are.
    pub flow: u32,
    /// How many assigned pairs there are.
    pub assigned: u32,
    /// How many visible rows there are.
    pub rows: u32,
    pub nodes: u32,
    /// How many bytes the names have.
    pub names: u32,
    /// 0.
    pub zero: u32,
    /// How many rows of calls there are, 0 where the version does not tell.
    pub calls: u32,
    /// How many members of structures there are, 0 where the version does not tell.
    pub members: u32,
}

/// The numbers of a function.
#[derive(Clone, Copy)]
pub struct FunctionRecord {
    pub name_length: u32,
    pub first: u32,
    pub end: u32,
    pub frame: u32,
    pub entry: u32,
    /// The mask of the registers that it saves, 0 where the version does not tell.
    pub saved: u32,
}

/// The numbers of a place.
#[derive(Clone, Copy)]
pub struct PlaceRecord {
    pub position: u32,
    pub line: u32,
    pub function: u32,
    pub address: u32,
}

/// The numbers of a variable.
#[derive(Clone, Copy)]
pub struct VariableRecord {
    pub name_length: u32,
    /// The number of its function, or the greatest number for a static one.
    pub function: u32,
    pub position: u32,
    pub element: u32,
    pub storage: u32,
    pub value: u32,
    pub count: u32,
    /// 0.
    pub zero: u32,
}

/// The numbers of a change.
#[derive(Clone, Copy)]
pub struct ChangeRecord {
    pub pass_length: u32,
    pub kind: u32,
    pub place: u32,
    pub variable: u32,
    /// 0.
    pub zero: u32,
}

/// The numbers of a visible row.
#[derive(Clone, Copy)]
pub struct RowRecord {
    pub place: u32,
    pub variable: u32,
    pub verdict: u32,
    pub change: u32,
    /// The node of a recipe, or the start place of a path.
    pub a: u32,
    /// The address of the code word that wrote, or 0.
    pub b: u32,
    /// The place at which a quiet path begins, or 0.
    pub c: u32,
}

/// The numbers of a row of a call.
#[derive(Clone, Copy)]
pub struct CallRecord {
    /// The address to which the call returns.
    pub address: u32,
    pub variable: u32,
    pub verdict: u32,
    pub change: u32,
    /// The node of a recipe, or the start place of a path.
    pub a: u32,
    /// The address of the code word that wrote, or 0.
    pub b: u32,
    /// The form of the path.
    pub d: u32,
}

/// The numbers of a member of a structure.
#[derive(Clone, Copy)]
pub struct MemberRecord {
    pub structure: u32,
    pub name_length: u32,
    pub offset: u32,
    pub element: u32,
    pub count: u32,
}

/// The numbers of a node.
#[derive(Clone, Copy)]
pub struct NodeRecord {
    pub op: u32,
    pub a: u32,
    pub b: u32,
}
