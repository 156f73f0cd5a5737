//! What the passes changed, numbered.

ghost use Rattle.std.specs.Prelude.{◌≡◌, ◌<◌, IfSome, MatchOption, length, true};
ghost use Rattle.std.specs.List.{list_all};
ghost use Rattle.debug_records.specs.Change.{is_lower_case, is_taken, IsPassName, letters, pass_name};

/// A place of the source: a point where a debugger may stop, or a function's entry. Places are numbered from 1 in text
/// order.
#[derive(Clone, Copy, Default, PartialEq, Eq, PartialOrd, Ord)]
pub struct Place(pub u32);

/// A variable of the program, by its number from 0: the named static ones, then literals, then automatic ones, each by
/// position.
#[derive(Clone, Copy, Default, PartialEq, Eq, PartialOrd, Ord)]
pub struct Var(pub u32);

/// How many letters the name of a pass has at most.
pub const PASS_NAME_SIZE: usize = 16;

/// The name of a pass: 1 to 16 lower-case letters.
#[derive(Clone, Copy, PartialEq, Eq)]
pub struct PassName {
    // the letters, and zeros behind them
    padded: [u8; 16],
    // how many letters there are
    length: u8,
}

/// A lower-case letter.
fn is_lower_case(byte: u8) -> bool
    ensures { result ≡ is_lower_case byte }
{
    b'a' <= byte && byte <= b'z'
}

fn are_lower_case(bytes: &[u8]) -> bool
    ensures { result ≡ list_all is_lower_case bytes.now }
{
    bytes.iter().all(|byte| is_lower_case(*byte))
}

impl PassName {
    /// The name of these letters. None exactly where they are not 1 to 16 lower-case letters.
    pub fn of(bytes: &[u8]) -> Option<PassName>
        ensures letters { MatchOption result (IsPassName bytes.now → ⊥)
            (λ name. IsPassName bytes.now × (letters name ≡ bytes.now)) }
        ensures whole { IfSome result (λ name. name ≡ pass_name bytes.now) }
    {
        if bytes.is_empty() || bytes.len() > PASS_NAME_SIZE {
            return None;
        }
        if !are_lower_case(bytes) {
            return None;
        }
        let mut padded = [0u8; 16];
        padded[..bytes.len()].copy_from_slice(bytes);
        Some(PassName {
            padded,
            length: bytes.len() as u8,
        })
    }

    /// The letters of the name.
    pub fn letters(&self) -> &[u8]
        ensures { result.now ≡ letters self.entry.now }
    {
        &self.padded[..(self.length as usize).min(PASS_NAME_SIZE)]
    }
}

/// What a pass did to an assignment or a read.
#[derive(Clone, Copy, PartialEq, Eq)]
pub enum Kind {
    /// An assignment went.
    Removed,
    /// The computation of an assignment's value moved elsewhere.
    Moved,
    /// A variable's register was given to another name too.
    Reused,
    /// A variable is read in place of another one.
    Replaced,
    /// An assignment went to where its value is still wanted.
    Sunk,
}

impl Kind {
    /// Whether the assignment went from its place.
    pub fn is_taken(self) -> bool
        ensures { result ≡ is_taken self }
    {
        match self {
            Kind::Removed | Kind::Sunk => true,
            Kind::Moved | Kind::Reused | Kind::Replaced => false,
        }
    }
}

/// A change that a pass made.
#[derive(Clone, Copy, PartialEq, Eq)]
pub struct Change {
    /// Its number, from 1 in the order of the changes.
    pub number: u32,
    pub pass: PassName,
    pub kind: Kind,
    /// The place that it was made at.
    pub place: Place,
    /// The variable that it concerns.
    pub var: Var,
}
