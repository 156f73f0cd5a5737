//! What is found while a source is checked.

ghost use Rattle.std.specs.Prelude.{◌≡◌, OnOk};
ghost use Rattle.c_type_expressions.specs.Findings.{faulted, findings_view, restored, with_literal, with_undefined};

use c_tree::StringLiteral;
use debug_records::{Code, Spot};
use std::alloc::{AllocError, Global};

/// A rule that a construct breaks.
#[derive(Clone, Copy)]
pub struct Fault {
    /// The offset of the construct's last token.
    pub last: u32,
    pub code: Code,
    /// Where the construct's first token stands.
    pub first: Spot,
}

/// What is found while a source is checked, in the order in which it is found.
#[derive(Drop)]
pub struct Findings {
    pub faults: Vec<Fault>,
    /// Where calls of functions that are never defined begin.
    pub undefined: Vec<Spot>,
    /// The string literals that are objects.
    pub literals: Vec<StringLiteral>,
}

impl Findings {
    /// Notes a fault of a construct.
    pub fn fault(&mut self, code: Code, first: Spot, last: u32) -> Result<(), AllocError>
        ensures { OnOk result (findings_view self.new ≡ faulted code first last (findings_view self.old)) }
    {
        self.faults.push(Fault { last, code, first })?;
        Ok(())
    }

    /// Notes a call of a function that is never defined.
    pub fn call_undefined(&mut self, first: Spot) -> Result<(), AllocError>
        ensures { OnOk result (findings_view self.new ≡ with_undefined first (findings_view self.old)) }
    {
        self.undefined.push(first)?;
        Ok(())
    }

    /// Notes a string literal that is an object, with a zero behind its bytes.
    pub fn literal(&mut self, alloc: Global, first: Spot, bytes: &[u8]) -> Result<(), AllocError>
        ensures { OnOk result (findings_view self.new ≡ with_literal first bytes.now (findings_view self.old)) }
    {
        let mut all = Vec::new(alloc);
        all.extend_from_slice(bytes)?;
        all.push(0)?;
        self.literals.push(StringLiteral {
            spot: first,
            bytes: all,
        })?;
        Ok(())
    }

    /// Forgets the calls and literals behind so many, as those of an operand that is not evaluated.
    pub fn forget(&mut self, undefined: usize, literals: usize)
        ensures { findings_view self.new ≡ restored undefined literals (findings_view self.old) }
    {
        self.undefined.truncate(undefined);
        self.literals.truncate(literals);
    }
}
