//! How far the check of a source has come.
#![tactic(auto, using(crate::proofs::Steps::next_means, crate::proofs::Steps::reached_means))]

ghost use Rattle.std.specs.Prelude.{◌≡◌, IfOk, OnOk};
ghost use Rattle.std.specs.Option.{option_map};
ghost use Rattle.c_tree.specs.Expressions.{expression_view};
ghost use Rattle.c_type_declarations.specs.Progress.{breaks, scope_left, declares, means, opened, progress_view, value_met};
ghost use Rattle.c_type_values.specs.Values.{value_view};

use crate::scope::{declare, declared_here, enter, leave};
use c_tree::{AutomaticVariable, Expression, Extent, StaticVariable, StringLiteral};
use c_type_expressions::{Findings, Meaning, Names, value};
use c_type_values::{Value, given};
use debug_records::Code;
use std::alloc::{AllocError, Global};

/// What is declared and what was found, as far as a source is checked.
#[derive(Drop)]
pub struct Progress {
    pub names: Names,
    pub found: Findings,
    /// The objects of static storage so far, by position.
    pub statics: Vec<StaticVariable>,
    /// The objects of automatic storage so far, by position.
    pub automatics: Vec<AutomaticVariable>,
    /// The string literals so far that initialise automatic arrays, by position.
    pub array_literals: Vec<StringLiteral>,
}

impl Progress {
    /// The value of an expression, if it breaks no rule.
    #[tactic(auto, unfolding(crate::specs::Progress::value_met))]
    pub fn value(&mut self, alloc: Global, e: &Expression) -> Result<Option<Value>, AllocError>
        ensures { IfOk result (λ v.
            means (option_map value_view v) (progress_view self.new) ≡ value_met (expression_view e.now)
            (progress_view self.old)) }
    {
        value(alloc, &self.names, &mut self.found, e)
    }

    /// Notes that a construct breaks a rule.
    pub fn fault(&mut self, code: Code, extent: Extent) -> Result<(), AllocError>
        ensures { OnOk result (progress_view self.new ≡ breaks code extent (progress_view self.old)) }
    {
        self.found.fault(code, extent.first, extent.last)
    }

    /// Declares a name in the innermost scope, where it may not be declared already.
    pub fn declare(
        &mut self,
        alloc: Global,
        extent: Extent,
        name: &str,
        meaning: Meaning,
    ) -> Result<(), AllocError>
        ensures { OnOk result (progress_view self.new ≡ declares extent name.now meaning (progress_view self.old)) }
    {
        if declared_here(&self.names, name).is_some() {
            given!(self.fault(Code::REDECLARED, extent));
        }
        declare(alloc, &mut self.names, name, meaning)
    }

    /// Begins a scope.
    pub fn open(&mut self, alloc: Global) -> Result<(), AllocError>
        ensures { OnOk result (progress_view self.new ≡ opened (progress_view self.old)) }
    {
        enter(alloc, &mut self.names)
    }

    /// Ends the innermost scope.
    pub fn close(&mut self)
        ensures { progress_view self.new ≡ scope_left (progress_view self.old) }
    {
        leave(&mut self.names);
    }
}
