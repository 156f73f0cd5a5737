//! Labels before a statement.
#![tactic(auto, using(c_type_declarations::proofs::Steps::next_means, c_type_declarations::proofs::Steps::reached_means))]

ghost use Rattle.std.specs.Prelude.{◌≡◌, OnOk, map};
ghost use Rattle.c_tree.specs.Statements.{label_view};
ghost use Rattle.c_type_declarations.specs.Progress.{means, next_met, progress_view};
ghost use Rattle.c_type_statements.specs.Chains.{labels_met, misplaced};
ghost use Rattle.c_type_statements.specs.Switches.{behind, label_met, labels_view, misplaced_one, part_view, so_far};

use crate::part::Part;
use crate::switch::{Labels, case, default};
use c_tree::{IntegerType, Label};
use c_type_declarations::{Progress, look_at_expression};
use c_type_values::given;
use debug_records::Code;
use std::alloc::{AllocError, Global};

/// Looks at a label out of place.
fn misplaced_one(alloc: Global, progress: &mut Progress, label: &Label) -> Result<(), AllocError>
    ensures { OnOk result
        (progress_view progress.new ≡ misplaced_one (label_view label.now) (progress_view progress.old)) }
{
    match label {
        Label::Case { extent, value } => {
            given!(progress.fault(Code::MISPLACED_JUMP, *extent));
            look_at_expression(alloc, progress, value)
        }
        Label::Default(extent) => progress.fault(Code::MISPLACED_JUMP, *extent),
    }
}

/// Looks at labels out of place: they stand outside a `switch`, or deeper in its block.
pub fn misplaced(alloc: Global, progress: &mut Progress, labels: &[Label]) -> Result<(), AllocError>
    ensures { OnOk result
        (progress_view progress.new ≡ misplaced (map label_view labels.now) (progress_view progress.old)) }
{
    for label in labels {
        given!(misplaced_one(alloc, progress, label));
    }
    Ok(())
}

/// A label directly in the block of a `switch`.
fn labeled(
    alloc: Global,
    progress: &mut Progress,
    kind: Option<IntegerType>,
    labels: &mut Labels,
    parts: &mut Vec<Part>,
    label: &Label,
) -> Result<(), AllocError>
    ensures { OnOk result
        (means (so_far parts.new.items labels.new) (progress_view progress.new) ≡ next_met
        (label_met kind (label_view label.now) (labels_view labels.old) (progress_view progress.old))
        (behind (map part_view parts.old.items))) }
{
    match label {
        Label::Case { extent, value } => {
            case(alloc, progress, labels, parts, kind, *extent, value)
        }
        Label::Default(extent) => default(progress, labels, parts, *extent),
    }
}

/// Labels directly in the block of a `switch`.
pub fn all_labels(
    alloc: Global,
    progress: &mut Progress,
    kind: Option<IntegerType>,
    known: &mut Labels,
    parts: &mut Vec<Part>,
    all: &[Label],
) -> Result<(), AllocError>
    ensures { OnOk result
        (means (so_far parts.new.items known.new) (progress_view progress.new) ≡ next_met
        (labels_met kind (map label_view all.now) (labels_view known.old) (progress_view progress.old))
        (behind (map part_view parts.old.items))) }
{
    for label in all {
        labeled(alloc, progress, kind, known, parts, label)?;
    }
    Ok(())
}
