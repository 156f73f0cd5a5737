//! The sections of bytes whose header and records keep their rules.

ghost use Rattle.std.specs.Prelude.{◌≡◌, ◌+◌, ◌<◌, ◌≤◌, ◌^◌, IfOk, IfSome, OnOk, Ok, length};
ghost use Rattle.image_form_sections.specs.Breaches.{Gives, breach_in, first_breach};
ghost use Rattle.image_form_sections.specs.Checking.{breach_of_program, breach_of_tables, checked_of, count_checks, header_checks, size_told};
ghost use Rattle.image_form_sections.specs.Layouts.{sections_in};
ghost use Rattle.image_form_sections.specs.Order.{record_size, section_start};
ghost use Rattle.image_form_sections.specs.Sections.{section_records, sections_at};
ghost use Rattle.image_form_sections.specs.Versions.{level_of};
ghost use Rattle.image_form_sections.specs.declared.section.Section.TheVariants.{Names};

use crate::change_rules::{AssignedRule, ChangeRule, FlowRule, VisibleRule};
use crate::code_rules::{FunctionRule, OwnerRule, PlaceRule, first_places};
use crate::fault::ImageErr;
use crate::header::{HEADER_SIZE, check_header};
use crate::layout::{Layout, layout_of};
use crate::name_rules::first_misfit;
use crate::node_rules::{NodeRule, first_nodes};
use crate::quiet_rules::quiet_places;
use crate::rule::first_fault;
use crate::section::{Counts, Section, start};
use crate::variable_rules::VariableRule;
use debug_records::Code;
use std::alloc::Global;

/// The sections of bytes that spell an image. Other bytes are refused for the first rule that they break.
#[tactic(auto, unfolding(crate::specs::Checking::checked_of))]
pub fn checked(alloc: Global, bytes: &[u8]) -> Result<Layout<'_>, ImageErr>
    ensures exact { Gives sections_in result (checked_of bytes.now) }
    ensures sections { IfOk result (λ layout. sections_in layout ≡ sections_at bytes.now) }
{
    if bytes.len() < HEADER_SIZE {
        return Err(ImageErr::Refused(Code::HEADER_SIZE, bytes.len()));
    }
    check_header(bytes)?;
    let layout = layout_of(bytes);
    check_program(alloc, &layout)?;
    check_tables(alloc, &layout)?;
    Ok(layout)
}

/// The breach at a row of a section and one of its numbers.
fn breach(
    code: Code,
    layout: &Layout<'_>,
    section: Section,
    broken: Option<(usize, usize)>,
) -> Result<(), ImageErr>
    requires start { section_start (level_of layout.now.version) (section_records (sections_in layout.now)) section < 2 ^ 63 }
    requires broken { IfSome broken (λ b. (b.0 < 2 ^ 32) × (b.1 < 8)) }
    ensures { let level = level_of layout.now.version in let at = section_start level (section_records (sections_in layout.now))
        section in
        Gives (λ _. tt) result (breach_in code at (record_size level section) broken) }
{
    match broken {
        Some((row, field)) => {
            let at = start(layout, section) + section.record_size(layout.level()) * row + 4 * field;
            Err(ImageErr::Refused(code, at))
        }
        None => Ok(()),
    }
}

#[tactic(auto, unfolding(crate::specs::Checking::breach_of_program))]
fn check_program(alloc: Global, layout: &Layout<'_>) -> Result<(), ImageErr>
    requires { section_start (level_of layout.now.version) (section_records (sections_in layout.now)) Names < 2 ^ 63 }
    ensures { Gives (λ _. tt) result (breach_of_program (sections_in layout.now)) }
{
    let broken = first_fault(&FunctionRule { layout }, layout.functions.len());
    breach(Code::FUNCTIONS, layout, Section::Functions, broken)?;
    let firsts = first_places(alloc, layout)?;
    let rule = PlaceRule {
        layout,
        firsts: &firsts,
    };
    let broken = first_fault(&rule, layout.places.len());
    breach(Code::PLACES, layout, Section::Places, broken)?;
    let rule = OwnerRule {
        layout,
        firsts: &firsts,
    };
    let broken = first_fault(&rule, layout.owners.len());
    breach(Code::OWNERS, layout, Section::Owners, broken)?;
    let broken = first_fault(&VariableRule { layout }, layout.variables.len());
    breach(Code::VARIABLES, layout, Section::Variables, broken)?;
    let broken = first_fault(&ChangeRule { layout }, layout.changes.len());
    breach(Code::CHANGES, layout, Section::Changes, broken)
}

#[tactic(auto, unfolding(crate::specs::Checking::breach_of_tables))]
fn check_tables(alloc: Global, layout: &Layout<'_>) -> Result<(), ImageErr>
    requires { section_start (level_of layout.now.version) (section_records (sections_in layout.now)) Names < 2 ^ 63 }
    ensures { Gives (λ _. tt) result (breach_of_tables (sections_in layout.now)) }
{
    let broken = first_fault(&FlowRule { layout }, layout.flow.len());
    breach(Code::PAIRS_AND_ROWS, layout, Section::Flow, broken)?;
    let broken = first_fault(&AssignedRule { layout }, layout.assigned.len());
    breach(Code::PAIRS_AND_ROWS, layout, Section::Assigned, broken)?;
    let quiet = quiet_places(alloc, layout)?;
    let rule = VisibleRule {
        layout,
        quiet: &quiet,
    };
    let broken = first_fault(&rule, layout.rows.len());
    breach(Code::PAIRS_AND_ROWS, layout, Section::Rows, broken)?;
    let firsts = first_nodes(alloc, layout)?;
    let rule = NodeRule {
        layout,
        firsts: &firsts,
    };
    let broken = first_fault(&rule, layout.nodes.len());
    breach(Code::NODES_AND_NAMES, layout, Section::Nodes, broken)?;
    match first_misfit(layout) {
        Some(misfit) => {
            let at = start(layout, Section::Names) + misfit;
            Err(ImageErr::Refused(Code::NODES_AND_NAMES, at))
        }
        None => Ok(()),
    }
}
