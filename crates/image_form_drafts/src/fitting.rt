//! Each number of tables fits its 32 bits. Nothing is done: what is read is known to fit.

ghost use Rattle.std.specs.Prelude.{◌<◌, ◌^◌};
ghost use Rattle.image_form.specs.Form.{form};
ghost use Rattle.image_form.specs.Numbers.{assigned_numbers, call_numbers, change_numbers, flow_numbers, function_numbers, member_numbers, node_numbers, place_numbers, row_numbers, storage_value, variable_numbers, verdict_numbers};
ghost use Rattle.image_form.specs.Rules.{AllFit, RecordsFit};
ghost use Rattle.image_form_drafts.specs.Fitting.{AreFit};

use image_form::{
    AssignedPair, CallRow, Change, FlowPair, Function, Image, Level, Member, Node, Place, Storage,
    Variable, Verdict, VisibleRow,
};

/// A word fits.
fn word_fits(word: u32)
    ensures { word < 2 ^ 32 }
{}

/// Words fit.
fn words_fit(words: &[u32])
    ensures { AllFit words.now }
{
    let mut ahead = words;
    while let [word, rest @ ..] = ahead {
        word_fits(*word);
        ahead = rest;
    }
}

/// The numbers of a function fit.
fn function_fits(level: Level, function: Function)
    ensures { AllFit (function_numbers level function) }
{
    match level {
        Level::Plain | Level::Quiet | Level::Callers => {}
    }
}

/// The numbers of functions fit.
fn functions_fit(level: Level, functions: &[Function])
    ensures { RecordsFit (function_numbers level) functions.now }
{
    let mut ahead = functions;
    while let [function, rest @ ..] = ahead {
        function_fits(level, *function);
        ahead = rest;
    }
}

/// The numbers of a place fit.
fn place_fits(place: Place)
    ensures { AllFit (place_numbers place) }
{}

/// The numbers of places fit.
fn places_fit(places: &[Place])
    ensures { RecordsFit place_numbers places.now }
{
    let mut ahead = places;
    while let [place, rest @ ..] = ahead {
        place_fits(*place);
        ahead = rest;
    }
}

/// The numbers of a step fit.
fn step_fits(step: FlowPair)
    ensures { AllFit (flow_numbers step) }
{}

/// The numbers of steps fit.
fn flow_fits(flow: &[FlowPair])
    ensures { RecordsFit flow_numbers flow.now }
{
    let mut ahead = flow;
    while let [pair, rest @ ..] = ahead {
        step_fits(*pair);
        ahead = rest;
    }
}

/// The numbers of an assigned pair fit.
fn assigned_pair_fits(pair: AssignedPair)
    ensures { AllFit (assigned_numbers pair) }
{}

/// The numbers of assigned pairs fit.
fn assigned_fits(assigned: &[AssignedPair])
    ensures { RecordsFit assigned_numbers assigned.now }
{
    let mut ahead = assigned;
    while let [pair, rest @ ..] = ahead {
        assigned_pair_fits(*pair);
        ahead = rest;
    }
}

/// The number of a storage fits.
fn storage_fits(storage: Storage)
    ensures { storage_value storage < 2 ^ 32 }
{
    match storage {
        Storage::Static(_) | Storage::Frame(_) | Storage::Register(_) | Storage::Slot(_) => {}
    }
}

/// The numbers of a variable fit.
fn variable_fits(variable: Variable)
    ensures { AllFit (variable_numbers variable) }
{
    let _function = variable.function.unwrap_or(4294967295);
    storage_fits(variable.storage);
}

/// The numbers of variables fit.
fn variables_fit(variables: &[Variable])
    ensures { RecordsFit variable_numbers variables.now }
{
    let mut ahead = variables;
    while let [variable, rest @ ..] = ahead {
        variable_fits(*variable);
        ahead = rest;
    }
}

/// The numbers of a change fit.
fn change_fits(change: Change)
    ensures { AllFit (change_numbers change) }
{}

/// The numbers of changes fit.
fn changes_fit(changes: &[Change])
    ensures { RecordsFit change_numbers changes.now }
{
    let mut ahead = changes;
    while let [change, rest @ ..] = ahead {
        change_fits(*change);
        ahead = rest;
    }
}

/// The numbers of a node fit.
fn node_fits(node: Node)
    ensures { AllFit (node_numbers node) }
{
    match node {
        Node::Constant(_)
        | Node::Variable(_)
        | Node::Home(_)
        | Node::Truncated { .. }
        | Node::Operated { .. } => {}
    }
}

/// The numbers of nodes fit.
fn nodes_fit(nodes: &[Node])
    ensures { RecordsFit node_numbers nodes.now }
{
    let mut ahead = nodes;
    while let [node, rest @ ..] = ahead {
        node_fits(*node);
        ahead = rest;
    }
}

/// The numbers of a verdict fit.
fn verdict_fits(verdict: Verdict)
    ensures { AllFit (verdict_numbers verdict) }
{
    match verdict {
        Verdict::Home | Verdict::Recovered { .. } => {}
        Verdict::Noncurrent { writer, .. } | Verdict::Nonresident { writer, .. } => {
            let _writer = writer.unwrap_or(0);
        }
    }
}

/// The numbers of a visible row fit.
fn row_fits(level: Level, row: VisibleRow)
    ensures { AllFit (row_numbers level row) }
{
    verdict_fits(row.verdict);
    let _quiet = row.quiet.unwrap_or(0);
    match level {
        Level::Plain | Level::Quiet | Level::Callers => {}
    }
}

/// The numbers of visible rows fit.
fn rows_fit(level: Level, rows: &[VisibleRow])
    ensures { RecordsFit (row_numbers level) rows.now }
{
    let mut ahead = rows;
    while let [row, rest @ ..] = ahead {
        row_fits(level, *row);
        ahead = rest;
    }
}

/// The numbers of the row of a call fit.
fn call_fits(row: CallRow)
    ensures { AllFit (call_numbers row) }
{
    verdict_fits(row.verdict);
}

/// The numbers of rows of calls fit.
fn calls_fit(rows: &[CallRow])
    ensures { RecordsFit call_numbers rows.now }
{
    let mut ahead = rows;
    while let [row, rest @ ..] = ahead {
        call_fits(*row);
        ahead = rest;
    }
}

/// The numbers of a member fit.
fn member_fits(member: Member)
    ensures { AllFit (member_numbers member) }
{}

/// The numbers of members fit.
fn members_fit(members: &[Member])
    ensures { RecordsFit member_numbers members.now }
{
    let mut ahead = members;
    while let [member, rest @ ..] = ahead {
        member_fits(*member);
        ahead = rest;
    }
}

/// The numbers of tables fit.
pub fn tables_fit(tables: &Image)
    ensures { AreFit (form tables.now) }
{
    words_fit(&tables.code);
    words_fit(&tables.owners);
    functions_fit(tables.version.level, &tables.functions);
    places_fit(&tables.places);
    variables_fit(&tables.variables);
    changes_fit(&tables.changes);
    flow_fits(&tables.flow);
    assigned_fits(&tables.assigned);
    rows_fit(tables.version.level, &tables.rows);
    calls_fit(&tables.calls);
    members_fit(&tables.members);
    nodes_fit(&tables.nodes);
}
