//! An image in the bytes that spell it.

ghost use Rattle.std.specs.Prelude.{◌≡◌, ◌+◌, ◌<◌, ◌^◌, ◌∷◌, [], Ok, Some, length, map, slice_get, true};
ghost use Rattle.image_form.specs.Decoding.{sections_of};
ghost use Rattle.image_form.specs.Form.{Form};
ghost use Rattle.image_form_sections.specs.Layouts.{sections_in};
ghost use Rattle.image_form.specs.Lent.{are_bytes, image_in};
ghost use Rattle.image_form.specs.Numbers.{assigned_numbers, call_numbers, change_numbers, flow_numbers, function_numbers, member_numbers, node_numbers, place_numbers, row_numbers, variable_numbers};
ghost use Rattle.image_form.specs.Reading.{read_of};
ghost use Rattle.image_form.specs.Rules.{IsImage};
ghost use Rattle.image_form_sections.specs.Sections.{sections_at};
ghost use Rattle.image_form.specs.Spelling.{header, spelled, spelling};

use crate::members::Member;
use crate::name_lookup::{behind_names, name_in};
use crate::numbers::{
    CallRecord, ChangeRecord, FunctionRecord, Header, MemberRecord, NodeRecord, PlaceRecord,
    RowRecord, VariableRecord,
};
use crate::recipes::Node;
use crate::records::{Record, mode_of};
use crate::tables::{AssignedPair, Change, FlowPair, Function, Place};
use crate::variables::Variable;
use crate::verdicts::{CallRow, VisibleRow};
use debug_records::Mode;
use image_form_sections::{Layout, Version, layout_of, level_of, version_of};

/// The image that bytes spell, read where it lies.
///
/// No call takes memory. Records are numbered from 0.
#[derive(Clone, Copy)]
pub struct View<'a> {
    bytes: &'a [u8],
    layout: Layout<'a>,
    ghost read: { read_of bytes.now ≡ Ok (image_in layout) },
    ghost sections: { sections_in layout ≡ sections_at bytes.now },
    ghost fit: { are_bytes bytes.now ≡ true },
}

#[tactic(auto, unfolding(crate::specs::Decoding::form_of_sections), using(crate::proofs::Got::counted, crate::proofs::Got::got_mapped))]
impl<'a> View<'a> {
    ghost use Rattle.image_form.specs.RawRecords.{header_numbers, numbers_of_call, numbers_of_change, numbers_of_function, numbers_of_member, numbers_of_node, numbers_of_place, numbers_of_row, numbers_of_variable};
    ghost use Rattle.image_form.specs.Views.{name_of, viewed};

    /// The view of bytes that spell an image, whose sections are these.
    pub(crate) fn new(bytes: &'a [u8], layout: &Layout<'a>) -> View<'a>
        requires read { read_of bytes.now ≡ Ok (image_in layout.now) }
        requires sections { sections_in layout.now ≡ sections_at bytes.now }
        ensures { viewed result ≡ image_in layout.now }
    {
        View {
            bytes,
            layout: *layout,
        }
    }

    /// The view of the spelling of an image; nothing is checked.
    pub fn of_spelling(bytes: &'a [u8]) -> View<'a>
        requires spelled { (f : Form) × IsImage f × (bytes.now ≡ spelling f) }
        ensures image { IsImage (viewed result) }
        ensures bytes { bytes.now ≡ spelling (viewed result) }
    {
        View {
            bytes,
            layout: layout_of(bytes),
        }
    }

    /// The sections, which are those of the image.
    fn sections(&self) -> &Layout<'a>
        ensures { sections_of (viewed self.now) ≡ sections_in result.now }
    {
        &self.layout
    }

    /// The version of the image.
    pub fn version(&self) -> Version
        ensures { result ≡ (viewed self.now).version }
    {
        version_of(self.layout.version)
    }

    /// Where the compiler put scalars.
    pub fn mode(&self) -> Mode
        ensures { result ≡ (viewed self.now).mode }
    {
        mode_of(self.layout.mode)
    }

    /// The bytes of the code words.
    pub fn code_bytes(&self) -> &'a [u8]
        ensures { result.now ≡ spelled (viewed self.now).code }
    {
        let header = level_of(self.layout.version).header_size();
        &self.bytes[header..header + 4 * self.code_count()]
    }

    /// The bytes that lie in static memory when the program starts.
    pub fn initial(&self) -> &'a [u8]
        ensures { result.now ≡ (viewed self.now).initial }
    {
        self.layout.initial
    }

    /// The names of the functions, the variables and the passes of the changes, one after the other.
    pub fn names(&self) -> &'a [u8]
        ensures { result.now ≡ (viewed self.now).names }
    {
        self.layout.names
    }

    /// How many code words there are.
    pub fn code_count(&self) -> usize
        ensures count { result ≡ length (viewed self.now).code }
        ensures few { result < 2 ^ 32 }
    {
        self.layout.code.len()
    }

    /// How many functions there are.
    pub fn function_count(&self) -> usize
        ensures count { result ≡ length (viewed self.now).functions }
        ensures few { result < 2 ^ 32 }
    {
        self.layout.functions.len()
    }

    /// How many places there are.
    pub fn place_count(&self) -> usize
        ensures count { result ≡ length (viewed self.now).places }
        ensures few { result < 2 ^ 32 }
    {
        self.layout.places.len()
    }

    /// How many owners of code words there are.
    pub fn owner_count(&self) -> usize
        ensures count { result ≡ length (viewed self.now).owners }
        ensures few { result < 2 ^ 32 }
    {
        self.layout.owners.len()
    }

    /// How many variables there are.
    pub fn variable_count(&self) -> usize
        ensures count { result ≡ length (viewed self.now).variables }
        ensures few { result < 2 ^ 32 }
    {
        self.layout.variables.len()
    }

    /// How many changes there are.
    pub fn change_count(&self) -> usize
        ensures count { result ≡ length (viewed self.now).changes }
        ensures few { result < 2 ^ 32 }
    {
        self.layout.changes.len()
    }

    /// How many flow pairs there are.
    pub fn flow_count(&self) -> usize
        ensures count { result ≡ length (viewed self.now).flow }
        ensures few { result < 2 ^ 32 }
    {
        self.layout.flow.len()
    }

    /// How many assigned pairs there are.
    pub fn assigned_count(&self) -> usize
        ensures count { result ≡ length (viewed self.now).assigned }
        ensures few { result < 2 ^ 32 }
    {
        self.layout.assigned.len()
    }

    /// How many visible rows there are.
    pub fn row_count(&self) -> usize
        ensures count { result ≡ length (viewed self.now).rows }
        ensures few { result < 2 ^ 32 }
    {
        self.layout.rows.len()
    }

    /// How many rows of calls there are.
    pub fn call_count(&self) -> usize
        ensures count { result ≡ length (viewed self.now).calls }
        ensures few { result < 2 ^ 32 }
    {
        self.layout.calls.len()
    }

    /// How many members of structures there are.
    pub fn member_count(&self) -> usize
        ensures count { result ≡ length (viewed self.now).members }
        ensures few { result < 2 ^ 32 }
    {
        self.layout.members.len()
    }

    /// How many recipe nodes there are.
    pub fn node_count(&self) -> usize
        ensures count { result ≡ length (viewed self.now).nodes }
        ensures few { result < 2 ^ 32 }
    {
        self.layout.nodes.len()
    }

    /// The n-th code word.
    pub fn code_at(&self, n: usize) -> u32
        requires { n < length (viewed self.now).code }
        ensures { slice_get (viewed self.now).code n ≡ Some result }
    {
        u32::take(&self.layout.code, n)
    }

    /// The n-th function.
    pub fn function_at(&self, n: usize) -> Function
        requires { n < length (viewed self.now).functions }
        ensures { slice_get (viewed self.now).functions n ≡ Some result }
    {
        Function::take(&self.layout.functions, n)
    }

    /// The n-th place.
    pub fn place_at(&self, n: usize) -> Place
        requires { n < length (viewed self.now).places }
        ensures { slice_get (viewed self.now).places n ≡ Some result }
    {
        Place::take(&self.layout.places, n)
    }

    /// The n-th owner of a code word.
    pub fn owner_at(&self, n: usize) -> u32
        requires { n < length (viewed self.now).owners }
        ensures { slice_get (viewed self.now).owners n ≡ Some result }
    {
        u32::take(&self.layout.owners, n)
    }

    /// The n-th variable.
    pub fn variable_at(&self, n: usize) -> Variable
        requires { n < length (viewed self.now).variables }
        ensures { slice_get (viewed self.now).variables n ≡ Some result }
    {
        Variable::take(&self.layout.variables, n)
    }

    /// The n-th change.
    pub fn change_at(&self, n: usize) -> Change
        requires { n < length (viewed self.now).changes }
        ensures { slice_get (viewed self.now).changes n ≡ Some result }
    {
        Change::take(&self.layout.changes, n)
    }

    /// The n-th flow pair.
    pub fn flow_at(&self, n: usize) -> FlowPair
        requires { n < length (viewed self.now).flow }
        ensures { slice_get (viewed self.now).flow n ≡ Some result }
    {
        FlowPair::take(&self.layout.flow, n)
    }

    /// The n-th assigned pair.
    pub fn assigned_at(&self, n: usize) -> AssignedPair
        requires { n < length (viewed self.now).assigned }
        ensures { slice_get (viewed self.now).assigned n ≡ Some result }
    {
        AssignedPair::take(&self.layout.assigned, n)
    }

    /// The n-th visible row.
    pub fn row_at(&self, n: usize) -> VisibleRow
        requires { n < length (viewed self.now).rows }
        ensures { slice_get (viewed self.now).rows n ≡ Some result }
    {
        VisibleRow::take(&self.layout.rows, n)
    }

    /// The n-th row of a call.
    pub fn call_at(&self, n: usize) -> CallRow
        requires { n < length (viewed self.now).calls }
        ensures { slice_get (viewed self.now).calls n ≡ Some result }
    {
        CallRow::take(&self.layout.calls, n)
    }

    /// The n-th member of a structure.
    pub fn member_at(&self, n: usize) -> Member
        requires { n < length (viewed self.now).members }
        ensures { slice_get (viewed self.now).members n ≡ Some result }
    {
        Member::take(&self.layout.members, n)
    }

    /// The n-th recipe node.
    pub fn node_at(&self, n: usize) -> Node
        requires { n < length (viewed self.now).nodes }
        ensures { slice_get (viewed self.now).nodes n ≡ Some result }
    {
        Node::take(&self.layout.nodes, n)
    }

    /// The numbers of the header.
    pub fn header(&self) -> Header
        ensures { let f = viewed self.now in header_numbers f.version.level result ≡ header f }
    {
        let layout = self.sections();
        Header {
            version: layout.version,
            length: self.bytes.len() as u32,
            mode: layout.mode,
            code: layout.code.len() as u32,
            initial: layout.initial.len() as u32,
            functions: layout.functions.len() as u32,
            places: layout.places.len() as u32,
            variables: layout.variables.len() as u32,
            changes: layout.changes.len() as u32,
            flow: layout.flow.len() as u32,
            assigned: layout.assigned.len() as u32,
            rows: layout.rows.len() as u32,
            nodes: layout.nodes.len() as u32,
            names: layout.names.len() as u32,
            zero: 0,
            calls: layout.calls.len() as u32,
            members: layout.members.len() as u32,
        }
    }

    /// The n-th code word.
    pub fn code(&self, n: u32) -> u32
        requires { n < length (viewed self.now).code }
        ensures { slice_get (viewed self.now).code n ≡ Some result }
    {
        self.code_at(n as usize)
    }

    /// The owner of the n-th code word.
    pub fn owner(&self, n: u32) -> u32
        requires { n < length (viewed self.now).owners }
        ensures { slice_get (viewed self.now).owners n ≡ Some result }
    {
        self.owner_at(n as usize)
    }

    /// The numbers of the n-th function.
    pub fn function(&self, n: u32) -> FunctionRecord
        requires { n < length (viewed self.now).functions }
        ensures { let f = viewed self.now in let level = f.version.level in
            slice_get (map (function_numbers level) f.functions) n ≡ Some (numbers_of_function level result) }
    {
        let row = n as usize;
        let table = &self.sections().functions;
        FunctionRecord {
            name_length: table.number(row, 0),
            first: table.number(row, 1),
            end: table.number(row, 2),
            frame: table.number(row, 3),
            entry: table.number(row, 4),
            saved: table.number(row, 5),
        }
    }

    /// The numbers of the n-th place.
    pub fn place(&self, n: u32) -> PlaceRecord
        requires { n < length (viewed self.now).places }
        ensures { slice_get (map place_numbers (viewed self.now).places) n ≡ Some (numbers_of_place result) }
    {
        let row = n as usize;
        let table = &self.sections().places;
        PlaceRecord {
            position: table.number(row, 0),
            line: table.number(row, 1),
            function: table.number(row, 2),
            address: table.number(row, 3),
        }
    }

    /// The numbers of the n-th variable.
    pub fn variable(&self, n: u32) -> VariableRecord
        requires { n < length (viewed self.now).variables }
        ensures { slice_get (map variable_numbers (viewed self.now).variables) n ≡ Some (numbers_of_variable result) }
    {
        let row = n as usize;
        let table = &self.sections().variables;
        VariableRecord {
            name_length: table.number(row, 0),
            function: table.number(row, 1),
            position: table.number(row, 2),
            element: table.number(row, 3),
            storage: table.number(row, 4),
            value: table.number(row, 5),
            count: table.number(row, 6),
            zero: table.number(row, 7),
        }
    }

    /// The numbers of the n-th change.
    pub fn change(&self, n: u32) -> ChangeRecord
        requires { n < length (viewed self.now).changes }
        ensures { slice_get (map change_numbers (viewed self.now).changes) n ≡ Some (numbers_of_change result) }
    {
        let row = n as usize;
        let table = &self.sections().changes;
        ChangeRecord {
            pass_length: table.number(row, 0),
            kind: table.number(row, 1),
            place: table.number(row, 2),
            variable: table.number(row, 3),
            zero: table.number(row, 4),
        }
    }

    /// The numbers of the n-th visible row.
    pub fn row(&self, n: u32) -> RowRecord
        requires { n < length (viewed self.now).rows }
        ensures { let f = viewed self.now in let level = f.version.level in
            slice_get (map (row_numbers level) f.rows) n ≡ Some (numbers_of_row level result) }
    {
        let row = n as usize;
        let table = &self.sections().rows;
        RowRecord {
            place: table.number(row, 0),
            variable: table.number(row, 1),
            verdict: table.number(row, 2),
            change: table.number(row, 3),
            a: table.number(row, 4),
            b: table.number(row, 5),
            c: table.number(row, 6),
        }
    }

    /// The numbers of the n-th row of a call.
    pub fn call(&self, n: u32) -> CallRecord
        requires { n < length (viewed self.now).calls }
        ensures { slice_get (map call_numbers (viewed self.now).calls) n ≡ Some (numbers_of_call result) }
    {
        let row = n as usize;
        let table = &self.sections().calls;
        CallRecord {
            address: table.number(row, 0),
            variable: table.number(row, 1),
            verdict: table.number(row, 2),
            change: table.number(row, 3),
            a: table.number(row, 4),
            b: table.number(row, 5),
            d: table.number(row, 6),
        }
    }

    /// The numbers of the n-th member of a structure.
    pub fn member(&self, n: u32) -> MemberRecord
        requires { n < length (viewed self.now).members }
        ensures { slice_get (map member_numbers (viewed self.now).members) n ≡ Some (numbers_of_member result) }
    {
        let row = n as usize;
        let table = &self.sections().members;
        MemberRecord {
            structure: table.number(row, 0),
            name_length: table.number(row, 1),
            offset: table.number(row, 2),
            element: table.number(row, 3),
            count: table.number(row, 4),
        }
    }

    /// The numbers of the n-th recipe node.
    pub fn node(&self, n: u32) -> NodeRecord
        requires { n < length (viewed self.now).nodes }
        ensures { slice_get (map node_numbers (viewed self.now).nodes) n ≡ Some (numbers_of_node result) }
    {
        let row = n as usize;
        let table = &self.sections().nodes;
        NodeRecord {
            op: table.number(row, 0),
            a: table.number(row, 1),
            b: table.number(row, 2),
        }
    }

    /// The numbers of the n-th flow pair.
    pub fn flows(&self, n: u32) -> (u32, u32)
        requires { n < length (viewed self.now).flow }
        ensures { slice_get (map flow_numbers (viewed self.now).flow) n ≡ Some (result.0 ∷ result.1 ∷ []) }
    {
        let row = n as usize;
        let table = &self.sections().flow;
        (table.number(row, 0), table.number(row, 1))
    }

    /// The numbers of the n-th assigned pair.
    pub fn assigned(&self, n: u32) -> (u32, u32)
        requires { n < length (viewed self.now).assigned }
        ensures { slice_get (map assigned_numbers (viewed self.now).assigned) n ≡ Some (result.0 ∷ result.1 ∷ []) }
    {
        let row = n as usize;
        let table = &self.sections().assigned;
        (table.number(row, 0), table.number(row, 1))
    }

    /// The n-th name: functions are counted first, then variables, then changes.
    pub fn name(&self, n: u32) -> &'a [u8]
        requires { let f = viewed self.now in n < length f.functions + length f.variables + length f.changes }
        ensures { result.now ≡ name_of (viewed self.now) n }
    {
        let n = n as usize;
        let functions = self.layout.functions.len();
        let names = self.layout.names;
        if n < functions {
            return name_in(&self.layout.functions, n, names);
        }
        let variables = self.layout.variables.len();
        let names = behind_names(&self.layout.functions, functions, names);
        if n - functions < variables {
            return name_in(&self.layout.variables, n - functions, names);
        }
        let names = behind_names(&self.layout.variables, variables, names);
        name_in(&self.layout.changes, n - functions - variables, names)
    }
}
