//! Records as numbers of 32 bits, little endian, and back.

ghost use Rattle.std.specs.Prelude.{◌≡◌, ℕ, ◌++◌, List, [], IfOk, OnOk, map, slice_index_or};
ghost use Rattle.image_form.specs.Decoding.{assigned_of, call_row_of, change_of, element_type_of, flow_pair_of, function_of_row, kind_of, computed_of, member_of, mode_of, node_of, operation_of, owning_function, place_of, quiet_of, visible_row_of, storage_of, truncation_of, variable_of, verdict_of, word_numbers, only_number, writer_of};
ghost use Rattle.image_form_sections.specs.Layouts.{rows_in};
ghost use Rattle.image_form.specs.Numbers.{assigned_numbers, call_numbers, change_numbers, element_number, flow_numbers, function_numbers, kind_number, last_if, member_numbers, node_numbers, operation_number, place_numbers, row_numbers, storage_number, storage_value, truncation_number, variable_numbers, verdict_numbers};
ghost use Rattle.image_form.specs.Spelling.{section, spelled};
ghost use Rattle.image_form_sections.specs.declared.version.Level.{Level};

use crate::members::Member;
use crate::recipes::Node;
use crate::tables::{AssignedPair, Change, FlowPair, Function, Place};
use crate::variables::{ElementType, Storage, Variable};
use crate::verdicts::{CallRow, Verdict, VisibleRow};
use byteorder::{ByteOrder, LittleEndian};
use debug_records::{Kind, Mode};
use image_form_sections::{Level, NO_FUNCTION, Table};
use std::alloc::{AllocError, Global};
use word_base::{Operation, Truncation};

/// A record of a table, which is spelled as numbers, by the level of the version.
pub trait Record: Drop {
    ghost numbers: { Level → Self → List ℕ };

    ghost of_numbers: { List ℕ → Self };

    /// Writes the record's numbers at the end.
    fn put(&self, level: Level, out: &mut Vec<u8>) -> Result<(), AllocError>
        ensures { OnOk result (out.new.items ≡ out.old.items ++ spelled (numbers level self.now)) };

    /// The record that a row of numbers says.
    fn take(table: &Table<'_>, row: usize) -> Self
        ensures { result ≡ of_numbers (slice_index_or (rows_in table.now) row []) };
}

/// Writes numbers at the end.
pub fn put_numbers(out: &mut Vec<u8>, numbers: &[u32]) -> Result<(), AllocError>
    ensures { OnOk result (out.new.items ≡ out.old.items ++ spelled numbers.now) }
{
    for number in numbers {
        let mut bytes = [0; 4];
        LittleEndian::write_u32(&mut bytes, *number);
        out.extend_from_slice(&bytes)?;
    }
    Ok(())
}

/// Writes a last number at the end, where a version has it.
fn put_last(out: &mut Vec<u8>, has: bool, number: u32) -> Result<(), AllocError>
    ensures { OnOk result (out.new.items ≡ out.old.items ++ spelled (last_if has number)) }
{
    if has {
        put_numbers(out, &[number])?;
    }
    Ok(())
}

/// Writes the records of a table at the end.
pub fn put_records<R: Record>(
    out: &mut Vec<u8>,
    level: Level,
    records: &[R],
) -> Result<(), AllocError>
    ensures { OnOk result (out.new.items ≡ out.old.items ++ section (R.numbers level) records.now) }
{
    for record in records {
        record.put(level, out)?;
    }
    Ok(())
}

/// The records that the rows of a table say.
pub fn take_records<R: Record>(alloc: Global, table: &Table<'_>) -> Result<Vec<R>, AllocError>
    ensures { IfOk result (λ records. records.items ≡ map R.of_numbers (rows_in table.now)) }
{
    let mut records = Vec::new(alloc);
    for row in 0..table.len() {
        records.push(R::take(table, row))?;
    }
    Ok(records)
}

impl Record for u32 {
    ghost numbers = { λ _. word_numbers };

    ghost of_numbers = { only_number };

    fn put(&self, _level: Level, out: &mut Vec<u8>) -> Result<(), AllocError> {
        put_numbers(out, &[*self])
    }

    fn take(table: &Table<'_>, row: usize) -> u32 {
        table.number(row, 0)
    }
}

impl Record for Function {
    ghost numbers = { function_numbers };

    ghost of_numbers = { function_of_row };

    fn put(&self, level: Level, out: &mut Vec<u8>) -> Result<(), AllocError> {
        put_numbers(
            out,
            &[
                self.name_length,
                self.first,
                self.end,
                self.frame,
                self.entry,
            ],
        )?;
        put_last(out, level.has_callers(), self.saved)?;
        Ok(())
    }

    fn take(table: &Table<'_>, row: usize) -> Function {
        Function {
            name_length: table.number(row, 0),
            first: table.number(row, 1),
            end: table.number(row, 2),
            frame: table.number(row, 3),
            entry: table.number(row, 4),
            saved: table.number(row, 5),
        }
    }
}

impl Record for Place {
    ghost numbers = { λ _. place_numbers };

    ghost of_numbers = { place_of };

    fn put(&self, _level: Level, out: &mut Vec<u8>) -> Result<(), AllocError> {
        put_numbers(
            out,
            &[self.position, self.line, self.function, self.address],
        )
    }

    fn take(table: &Table<'_>, row: usize) -> Place {
        Place {
            position: table.number(row, 0),
            line: table.number(row, 1),
            function: table.number(row, 2),
            address: table.number(row, 3),
        }
    }
}

impl Record for Variable {
    ghost numbers = { λ _. variable_numbers };

    ghost of_numbers = { variable_of };

    fn put(&self, _level: Level, out: &mut Vec<u8>) -> Result<(), AllocError> {
        put_numbers(
            out,
            &[
                self.name_length,
                self.function.unwrap_or(NO_FUNCTION),
                self.position,
                element_number(self.element),
                storage_number(self.storage),
                storage_value(self.storage),
                self.count,
                0,
            ],
        )
    }

    fn take(table: &Table<'_>, row: usize) -> Variable {
        Variable {
            name_length: table.number(row, 0),
            function: owner_of(table.number(row, 1)),
            position: table.number(row, 2),
            element: element_of(table.number(row, 3)),
            storage: storage_of(table.number(row, 4), table.number(row, 5)),
            count: table.number(row, 6),
        }
    }
}

impl Record for Change {
    ghost numbers = { λ _. change_numbers };

    ghost of_numbers = { change_of };

    fn put(&self, _level: Level, out: &mut Vec<u8>) -> Result<(), AllocError> {
        put_numbers(
            out,
            &[
                self.pass_length,
                kind_number(self.kind),
                self.place,
                self.variable,
                0,
            ],
        )
    }

    fn take(table: &Table<'_>, row: usize) -> Change {
        Change {
            pass_length: table.number(row, 0),
            kind: kind_of(table.number(row, 1)),
            place: table.number(row, 2),
            variable: table.number(row, 3),
        }
    }
}

impl Record for FlowPair {
    ghost numbers = { λ _. flow_numbers };

    ghost of_numbers = { flow_pair_of };

    fn put(&self, _level: Level, out: &mut Vec<u8>) -> Result<(), AllocError> {
        put_numbers(out, &[self.from, self.to])
    }

    fn take(table: &Table<'_>, row: usize) -> FlowPair {
        FlowPair {
            from: table.number(row, 0),
            to: table.number(row, 1),
        }
    }
}

impl Record for AssignedPair {
    ghost numbers = { λ _. assigned_numbers };

    ghost of_numbers = { assigned_of };

    fn put(&self, _level: Level, out: &mut Vec<u8>) -> Result<(), AllocError> {
        put_numbers(out, &[self.place, self.variable])
    }

    fn take(table: &Table<'_>, row: usize) -> AssignedPair {
        AssignedPair {
            place: table.number(row, 0),
            variable: table.number(row, 1),
        }
    }
}

impl Record for VisibleRow {
    ghost numbers = { row_numbers };

    ghost of_numbers = { visible_row_of };

    fn put(&self, level: Level, out: &mut Vec<u8>) -> Result<(), AllocError> {
        put_numbers(out, &[self.place, self.variable])?;
        put_numbers(out, &verdict_numbers(self.verdict))?;
        put_last(out, level.has_quiet(), self.quiet.unwrap_or(NO_QUIET))
    }

    fn take(table: &Table<'_>, row: usize) -> VisibleRow {
        VisibleRow {
            place: table.number(row, 0),
            variable: table.number(row, 1),
            verdict: verdict_of(
                table.number(row, 2),
                table.number(row, 3),
                table.number(row, 4),
                table.number(row, 5),
            ),
            quiet: quiet_of(table.number(row, 6)),
        }
    }
}

impl Record for CallRow {
    ghost numbers = { λ _. call_numbers };

    ghost of_numbers = { call_row_of };

    fn put(&self, _level: Level, out: &mut Vec<u8>) -> Result<(), AllocError> {
        put_numbers(out, &[self.address, self.variable])?;
        put_numbers(out, &verdict_numbers(self.verdict))?;
        put_numbers(out, &[self.path_form])
    }

    fn take(table: &Table<'_>, row: usize) -> CallRow {
        CallRow {
            address: table.number(row, 0),
            variable: table.number(row, 1),
            verdict: verdict_of(
                table.number(row, 2),
                table.number(row, 3),
                table.number(row, 4),
                table.number(row, 5),
            ),
            path_form: table.number(row, 6),
        }
    }
}

impl Record for Member {
    ghost numbers = { λ _. member_numbers };

    ghost of_numbers = { member_of };

    fn put(&self, _level: Level, out: &mut Vec<u8>) -> Result<(), AllocError> {
        let Self {
            structure,
            name_length,
            offset,
            element,
            count,
        } = *self;
        let element = element_number(element);
        put_numbers(out, &[structure, name_length, offset, element, count])
    }

    fn take(table: &Table<'_>, row: usize) -> Member {
        Member {
            structure: table.number(row, 0),
            name_length: table.number(row, 1),
            offset: table.number(row, 2),
            element: element_of(table.number(row, 3)),
            count: table.number(row, 4),
        }
    }
}

impl Record for Node {
    ghost numbers = { λ _. node_numbers };

    ghost of_numbers = { node_of };

    fn put(&self, _level: Level, out: &mut Vec<u8>) -> Result<(), AllocError> {
        match *self {
            Node::Constant(value) => put_numbers(out, &[0, value, 0]),
            Node::Variable(variable) => put_numbers(out, &[1, variable, 0]),
            Node::Home(home) => put_numbers(out, &[2, home, 0]),
            Node::Truncated {
                truncation,
                operand,
            } => put_numbers(out, &[truncation_number(truncation), operand, 0]),
            Node::Operated {
                operation,
                left,
                right,
            } => put_numbers(out, &[operation_number(operation), left, right]),
        }
    }

    fn take(table: &Table<'_>, row: usize) -> Node {
        let number = table.number(row, 0);
        let first = table.number(row, 1);
        match number {
            0 => Node::Constant(first),
            1 => Node::Variable(first),
            2 => Node::Home(first),
            _ => computed_of(number, first, table.number(row, 2)),
        }
    }
}

/// The node that is computed from others; a truncation has one.
fn computed_of(number: u32, first: u32, second: u32) -> Node
    ensures { result ≡ computed_of number first second }
{
    if number < 18 {
        Node::Operated {
            operation: operation_of(number),
            left: first,
            right: second,
        }
    } else {
        Node::Truncated {
            truncation: truncation_of(number),
            operand: first,
        }
    }
}

/// Stands for no writer in a visible row.
const NO_WRITER: u32 = 0;

/// Stands for no place in a visible row.
const NO_QUIET: u32 = 0;

fn verdict_numbers(verdict: Verdict) -> [u32; 4]
    ensures { result ≡ verdict_numbers verdict }
{
    match verdict {
        Verdict::Home => [0, 0, 0, 0],
        Verdict::Recovered { change, node } => [1, change, node, 0],
        Verdict::Noncurrent {
            change,
            start,
            writer,
        } => [2, change, start, writer.unwrap_or(NO_WRITER)],
        Verdict::Nonresident {
            change,
            start,
            writer,
        } => [3, change, start, writer.unwrap_or(NO_WRITER)],
    }
}

fn element_number(element: ElementType) -> u32
    ensures { result ≡ element_number element }
{
    match element {
        ElementType::U8 => 0,
        ElementType::I8 => 1,
        ElementType::U16 => 2,
        ElementType::I16 => 3,
        ElementType::U32 => 4,
        ElementType::I32 => 5,
        ElementType::Pointer => 6,
    }
}

fn storage_number(storage: Storage) -> u32
    ensures { result ≡ storage_number storage }
{
    match storage {
        Storage::Static(_) => 0,
        Storage::Frame(_) => 1,
        Storage::Register(_) => 2,
        Storage::Slot(_) => 3,
    }
}

fn storage_value(storage: Storage) -> u32
    ensures { result ≡ storage_value storage }
{
    match storage {
        Storage::Static(address) => address,
        Storage::Frame(offset) => offset,
        Storage::Register(number) => number,
        Storage::Slot(offset) => offset,
    }
}

fn kind_number(kind: Kind) -> u32
    ensures { result ≡ kind_number kind }
{
    match kind {
        Kind::Removed => 0,
        Kind::Moved => 1,
        Kind::Reused => 2,
        Kind::Replaced => 3,
        Kind::Sunk => 4,
    }
}

fn operation_number(operation: Operation) -> u32
    ensures { result ≡ operation_number operation }
{
    match operation {
        Operation::Add => 3,
        Operation::Sub => 4,
        Operation::Mul => 5,
        Operation::Div => 6,
        Operation::Divu => 7,
        Operation::Rem => 8,
        Operation::Remu => 9,
        Operation::Sll => 10,
        Operation::Srl => 11,
        Operation::Sra => 12,
        Operation::And => 13,
        Operation::Or => 14,
        Operation::Xor => 15,
        Operation::Slt => 16,
        Operation::Sltu => 17,
    }
}

fn truncation_number(truncation: Truncation) -> u32
    ensures { result ≡ truncation_number truncation }
{
    match truncation {
        Truncation::Unsigned8 => 18,
        Truncation::Signed16 => 19,
        Truncation::Unsigned16 => 20,
        Truncation::Signed8 => 21,
    }
}

/// The mode of a number.
pub fn mode_of(number: u32) -> Mode
    ensures { result ≡ mode_of number }
{
    if number == 0 {
        Mode::Slots
    } else {
        Mode::Registers
    }
}

fn owner_of(number: u32) -> Option<u32>
    ensures { result ≡ owning_function number }
{
    if number == NO_FUNCTION {
        None
    } else {
        Some(number)
    }
}

fn element_of(number: u32) -> ElementType
    ensures { result ≡ element_type_of number }
{
    match number {
        0 => ElementType::U8,
        1 => ElementType::I8,
        2 => ElementType::U16,
        3 => ElementType::I16,
        4 => ElementType::U32,
        5 => ElementType::I32,
        _ => ElementType::Pointer,
    }
}

fn storage_of(number: u32, value: u32) -> Storage
    ensures { result ≡ storage_of number value }
{
    match number {
        0 => Storage::Static(value),
        1 => Storage::Frame(value),
        2 => Storage::Register(value),
        _ => Storage::Slot(value),
    }
}

fn kind_of(number: u32) -> Kind
    ensures { result ≡ kind_of number }
{
    match number {
        0 => Kind::Removed,
        1 => Kind::Moved,
        2 => Kind::Reused,
        3 => Kind::Replaced,
        _ => Kind::Sunk,
    }
}

fn writer_of(number: u32) -> Option<u32>
    ensures { result ≡ writer_of number }
{
    if number == NO_WRITER {
        None
    } else {
        Some(number)
    }
}

fn quiet_of(number: u32) -> Option<u32>
    ensures { result ≡ quiet_of number }
{
    if number == NO_QUIET {
        None
    } else {
        Some(number)
    }
}

fn verdict_of(number: u32, change: u32, first: u32, second: u32) -> Verdict
    ensures { result ≡ verdict_of number change first second }
{
    match number {
        0 => Verdict::Home,
        1 => Verdict::Recovered {
            change,
            node: first,
        },
        2 => Verdict::Noncurrent {
            change,
            start: first,
            writer: writer_of(second),
        },
        _ => Verdict::Nonresident {
            change,
            start: first,
            writer: writer_of(second),
        },
    }
}

fn operation_of(number: u32) -> Operation
    ensures { result ≡ operation_of number }
{
    match number {
        0..=3 => Operation::Add,
        4 => Operation::Sub,
        5 => Operation::Mul,
        6 => Operation::Div,
        7 => Operation::Divu,
        8 => Operation::Rem,
        9 => Operation::Remu,
        10 => Operation::Sll,
        11 => Operation::Srl,
        12 => Operation::Sra,
        13 => Operation::And,
        14 => Operation::Or,
        15 => Operation::Xor,
        16 => Operation::Slt,
        _ => Operation::Sltu,
    }
}

fn truncation_of(number: u32) -> Truncation
    ensures { result ≡ truncation_of number }
{
    match number {
        0..=18 => Truncation::Unsigned8,
        19 => Truncation::Signed16,
        20 => Truncation::Unsigned16,
        _ => Truncation::Signed8,
    }
}
