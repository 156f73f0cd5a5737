//! The images that the tests run.

ghost use Rattle.std.specs.Prelude.{◌≡◌, ◌<◌, Some, None, IfOk};
ghost use Rattle.image_form.specs.Form.{form};
ghost use Rattle.cdbg_back_tests.specs.Samples.{addition_form, calling_form};

use debug_records::Mode;
use image_form::{
    AssignedPair, ElementType, FlowPair, Function, Image, Level, Place, Storage, Variable, Verdict,
    Version, VisibleRow,
};
use memory_map::Map;
use std::alloc::{AllocError, Global};

/// The first version.
fn first_version() -> Version
    ensures { result ≡ record { map = Map.One; level = Level.Plain } }
{
    Version {
        map: Map::One,
        level: Level::Plain,
    }
}

fn place(position: u32, line: u32, function: u32, address: u32) -> Place
    ensures { result ≡ record { position = position; line = line; function = function; address = address } }
{
    Place {
        position,
        line,
        function,
        address,
    }
}

/// An int with a name of one letter, in a slot.
fn variable(function: u32, position: u32, offset: u32) -> Variable
    ensures { result ≡ record {
      name_length = 1;
      function = Some function;
      position = position;
      element = ElementType.I32;
      storage =
          Storage.Slot offset;
      count = 0;
    } }
{
    Variable {
        name_length: 1,
        function: Some(function),
        position,
        element: ElementType::I32,
        storage: Storage::Slot(offset),
        count: 0,
    }
}

fn visible(place: u32, variable: u32) -> VisibleRow
    ensures { result ≡ record { place = place; variable = variable; verdict = Verdict.Home; quiet = None } }
{
    VisibleRow {
        place,
        variable,
        verdict: Verdict::Home,
        quiet: None,
    }
}

/// The image of `int main(void){int x=2; x=x+3; putchar(65); return x;}` behind a line that includes stdio.
#[tactic(auto, unfolding(crate::specs::Samples::addition_form))]
pub fn addition_image(alloc: Global) -> Result<Image, AllocError>
    ensures { IfOk result (λ m. form m ≡ addition_form) }
{
    Ok(Image {
        version: first_version(),
        mode: Mode::Slots,
        code: vec![in alloc;
            0x02000137, 0x40000213, 0x00c000ef, 0x00a00893, 0x00000073, 0x00021663, 0x00300893,
            0x00000073, 0xfff20213, 0xff010113, 0x00112023, 0x0040006f, 0x00200313, 0x00612223,
            0x0040006f, 0x00412303, 0x00300393, 0x00730333, 0x00612223, 0x0040006f, 0x04100513,
            0x00200893, 0x00000073, 0x0040006f, 0x00412503, 0x0040006f, 0x00012083, 0x01010113,
            0x00120213, 0x00008067,
        ]?,
        initial: Vec::new(alloc),
        functions: vec![in alloc;
            Function {
                name_length: 4,
                first: 65556,
                end: 65656,
                frame: 16,
                entry: 1,
                saved: 0
            },
        ]?,
        places: vec![in alloc;
            place(23, 2, 0, 65556),
            place(38, 2, 0, 65584),
            place(43, 2, 0, 65596),
            place(50, 2, 0, 65616),
            place(63, 2, 0, 65632),
        ]?,
        owners: vec![in alloc;
            0, 0, 0, 0, 0, 1, 1, 1, 1, 1, 1, 1, 2, 2, 2, 3, 3, 3, 3, 3, 4, 4, 4, 4, 5, 5, 0, 0, 0,
            0,
        ]?,
        variables: vec![in alloc; variable(0, 38, 4)]?,
        changes: Vec::new(alloc),
        flow: vec![in alloc;
            FlowPair { from: 1, to: 2 },
            FlowPair { from: 2, to: 3 },
            FlowPair { from: 3, to: 4 },
            FlowPair { from: 4, to: 5 },
        ]?,
        assigned: vec![in alloc;
            AssignedPair {
                place: 2,
                variable: 0
            },
            AssignedPair {
                place: 3,
                variable: 0
            },
        ]?,
        rows: vec![in alloc; visible(3, 0), visible(4, 0), visible(5, 0)]?,
        calls: Vec::new(alloc),
        members: Vec::new(alloc),
        nodes: Vec::new(alloc),
        names: vec![in alloc; b'm', b'a', b'i', b'n', b'x']?,
    })
}

/// Two functions, f and main, each with an x, and main with a y. Main sets x to 9 and y to -5, calls f, which sets its
/// x to 3, puts out
/// A so many times, and ends by a call of the environment: its number is given, and so is the word that should make it.
#[tactic(auto, unfolding(crate::specs::Samples::calling_form))]
pub fn calling_image(alloc: Global, count: u32, call: u32, last: u32) -> Result<Image, AllocError>
    requires count { count < 2048 }
    requires call { call < 2048 }
    ensures { IfOk result (λ m. form m ≡ calling_form count call last) }
{
    Ok(Image {
        version: first_version(),
        mode: Mode::Slots,
        code: vec![in alloc;
            0x02000137,
            0x40000213,
            0x028000ef,
            0x00a00893,
            0x00000073,
            0xfff20213,
            0xff010113,
            0x00300313,
            0x00612223,
            0x01010113,
            0x00120213,
            0x00008067,
            0xfff20213,
            0xff010113,
            0x00112023,
            0x00900313,
            0x00612223,
            0xffb00313,
            0x00612423,
            0xfc9ff0ef,
            count * 0x10_0000 + 0x0000_0493,
            0x04100513,
            0x00200893,
            0x00048863,
            0x00000073,
            0xfff48493,
            0xff5ff06f,
            0x00812503,
            call * 0x10_0000 + 0x0000_0893,
            last,
        ]?,
        initial: Vec::new(alloc),
        functions: vec![in alloc;
            Function {
                name_length: 1,
                first: 65556,
                end: 65584,
                frame: 16,
                entry: 1,
                saved: 0
            },
            Function {
                name_length: 4,
                first: 65584,
                end: 65656,
                frame: 16,
                entry: 4,
                saved: 0
            },
        ]?,
        places: vec![in alloc;
            place(4, 1, 0, 65556),
            place(11, 1, 0, 65564),
            place(18, 2, 0, 65572),
            place(24, 3, 1, 65584),
            place(35, 3, 1, 65596),
            place(42, 4, 1, 65604),
            place(49, 5, 1, 65612),
            place(55, 6, 1, 65616),
            place(66, 7, 1, 65644),
        ]?,
        owners: vec![in alloc;
            0, 0, 0, 0, 0, 1, 1, 2, 2, 3, 3, 3, 4, 4, 4, 5, 5, 6, 6, 7, 8, 8, 8, 8, 8, 8, 8, 9, 9,
            9,
        ]?,
        variables: vec![in alloc; variable(0, 15, 4), variable(1, 39, 4), variable(1, 46, 8)]?,
        changes: Vec::new(alloc),
        flow: Vec::new(alloc),
        assigned: Vec::new(alloc),
        rows: vec![in alloc;
            visible(3, 0),
            visible(6, 1),
            visible(7, 1),
            visible(7, 2),
            visible(8, 1),
            visible(8, 2),
            visible(9, 1),
            visible(9, 2),
        ]?,
        calls: Vec::new(alloc),
        members: Vec::new(alloc),
        nodes: Vec::new(alloc),
        names: vec![in alloc; b'f', b'm', b'a', b'i', b'n', b'x', b'x', b'y']?,
    })
}
