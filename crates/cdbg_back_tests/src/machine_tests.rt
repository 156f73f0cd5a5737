//! Small programs, in words that the GNU assembler wrote (binutils 2.40). What they must leave was computed by another
//! machine, written in Python.

ghost use Rattle.std.specs.Prelude.{◌≡◌, ◌*◌, ◌≤◌, IfOk, length};

use memory_map::Map;
use rv_machine::{Event, Machine};
use std::alloc::{AllocError, Global};
use std::process::Abort;

mod faults;

use faults::{LOADS_OUTSIDE, NO_SUCH_INSTRUCTION, NOT_ALIGNED, NOWHERE_TO_GO, STORES_OUTSIDE};

struct Program {
    shows: &'static str,
    code: &'static [u32],
    bytes: &'static [u8],
    input: &'static [u8],
    output: &'static [u8],
    ending: Event,
    pc: u32,
    registers: &'static [(usize, u32)],
}

// A machine that has run to its ending, or for a hundred instructions, with the ending and the bytes that it put out.
#[derive(Drop)]
struct Ran {
    machine: Machine,
    ending: Event,
    output: Vec<u8>,
}

fn run(alloc: Global, mut machine: Machine) -> Result<Ran, AllocError> {
    let mut output = Vec::new(alloc);
    let mut ending = Event::Went;
    for _ in 0..100 {
        match machine.step() {
            Event::Went => {}
            Event::Out(byte) => output.push(byte)?,
            event => {
                ending = event;
                break;
            }
        }
    }
    Ok(Ran {
        machine,
        ending,
        output,
    })
}

/// Whether the registers hold the words of a list.
fn hold(registers: &[u32], words: &[(usize, u32)]) -> bool {
    let mut all = words.iter();
    all.all(|(number, word)| registers.get(*number) == Some(word))
}

/// The bytes of words, each word's lowest byte first.
fn bytes_of(alloc: Global, words: &[u32]) -> Result<Vec<u8>, AllocError>
    ensures { IfOk result (λ bytes. length bytes.items ≡ 4 * length words.now) }
{
    let mut bytes = Vec::new(alloc);
    for word in words {
        bytes.extend_from_slice(&word.to_le_bytes())?;
    }
    Ok(bytes)
}

/// The machine as it starts on these words of code.
fn machine_of(
    alloc: Global,
    words: &[u32],
    bytes: &[u8],
    input: &[u8],
) -> Result<Machine, AllocError>
    requires code { length words.now ≤ 100 }
    requires bytes { length bytes.now ≤ 100 }
{
    let code = bytes_of(alloc, words)?;
    Machine::load(alloc, Map::One, &code, bytes, input)
}

/// A program leaves what is told of it.
fn assert_leaves(rt: &impl Abort, alloc: Global, program: &Program) -> Result<(), AllocError> {
    assert!(rt; program.code.len() <= 100 && program.bytes.len() <= 100);
    let machine = machine_of(alloc, program.code, program.bytes, program.input)?;
    let ran = run(alloc, machine)?;
    let leaves = ran.ending == program.ending
        && ran.output.as_slice() == program.output
        && ran.machine.pc() == program.pc
        && hold(ran.machine.registers(), program.registers);
    assert!(rt; leaves, "{}", program.shows);
    Ok(())
}

static CALLS: [Program; 5] = [
    Program {
        shows: "starts and exits",
        // The first words of a built program: the stack's end, the depth, and an exit with status 0.
        code: &[0x02000137, 0x40000213, 0x00a00893, 0x00000073],
        bytes: &[],
        input: &[],
        output: &[],
        ending: Event::Exited(0),
        pc: 0x0001000c,
        registers: &[
            (2, 0x02000000),
            (4, 0x00000400),
            (17, 0x0000000a),
            (1, 0x00000000),
        ],
    },
    Program {
        shows: "exits with a negative status",
        // The status is a0 as a signed number.
        code: &[0xff900513, 0x00a00893, 0x00000073],
        bytes: &[],
        input: &[],
        output: &[],
        ending: Event::Exited(-7),
        pc: 0x00010008,
        registers: &[(10, 0xfffffff9)],
    },
    Program {
        shows: "reads its input",
        // Two bytes, and then -1 again and again.
        code: &[
            0x00100893, 0x00000073, 0x00050913, 0x00000073, 0x00050993, 0x00000073, 0x00050a13,
            0x00000073, 0x00050a93, 0x00a00893, 0x00000073,
        ],
        bytes: &[],
        input: &[0xfe, 0x07],
        output: &[],
        ending: Event::Exited(-1),
        pc: 0x00010028,
        registers: &[
            (18, 0x000000fe),
            (19, 0x00000007),
            (20, 0xffffffff),
            (21, 0xffffffff),
        ],
    },
    Program {
        shows: "puts out bytes",
        // The low eight bits of a0, which a0 then holds.
        code: &[
            0x00200893, 0x14800513, 0x00000073, 0x00050913, 0xfff00513, 0x00000073, 0x00050993,
            0x00a00893, 0x00000073,
        ],
        bytes: &[],
        input: &[],
        output: &[0x48, 0xff],
        ending: Event::Exited(255),
        pc: 0x00010020,
        registers: &[(18, 0x00000048), (19, 0x000000ff)],
    },
    Program {
        shows: "says that calls nest too deep",
        // Call 3.
        code: &[0x00300893, 0x00000073],
        bytes: &[],
        input: &[],
        output: &[],
        ending: Event::Depth,
        pc: 0x00010004,
        registers: &[(17, 0x00000003)],
    },
];

fn calls() -> &'static [Program] {
    &CALLS
}

static LOADS_AND_STORES: [Program; 4] = [
    Program {
        shows: "loads of each width from the bytes",
        // Bytes 0x80 0x7f 0xff 0x81 at the region's start, little-endian.
        code: &[
            0x004002b7, 0x0002a903, 0x00029983, 0x00229a03, 0x0022da83, 0x00028b03, 0x00128b83,
            0x0002cc03, 0x00328c83, 0x0042ad03, 0x00a00893, 0x00000073,
        ],
        bytes: &[0x80, 0x7f, 0xff, 0x81],
        input: &[],
        output: &[],
        ending: Event::Exited(0),
        pc: 0x0001002c,
        registers: &[
            (18, 0x81ff7f80),
            (19, 0x00007f80),
            (20, 0xffff81ff),
            (21, 0x000081ff),
            (22, 0xffffff80),
            (23, 0x0000007f),
            (24, 0x00000080),
            (25, 0xffffff81),
            (26, 0x00000000),
        ],
    },
    Program {
        shows: "loads of each width from the code",
        // The program reads its own first two words.
        code: &[
            0x00000297, 0x0002a903, 0x0042a983, 0x00429a03, 0x00629a83, 0x0062db03, 0x00428b83,
            0x00528c03, 0x0062cc83, 0x00728d03, 0x00a00893, 0x00000073,
        ],
        bytes: &[],
        input: &[],
        output: &[],
        ending: Event::Exited(0),
        pc: 0x0001002c,
        registers: &[
            (5, 0x00010000),
            (18, 0x00000297),
            (19, 0x0002a903),
            (20, 0xffffa903),
            (21, 0x00000002),
            (22, 0x00000002),
            (23, 0x00000003),
            (24, 0xffffffa9),
            (25, 0x00000002),
            (26, 0x00000000),
        ],
    },
    Program {
        shows: "stores of each width",
        // A word, then a halfword and bytes within it, on the stack; the bytes beside them stay.
        code: &[
            0x02000137, 0x123452b7, 0x67828293, 0xffe00313, 0xfe512823, 0xfe512a23, 0xfe611923,
            0xfe610a23, 0xfe510ba3, 0xff012903, 0xff412983, 0xff812a03, 0xfec12a83, 0x00a00893,
            0x00000073,
        ],
        bytes: &[],
        input: &[],
        output: &[],
        ending: Event::Exited(0),
        pc: 0x00010038,
        registers: &[
            (18, 0xfffe5678),
            (19, 0x783456fe),
            (20, 0x00000000),
            (21, 0x00000000),
        ],
    },
    Program {
        shows: "stores in the bytes",
        // The first and the last word of the region.
        code: &[
            0x004002b7, 0x00500337, 0xffd00393, 0x0072a023, 0xfe731f23, 0xfe730ea3, 0x0002a903,
            0xffc32983, 0x0042aa03, 0x00a00893, 0x00000073,
        ],
        bytes: &[],
        input: &[],
        output: &[],
        ending: Event::Exited(0),
        pc: 0x00010028,
        registers: &[(18, 0xfffffffd), (19, 0xfffdfd00), (20, 0x00000000)],
    },
];

fn loads_and_stores() -> &'static [Program] {
    &LOADS_AND_STORES
}

static OPERATIONS: [Program; 6] = [
    Program {
        shows: "operations on two registers",
        // Of 0xf0001234 and 0x00000205: a negative number, and a shift of which only five bits count.
        code: &[
            0xf00012b7, 0x23428293, 0x20500313, 0x00628e33, 0x40628eb3, 0x00629f33, 0x0062afb3,
            0x0062b433, 0x0062c4b3, 0x0062d933, 0x4062d9b3, 0x0062ea33, 0x0062fab3, 0x02628b33,
            0x02629bb3, 0x0262ac33, 0x0262bcb3, 0x0262cd33, 0x0262ddb3, 0x0262e633, 0x0262f6b3,
            0x00a00893, 0x00000073,
        ],
        bytes: &[],
        input: &[],
        output: &[],
        ending: Event::Exited(0),
        pc: 0x00010058,
        registers: &[
            (28, 0xf0001439),
            (29, 0xf000102f),
            (30, 0x00024680),
            (31, 0x00000001),
            (8, 0x00000000),
            (9, 0xf0001031),
            (18, 0x07800091),
            (19, 0xff800091),
            (20, 0xf0001235),
            (21, 0x00000204),
            (22, 0xb024c304),
            (23, 0xffffffdf),
            (24, 0xffffffdf),
            (25, 0x000001e4),
            (26, 0xfff813d8),
            (27, 0x0076d6ef),
            (12, 0xfffffefc),
            (13, 0x00000189),
        ],
    },
    Program {
        shows: "operations on two negative registers",
        // Of 0x80000000 and -1: the overflow of a division.
        code: &[
            0x800002b7, 0xfff00313, 0x00628e33, 0x40628eb3, 0x00629f33, 0x0062afb3, 0x0062b433,
            0x0062c4b3, 0x0062d933, 0x4062d9b3, 0x0062ea33, 0x0062fab3, 0x02628b33, 0x02629bb3,
            0x0262ac33, 0x0262bcb3, 0x0262cd33, 0x0262ddb3, 0x0262e633, 0x0262f6b3, 0x00a00893,
            0x00000073,
        ],
        bytes: &[],
        input: &[],
        output: &[],
        ending: Event::Exited(0),
        pc: 0x00010054,
        registers: &[
            (28, 0x7fffffff),
            (29, 0x80000001),
            (30, 0x00000000),
            (31, 0x00000001),
            (8, 0x00000001),
            (9, 0x7fffffff),
            (18, 0x00000001),
            (19, 0xffffffff),
            (20, 0xffffffff),
            (21, 0x80000000),
            (22, 0x80000000),
            (23, 0x00000000),
            (24, 0x80000000),
            (25, 0x7fffffff),
            (26, 0x80000000),
            (27, 0x00000000),
            (12, 0x00000000),
            (13, 0x80000000),
        ],
    },
    Program {
        shows: "divisions by zero",
        // None of them traps.
        code: &[
            0xff700293, 0x0202ce33, 0x0202deb3, 0x0202ef33, 0x0202ffb3, 0x00a00893, 0x00000073,
        ],
        bytes: &[],
        input: &[],
        output: &[],
        ending: Event::Exited(0),
        pc: 0x00010018,
        registers: &[
            (28, 0xffffffff),
            (29, 0xffffffff),
            (30, 0xfffffff7),
            (31, 0xfffffff7),
        ],
    },
    Program {
        shows: "operations on an immediate",
        // Of 0xf0001234.
        code: &[
            0xf00012b7, 0x23428293, 0xffb28e13, 0xffb2ae93, 0xffb2bf13, 0xffb2cf93, 0x70f2e413,
            0xff02f493, 0x00529913, 0x0052d993, 0x4052da13, 0x00a00893, 0x00000073,
        ],
        bytes: &[],
        input: &[],
        output: &[],
        ending: Event::Exited(0),
        pc: 0x00010030,
        registers: &[
            (28, 0xf000122f),
            (29, 0x00000001),
            (30, 0x00000001),
            (31, 0x0fffedcf),
            (8, 0xf000173f),
            (9, 0xf0001230),
            (18, 0x00024680),
            (19, 0x07800091),
            (20, 0xff800091),
        ],
    },
    Program {
        shows: "upper immediates",
        // LUI, and AUIPC at an address.
        code: &[0xfffff2b7, 0xfffff317, 0x00001397, 0x00a00893, 0x00000073],
        bytes: &[],
        input: &[],
        output: &[],
        ending: Event::Exited(0),
        pc: 0x00010010,
        registers: &[(5, 0xfffff000), (6, 0x0000f004), (7, 0x00011008)],
    },
    Program {
        shows: "register 0 is not written",
        // By an operation, a load, a jump, and LUI.
        code: &[
            0x004002b7, 0x00500013, 0x00001037, 0x0002a003, 0x0040006f, 0x00000933, 0x02528033,
            0x00a00893, 0x00000073,
        ],
        bytes: &[0x07, 0x07, 0x07, 0x07],
        input: &[],
        output: &[],
        ending: Event::Exited(0),
        pc: 0x00010020,
        registers: &[(0, 0x00000000), (18, 0x00000000)],
    },
];

fn operations() -> &'static [Program] {
    &OPERATIONS
}

static BRANCHES: [Program; 4] = [
    Program {
        shows: "branches at a negative and a positive number",
        // Of -1 and 1: a branch that is taken skips the write of its register.
        code: &[
            0xfff00293, 0x00100313, 0x00628463, 0x00106913, 0x00629463, 0x00106993, 0x0062c463,
            0x00106a13, 0x0062d463, 0x00106a93, 0x0062e463, 0x00106b13, 0x0062f463, 0x00106b93,
            0x00a00893, 0x00000073,
        ],
        bytes: &[],
        input: &[],
        output: &[],
        ending: Event::Exited(0),
        pc: 0x0001003c,
        registers: &[
            (18, 0x00000001),
            (19, 0x00000000),
            (20, 0x00000000),
            (21, 0x00000001),
            (22, 0x00000001),
            (23, 0x00000000),
        ],
    },
    Program {
        shows: "branches at a positive and a negative number",
        // Of 1 and -1.
        code: &[
            0x00100293, 0xfff00313, 0x00628463, 0x00106913, 0x00629463, 0x00106993, 0x0062c463,
            0x00106a13, 0x0062d463, 0x00106a93, 0x0062e463, 0x00106b13, 0x0062f463, 0x00106b93,
            0x00a00893, 0x00000073,
        ],
        bytes: &[],
        input: &[],
        output: &[],
        ending: Event::Exited(0),
        pc: 0x0001003c,
        registers: &[
            (18, 0x00000001),
            (19, 0x00000000),
            (20, 0x00000001),
            (21, 0x00000000),
            (22, 0x00000000),
            (23, 0x00000001),
        ],
    },
    Program {
        shows: "branches at equal numbers",
        // Of 7 and 7.
        code: &[
            0x00700293, 0x00700313, 0x00628463, 0x00106913, 0x00629463, 0x00106993, 0x0062c463,
            0x00106a13, 0x0062d463, 0x00106a93, 0x0062e463, 0x00106b13, 0x0062f463, 0x00106b93,
            0x00a00893, 0x00000073,
        ],
        bytes: &[],
        input: &[],
        output: &[],
        ending: Event::Exited(0),
        pc: 0x0001003c,
        registers: &[
            (18, 0x00000000),
            (19, 0x00000001),
            (20, 0x00000001),
            (21, 0x00000000),
            (22, 0x00000001),
            (23, 0x00000000),
        ],
    },
    Program {
        shows: "a loop",
        // A branch back: the sum of 1 to 10.
        code: &[
            0x00a00293, 0x00590933, 0xfff28293, 0xfe029ce3, 0x00a00893, 0x00000073,
        ],
        bytes: &[],
        input: &[],
        output: &[],
        ending: Event::Exited(0),
        pc: 0x00010014,
        registers: &[(18, 0x00000037), (5, 0x00000000)],
    },
];

fn branches() -> &'static [Program] {
    &BRANCHES
}

static JUMPS: [Program; 4] = [
    Program {
        shows: "jumps and returns",
        // JAL and JALR write the address after them.
        code: &[
            0x010000ef, 0x00190913, 0x00a00893, 0x00000073, 0x02800913, 0x00008067,
        ],
        bytes: &[],
        input: &[],
        output: &[],
        ending: Event::Exited(0),
        pc: 0x0001000c,
        registers: &[(18, 0x00000029), (1, 0x00010004)],
    },
    Program {
        shows: "jalr clears bit 0",
        // The target 0x0001000d is taken as 0x0001000c.
        code: &[
            0x00000297, 0x00d280e7, 0x00100913, 0x00100993, 0x00a00893, 0x00000073,
        ],
        bytes: &[],
        input: &[],
        output: &[],
        ending: Event::Exited(0),
        pc: 0x00010014,
        registers: &[(18, 0x00000000), (19, 0x00000001), (1, 0x00010008)],
    },
    Program {
        shows: "jalr by its own base",
        // The target is read before the register is written.
        code: &[
            0x00000297, 0x00c282e7, 0x00100913, 0x00100993, 0x00a00893, 0x00000073,
        ],
        bytes: &[],
        input: &[],
        output: &[],
        ending: Event::Exited(0),
        pc: 0x00010014,
        registers: &[(5, 0x00010008), (18, 0x00000000), (19, 0x00000001)],
    },
    Program {
        shows: "a fence does nothing",
        // With rd and rs1 set, too.
        code: &[0x00300293, 0x0ff2828f, 0x0ff0000f, 0x00a00893, 0x00000073],
        bytes: &[],
        input: &[],
        output: &[],
        ending: Event::Exited(0),
        pc: 0x00010010,
        registers: &[(5, 0x00000003), (18, 0x00000000)],
    },
];

fn jumps() -> &'static [Program] {
    &JUMPS
}

/// Each program of each table leaves what is told of it.
fn assert_all(rt: &impl Abort, alloc: Global, tables: &[&[Program]]) -> Result<(), AllocError> {
    for table in tables {
        for program in *table {
            assert_leaves(rt, alloc, program)?;
        }
    }
    Ok(())
}

#[test]
fn programs_leave_what_the_other_machine_leaves(rt: HostRuntime) -> Result<(), AllocError> {
    let tables = [
        calls(),
        loads_and_stores(),
        operations(),
        branches(),
        jumps(),
    ];
    assert_all(&rt, rt.alloc(), &tables)
}

#[test]
fn accesses_fault_where_the_other_machine_faults(rt: HostRuntime) -> Result<(), AllocError> {
    let tables = [STORES_OUTSIDE.as_slice(), &LOADS_OUTSIDE];
    assert_all(&rt, rt.alloc(), &tables)
}

#[test]
fn programs_fault_where_the_other_machine_faults(rt: HostRuntime) -> Result<(), AllocError> {
    let tables = [NO_SUCH_INSTRUCTION.as_slice(), &NOT_ALIGNED, &NOWHERE_TO_GO];
    assert_all(&rt, rt.alloc(), &tables)
}

/// A machine that has run two instructions: lui sp, 0x2000; sw sp, -4(sp).
fn machine_with_a_stack(alloc: Global) -> Result<Machine, AllocError> {
    let mut machine = machine_of(alloc, &[0x02000137, 0xfe212e23], &[7, 8, 9], &[])?;
    machine.step();
    machine.step();
    Ok(machine)
}

/// Bytes of that machine, each with its address: of the code, the static objects, the heap's end, the stack, and
/// between them.
static BYTES: [(u32, u8); 17] = [
    (0x00000000, 0x00),
    (0x0000ffff, 0x00),
    (0x00010000, 0x37),
    (0x00010001, 0x01),
    (0x00010006, 0x21),
    (0x00010007, 0xfe),
    (0x00010008, 0x00),
    (0x00400000, 0x07),
    (0x00400002, 0x09),
    (0x00400003, 0x00),
    (0x004fffff, 0x00),
    (0x00500000, 0x00),
    (0x01000000, 0x00),
    (0x01fffffc, 0x00),
    (0x01ffffff, 0x02),
    (0x02000000, 0x00),
    (0xffffffff, 0x00),
];

fn bytes() -> &'static [(u32, u8)] {
    &BYTES
}

/// The stack of that machine from addresses on: how many bytes it has there, and its last one.
static STACKS: [(u32, usize, Option<u8>); 5] = [
    (0x01fffffb, 5, Some(2)),
    (0x01ffffff, 1, Some(2)),
    (0x02000000, 0, None),
    (0x00ffffff, 0, None),
    (0x01000000, 16777216, Some(2)),
];

fn stacks() -> &'static [(u32, usize, Option<u8>)] {
    &STACKS
}

#[test]
fn every_byte_can_be_read(rt: HostRuntime) -> Result<(), AllocError> {
    let machine = machine_with_a_stack(rt.alloc())?;
    for (address, byte) in bytes() {
        assert!(rt; machine.byte(*address) == *byte, "at {address}");
    }
    for (address, count, last) in stacks() {
        let stack = machine.stack_from(*address);
        assert!(rt;
            stack.len() == *count && stack.last().copied() == *last,
            "from {address}"
        );
    }
    Ok(())
}

/// A machine by the second map, whose code stores a byte at the end of the stack, and loads one from the end of static
/// memory and one from where the static memory of the first map begins.
fn machine_by_the_second_map(alloc: Global) -> Result<Machine, AllocError> {
    // lui sp, 0x3000; addi t0, x0, 5; sb t0, -1(sp); lui tp, 0x1900; lbu t0, -1(tp); lui tp, 0x400; lbu t0, 0(tp)
    let words = [
        0x03000137, 0x00500293, 0xfe510fa3, 0x01900237, 0xfff24283, 0x00400237, 0x00024283,
    ];
    let code = bytes_of(alloc, &words)?;
    Machine::load(alloc, Map::Two, &code, &[7, 8, 9], &[])
}

#[test]
fn the_second_map_has_its_own_regions(rt: HostRuntime) -> Result<(), AllocError> {
    let mut machine = machine_by_the_second_map(rt.alloc())?;
    for wanted in [
        Event::Went,
        Event::Went,
        Event::Went,
        Event::Went,
        Event::Went,
        Event::Went,
        Event::Fault(0x00010018),
    ] {
        assert!(rt; machine.step() == wanted);
    }
    for (address, byte) in [
        (0x01800000, 7),
        (0x01800002, 9),
        (0x018fffff, 0),
        (0x02ffffff, 5),
    ] {
        assert!(rt; machine.byte(address) == byte, "at {address}");
    }
    assert!(rt;
        machine.stack_from(0x02ffffff).len() == 1 && machine.stack_from(0x03000000).is_empty()
    );
    Ok(())
}

#[test]
fn an_ending_comes_again_and_changes_nothing(rt: HostRuntime) -> Result<(), AllocError> {
    // addi a7, x0, 10; addi a0, x0, 3; ecall
    let code = [0x00a00893, 0x00300513, 0x00000073];
    let mut machine = machine_of(rt.alloc(), &code, &[], &[])?;
    for wanted in [Event::Went, Event::Went, Event::Exited(3), Event::Exited(3)] {
        assert!(rt; machine.step() == wanted);
    }
    assert!(rt; machine.pc() == 0x00010008 && machine.registers()[10] == 3);
    Ok(())
}
