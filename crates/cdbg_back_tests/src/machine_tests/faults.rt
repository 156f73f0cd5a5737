//! Programs that fault.

use super::Program;
use rv_machine::Event;

pub static NO_SUCH_INSTRUCTION: [Program; 4] = [
    Program {
        shows: "faults at ebreak",
        // EBREAK.
        code: &[0x00000013, 0x00100073],
        bytes: &[],
        input: &[],
        output: &[],
        ending: Event::Fault(0x00010004),
        pc: 0x00010004,
        registers: &[],
    },
    Program {
        shows: "faults at a call of another number",
        // Call 4, after call 0 would be one too.
        code: &[0x00400893, 0x00000073],
        bytes: &[],
        input: &[],
        output: &[],
        ending: Event::Fault(0x00010004),
        pc: 0x00010004,
        registers: &[],
    },
    Program {
        shows: "faults at call 0",
        // a7 starts as 0.
        code: &[0x00000073],
        bytes: &[],
        input: &[],
        output: &[],
        ending: Event::Fault(0x00010000),
        pc: 0x00010000,
        registers: &[],
    },
    Program {
        shows: "faults at a word that spells nothing",
        // The word 0.
        code: &[0x00000013, 0x00000000],
        bytes: &[],
        input: &[],
        output: &[],
        ending: Event::Fault(0x00010004),
        pc: 0x00010004,
        registers: &[],
    },
];

pub static NOWHERE_TO_GO: [Program; 5] = [
    Program {
        shows: "faults past the code",
        // The pc runs off the end.
        code: &[0x00000013, 0x00000013],
        bytes: &[],
        input: &[],
        output: &[],
        ending: Event::Fault(0x00010008),
        pc: 0x00010008,
        registers: &[],
    },
    Program {
        shows: "faults below the code",
        // A jump to 0, which is a multiple of 4; the fault is at 0.
        code: &[0x00100093, 0x000000e7],
        bytes: &[],
        input: &[],
        output: &[],
        ending: Event::Fault(0x00000000),
        pc: 0x00000000,
        registers: &[(1, 0x00010008)],
    },
    Program {
        shows: "faults at a jump to no multiple of 4",
        // JAL: the register is not written, and the fault is at the jump.
        code: &[0x00100093, 0x002000ef],
        bytes: &[],
        input: &[],
        output: &[],
        ending: Event::Fault(0x00010004),
        pc: 0x00010004,
        registers: &[(1, 0x00000001)],
    },
    Program {
        shows: "faults at a jump by register to no multiple of 4",
        // JALR, bit 1 of the target set.
        code: &[0x00000297, 0x00e280e7, 0x00000013, 0x00000013],
        bytes: &[],
        input: &[],
        output: &[],
        ending: Event::Fault(0x00010004),
        pc: 0x00010004,
        registers: &[(1, 0x00000000)],
    },
    Program {
        shows: "faults at a branch to no multiple of 4",
        // Only where it is taken.
        code: &[0x00100293, 0x00028163, 0x00029163],
        bytes: &[],
        input: &[],
        output: &[],
        ending: Event::Fault(0x00010008),
        pc: 0x00010008,
        registers: &[],
    },
];

pub static STORES_OUTSIDE: [Program; 4] = [
    Program {
        shows: "faults at a store into the code",
        // And the code stays.
        code: &[0x00000297, 0x0002a023],
        bytes: &[],
        input: &[],
        output: &[],
        ending: Event::Fault(0x00010004),
        pc: 0x00010004,
        registers: &[],
    },
    Program {
        shows: "faults at a store below the bytes",
        // At 0x003ffffc.
        code: &[0x004002b7, 0xfe62ae23],
        bytes: &[],
        input: &[],
        output: &[],
        ending: Event::Fault(0x00010004),
        pc: 0x00010004,
        registers: &[],
    },
    Program {
        shows: "faults at a store after the bytes",
        // At 0x00500000.
        code: &[0x005002b7, 0x00628023],
        bytes: &[],
        input: &[],
        output: &[],
        ending: Event::Fault(0x00010004),
        pc: 0x00010004,
        registers: &[],
    },
    Program {
        shows: "faults at a store after the stack",
        // At 0x02000000.
        code: &[0x020002b7, 0x00628023],
        bytes: &[],
        input: &[],
        output: &[],
        ending: Event::Fault(0x00010004),
        pc: 0x00010004,
        registers: &[],
    },
];

pub static NOT_ALIGNED: [Program; 5] = [
    Program {
        shows: "faults at a load of a halfword that is not aligned",
        // Of the bytes.
        code: &[0x004002b7, 0x00900313, 0x00129303],
        bytes: &[],
        input: &[],
        output: &[],
        ending: Event::Fault(0x00010008),
        pc: 0x00010008,
        registers: &[(6, 0x00000009)],
    },
    Program {
        shows: "faults at a load of an unsigned halfword that is not aligned",
        // Of the bytes.
        code: &[0x004002b7, 0x00900313, 0x0012d303],
        bytes: &[],
        input: &[],
        output: &[],
        ending: Event::Fault(0x00010008),
        pc: 0x00010008,
        registers: &[(6, 0x00000009)],
    },
    Program {
        shows: "faults at a load of a word that is not aligned",
        // Of the bytes.
        code: &[0x004002b7, 0x00900313, 0x0022a303],
        bytes: &[],
        input: &[],
        output: &[],
        ending: Event::Fault(0x00010008),
        pc: 0x00010008,
        registers: &[(6, 0x00000009)],
    },
    Program {
        shows: "faults at a store of a halfword that is not aligned",
        // Of the stack.
        code: &[0x01000137, 0x005111a3],
        bytes: &[],
        input: &[],
        output: &[],
        ending: Event::Fault(0x00010004),
        pc: 0x00010004,
        registers: &[],
    },
    Program {
        shows: "faults at a store of a word that is not aligned",
        // Of the stack.
        code: &[0x01000137, 0x005120a3],
        bytes: &[],
        input: &[],
        output: &[],
        ending: Event::Fault(0x00010004),
        pc: 0x00010004,
        registers: &[],
    },
];

pub static LOADS_OUTSIDE: [Program; 6] = [
    Program {
        shows: "faults at a load below the code",
        // At 0x0000fffc.
        code: &[0x000102b7, 0xffc2a303],
        bytes: &[],
        input: &[],
        output: &[],
        ending: Event::Fault(0x00010004),
        pc: 0x00010004,
        registers: &[],
    },
    Program {
        shows: "faults at a load after the code",
        // At the first address after its last word.
        code: &[0x00000297, 0x0082c303],
        bytes: &[],
        input: &[],
        output: &[],
        ending: Event::Fault(0x00010004),
        pc: 0x00010004,
        registers: &[],
    },
    Program {
        shows: "faults at a load below the bytes",
        // At 0x003fffff.
        code: &[0x004002b7, 0xfff28303],
        bytes: &[],
        input: &[],
        output: &[],
        ending: Event::Fault(0x00010004),
        pc: 0x00010004,
        registers: &[],
    },
    Program {
        shows: "faults at a load after the bytes",
        // At 0x00500000.
        code: &[0x005002b7, 0x00028303],
        bytes: &[],
        input: &[],
        output: &[],
        ending: Event::Fault(0x00010004),
        pc: 0x00010004,
        registers: &[],
    },
    Program {
        shows: "faults at a load below the stack",
        // At 0x00fffffc.
        code: &[0x010002b7, 0xffc2a303],
        bytes: &[],
        input: &[],
        output: &[],
        ending: Event::Fault(0x00010004),
        pc: 0x00010004,
        registers: &[],
    },
    Program {
        shows: "faults at a load after the stack",
        // At 0x02000000.
        code: &[0x020002b7, 0x0002a303],
        bytes: &[],
        input: &[],
        output: &[],
        ending: Event::Fault(0x00010004),
        pc: 0x00010004,
        registers: &[],
    },
];
