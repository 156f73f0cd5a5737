//! Values computed by a C compiler on another machine, in 64-bit arithmetic where the product or the shift needs it.

use std::process::Abort;
use word_base::{
    Operation, Truncation, add, div_signed, div_unsigned, fits_i32, mul, mulh, mulhsu, mulhu,
    operate, rem_signed, rem_unsigned, sll, slt, sltu, sra, srl, sub, truncate,
};

struct Row {
    a: u32,
    b: u32,
    add: u32,
    sub: u32,
    mul: u32,
    mulh: u32,
    mulhu: u32,
    mulhsu: u32,
    div_signed: u32,
    div_unsigned: u32,
    rem_signed: u32,
    rem_unsigned: u32,
    sll: u32,
    srl: u32,
    sra: u32,
    slt: u32,
    sltu: u32,
}

// By zero, the overflow of a division, each pair of signs, the extremes, shifts by 31, by 32 and by a number whose low five bits are 1.
static ROWS: [Row; 17] = [
    Row {
        a: 0x00000000,
        b: 0x00000000,
        add: 0x00000000,
        sub: 0x00000000,
        mul: 0x00000000,
        mulh: 0x00000000,
        mulhu: 0x00000000,
        mulhsu: 0x00000000,
        div_signed: 0xffffffff,
        div_unsigned: 0xffffffff,
        rem_signed: 0x00000000,
        rem_unsigned: 0x00000000,
        sll: 0x00000000,
        srl: 0x00000000,
        sra: 0x00000000,
        slt: 0,
        sltu: 0,
    },
    Row {
        a: 0x00000007,
        b: 0x00000000,
        add: 0x00000007,
        sub: 0x00000007,
        mul: 0x00000000,
        mulh: 0x00000000,
        mulhu: 0x00000000,
        mulhsu: 0x00000000,
        div_signed: 0xffffffff,
        div_unsigned: 0xffffffff,
        rem_signed: 0x00000007,
        rem_unsigned: 0x00000007,
        sll: 0x00000007,
        srl: 0x00000007,
        sra: 0x00000007,
        slt: 0,
        sltu: 0,
    },
    Row {
        a: 0x80000000,
        b: 0x00000000,
        add: 0x80000000,
        sub: 0x80000000,
        mul: 0x00000000,
        mulh: 0x00000000,
        mulhu: 0x00000000,
        mulhsu: 0x00000000,
        div_signed: 0xffffffff,
        div_unsigned: 0xffffffff,
        rem_signed: 0x80000000,
        rem_unsigned: 0x80000000,
        sll: 0x80000000,
        srl: 0x80000000,
        sra: 0x80000000,
        slt: 1,
        sltu: 0,
    },
    Row {
        a: 0x80000000,
        b: 0xffffffff,
        add: 0x7fffffff,
        sub: 0x80000001,
        mul: 0x80000000,
        mulh: 0x00000000,
        mulhu: 0x7fffffff,
        mulhsu: 0x80000000,
        div_signed: 0x80000000,
        div_unsigned: 0x00000000,
        rem_signed: 0x00000000,
        rem_unsigned: 0x80000000,
        sll: 0x00000000,
        srl: 0x00000001,
        sra: 0xffffffff,
        slt: 1,
        sltu: 1,
    },
    Row {
        a: 0x80000000,
        b: 0x00000001,
        add: 0x80000001,
        sub: 0x7fffffff,
        mul: 0x80000000,
        mulh: 0xffffffff,
        mulhu: 0x00000000,
        mulhsu: 0xffffffff,
        div_signed: 0x80000000,
        div_unsigned: 0x80000000,
        rem_signed: 0x00000000,
        rem_unsigned: 0x00000000,
        sll: 0x00000000,
        srl: 0x40000000,
        sra: 0xc0000000,
        slt: 1,
        sltu: 0,
    },
    Row {
        a: 0x7fffffff,
        b: 0xffffffff,
        add: 0x7ffffffe,
        sub: 0x80000000,
        mul: 0x80000001,
        mulh: 0xffffffff,
        mulhu: 0x7ffffffe,
        mulhsu: 0x7ffffffe,
        div_signed: 0x80000001,
        div_unsigned: 0x00000000,
        rem_signed: 0x00000000,
        rem_unsigned: 0x7fffffff,
        sll: 0x80000000,
        srl: 0x00000000,
        sra: 0x00000000,
        slt: 0,
        sltu: 1,
    },
    Row {
        a: 0xffffffff,
        b: 0xffffffff,
        add: 0xfffffffe,
        sub: 0x00000000,
        mul: 0x00000001,
        mulh: 0x00000000,
        mulhu: 0xfffffffe,
        mulhsu: 0xffffffff,
        div_signed: 0x00000001,
        div_unsigned: 0x00000001,
        rem_signed: 0x00000000,
        rem_unsigned: 0x00000000,
        sll: 0x80000000,
        srl: 0x00000001,
        sra: 0xffffffff,
        slt: 0,
        sltu: 0,
    },
    Row {
        a: 0xfffffff9,
        b: 0x00000002,
        add: 0xfffffffb,
        sub: 0xfffffff7,
        mul: 0xfffffff2,
        mulh: 0xffffffff,
        mulhu: 0x00000001,
        mulhsu: 0xffffffff,
        div_signed: 0xfffffffd,
        div_unsigned: 0x7ffffffc,
        rem_signed: 0xffffffff,
        rem_unsigned: 0x00000001,
        sll: 0xffffffe4,
        srl: 0x3ffffffe,
        sra: 0xfffffffe,
        slt: 1,
        sltu: 0,
    },
    Row {
        a: 0x00000007,
        b: 0xfffffffe,
        add: 0x00000005,
        sub: 0x00000009,
        mul: 0xfffffff2,
        mulh: 0xffffffff,
        mulhu: 0x00000006,
        mulhsu: 0x00000006,
        div_signed: 0xfffffffd,
        div_unsigned: 0x00000000,
        rem_signed: 0x00000001,
        rem_unsigned: 0x00000007,
        sll: 0xc0000000,
        srl: 0x00000000,
        sra: 0x00000000,
        slt: 0,
        sltu: 1,
    },
    Row {
        a: 0xfffffff9,
        b: 0xfffffffe,
        add: 0xfffffff7,
        sub: 0xfffffffb,
        mul: 0x0000000e,
        mulh: 0x00000000,
        mulhu: 0xfffffff7,
        mulhsu: 0xfffffff9,
        div_signed: 0x00000003,
        div_unsigned: 0x00000000,
        rem_signed: 0xffffffff,
        rem_unsigned: 0xfffffff9,
        sll: 0x40000000,
        srl: 0x00000003,
        sra: 0xffffffff,
        slt: 1,
        sltu: 1,
    },
    Row {
        a: 0x80000000,
        b: 0x80000000,
        add: 0x00000000,
        sub: 0x00000000,
        mul: 0x00000000,
        mulh: 0x40000000,
        mulhu: 0x40000000,
        mulhsu: 0xc0000000,
        div_signed: 0x00000001,
        div_unsigned: 0x00000001,
        rem_signed: 0x00000000,
        rem_unsigned: 0x00000000,
        sll: 0x80000000,
        srl: 0x80000000,
        sra: 0x80000000,
        slt: 0,
        sltu: 0,
    },
    Row {
        a: 0x7fffffff,
        b: 0x7fffffff,
        add: 0xfffffffe,
        sub: 0x00000000,
        mul: 0x00000001,
        mulh: 0x3fffffff,
        mulhu: 0x3fffffff,
        mulhsu: 0x3fffffff,
        div_signed: 0x00000001,
        div_unsigned: 0x00000001,
        rem_signed: 0x00000000,
        rem_unsigned: 0x00000000,
        sll: 0x80000000,
        srl: 0x00000000,
        sra: 0x00000000,
        slt: 0,
        sltu: 0,
    },
    Row {
        a: 0x80000001,
        b: 0x0000001f,
        add: 0x80000020,
        sub: 0x7fffffe2,
        mul: 0x8000001f,
        mulh: 0xfffffff0,
        mulhu: 0x0000000f,
        mulhsu: 0xfffffff0,
        div_signed: 0xfbdef7be,
        div_unsigned: 0x04210842,
        rem_signed: 0xffffffff,
        rem_unsigned: 0x00000003,
        sll: 0x80000000,
        srl: 0x00000001,
        sra: 0xffffffff,
        slt: 1,
        sltu: 0,
    },
    Row {
        a: 0x80000001,
        b: 0x00000020,
        add: 0x80000021,
        sub: 0x7fffffe1,
        mul: 0x00000020,
        mulh: 0xfffffff0,
        mulhu: 0x00000010,
        mulhsu: 0xfffffff0,
        div_signed: 0xfc000001,
        div_unsigned: 0x04000000,
        rem_signed: 0xffffffe1,
        rem_unsigned: 0x00000001,
        sll: 0x80000001,
        srl: 0x80000001,
        sra: 0x80000001,
        slt: 1,
        sltu: 0,
    },
    Row {
        a: 0xdeadbeef,
        b: 0x12345678,
        add: 0xf0e21567,
        sub: 0xcc796877,
        mul: 0x5621ca08,
        mulh: 0xfda16776,
        mulhu: 0x0fd5bdee,
        mulhsu: 0xfda16776,
        div_signed: 0xffffffff,
        div_unsigned: 0x0000000c,
        rem_signed: 0xf0e21567,
        rem_unsigned: 0x0439b14f,
        sll: 0xef000000,
        srl: 0x000000de,
        sra: 0xffffffde,
        slt: 1,
        sltu: 0,
    },
    Row {
        a: 0x12345678,
        b: 0xdeadbeef,
        add: 0xf0e21567,
        sub: 0x33869789,
        mul: 0x5621ca08,
        mulh: 0xfda16776,
        mulhu: 0x0fd5bdee,
        mulhsu: 0x0fd5bdee,
        div_signed: 0x00000000,
        div_unsigned: 0x00000000,
        rem_signed: 0x12345678,
        rem_unsigned: 0x12345678,
        sll: 0x2b3c0000,
        srl: 0x00002468,
        sra: 0x00002468,
        slt: 0,
        sltu: 1,
    },
    Row {
        a: 0x00000001,
        b: 0xffffffe1,
        add: 0xffffffe2,
        sub: 0x00000020,
        mul: 0xffffffe1,
        mulh: 0xffffffff,
        mulhu: 0x00000000,
        mulhsu: 0x00000000,
        div_signed: 0x00000000,
        div_unsigned: 0x00000000,
        rem_signed: 0x00000001,
        rem_unsigned: 0x00000001,
        sll: 0x00000002,
        srl: 0x00000000,
        sra: 0x00000000,
        slt: 0,
        sltu: 1,
    },
];

fn rows() -> &'static [Row] {
    &ROWS
}

/// An operation has the word that the table has for it.
fn assert_word(rt: &impl Abort, found: u32, wanted: u32, name: &str, row: &Row) {
    let (a, b) = (row.a, row.b);
    assert!(rt; found == wanted, "{name} {a} {b}");
}

#[test]
fn sums_and_products(rt: HostRuntime) {
    for row in rows() {
        let (a, b) = (row.a, row.b);
        assert_word(&rt, add(a, b), row.add, "add", row);
        assert_word(&rt, sub(a, b), row.sub, "sub", row);
        assert_word(&rt, mul(a, b), row.mul, "mul", row);
        assert_word(&rt, mulh(a, b), row.mulh, "mulh", row);
        assert_word(&rt, mulhu(a, b), row.mulhu, "mulhu", row);
        assert_word(&rt, mulhsu(a, b), row.mulhsu, "mulhsu", row);
    }
}

#[test]
fn quotients_and_remainders(rt: HostRuntime) {
    for row in rows() {
        let (a, b) = (row.a, row.b);
        assert_word(&rt, div_signed(a, b), row.div_signed, "div", row);
        assert_word(&rt, div_unsigned(a, b), row.div_unsigned, "divu", row);
        assert_word(&rt, rem_signed(a, b), row.rem_signed, "rem", row);
        assert_word(&rt, rem_unsigned(a, b), row.rem_unsigned, "remu", row);
    }
}

#[test]
fn shifts_and_comparisons(rt: HostRuntime) {
    for row in rows() {
        let (a, b) = (row.a, row.b);
        assert_word(&rt, sll(a, b), row.sll, "sll", row);
        assert_word(&rt, srl(a, b), row.srl, "srl", row);
        assert_word(&rt, sra(a, b), row.sra, "sra", row);
        assert_word(&rt, slt(a, b), row.slt, "slt", row);
        assert_word(&rt, sltu(a, b), row.sltu, "sltu", row);
    }
}

/// What each operation gives of the words of a row.
fn operated(row: &Row) -> [(Operation, u32); 15] {
    let (a, b) = (row.a, row.b);
    [
        (Operation::Add, row.add),
        (Operation::Sub, row.sub),
        (Operation::Mul, row.mul),
        (Operation::Div, row.div_signed),
        (Operation::Divu, row.div_unsigned),
        (Operation::Rem, row.rem_signed),
        (Operation::Remu, row.rem_unsigned),
        (Operation::Sll, row.sll),
        (Operation::Srl, row.srl),
        (Operation::Sra, row.sra),
        (Operation::And, a & b),
        (Operation::Or, a | b),
        (Operation::Xor, a ^ b),
        (Operation::Slt, row.slt),
        (Operation::Sltu, row.sltu),
    ]
}

#[test]
fn operations_are_by_their_names(rt: HostRuntime) {
    for row in rows() {
        for (operation, wanted) in operated(row) {
            assert_word(
                &rt,
                operate(operation, row.a, row.b),
                wanted,
                "operate",
                row,
            );
        }
    }
}

/// Words cut to their lowest bits, worked by hand.
static TRUNCATED: [(Truncation, u32, u32); 6] = [
    (Truncation::Unsigned8, 0x1234_5688, 0x88),
    (Truncation::Signed8, 0x1234_5688, 0xffff_ff88),
    (Truncation::Unsigned16, 0x1234_8678, 0x8678),
    (Truncation::Signed16, 0x1234_8678, 0xffff_8678),
    (Truncation::Signed8, 0x7f, 0x7f),
    (Truncation::Signed16, 0x7fff, 0x7fff),
];

fn truncated() -> &'static [(Truncation, u32, u32)] {
    &TRUNCATED
}

#[test]
fn truncations_keep_low_bits(rt: HostRuntime) {
    for (truncation, word, wanted) in truncated() {
        assert!(rt; truncate(*truncation, *word) == *wanted, "{word}");
    }
}

/// Numbers, and whether a signed word has them (ISO/IEC 9899:2011, 5.2.4.2.1, at 32 bits).
static RANGE: [(i64, bool); 7] = [
    (0, true),
    (-2147483648, true),
    (2147483647, true),
    (-2147483649, false),
    (2147483648, false),
    (-9223372036854775808, false),
    (9223372036854775807, false),
];

fn range() -> &'static [(i64, bool)] {
    &RANGE
}

#[test]
fn range_of_a_signed_word(rt: HostRuntime) {
    for (number, fits) in range() {
        assert!(rt; fits_i32(*number) == *fits, "{number}");
    }
}
