//! Words that the GNU assembler wrote for RV32IM (binutils 2.40), and words that it writes for no instruction of
//! RV32IM.

use rv_code::{
    BranchOperation, ImmediateOperation, Instruction, LoadOperation, RegisterOperation,
    StoreOperation, decode, encode,
};

/// Whether a word spells an instruction, and the instruction has that word.
fn is_spelled(word: u32, instruction: Instruction) -> bool {
    match decode(word) {
        Some(found) => found == instruction && encode(found) == word,
        None => false,
    }
}

static UPPER_IMMEDIATES: [(u32, Instruction); 8] = [
    (0x00000037, Instruction::Lui(0, 0x0)), // lui x0, 0x0
    (0x00000017, Instruction::Auipc(0, 0x0)), // auipc x0, 0x0
    (0xffffffb7, Instruction::Lui(31, 0xfffff)), // lui x31, 0xfffff
    (0xffffff97, Instruction::Auipc(31, 0xfffff)), // auipc x31, 0xfffff
    (0x02000137, Instruction::Lui(2, 0x2000)), // lui x2, 0x2000
    (0x02000117, Instruction::Auipc(2, 0x2000)), // auipc x2, 0x2000
    (0x00001537, Instruction::Lui(10, 0x1)), // lui x10, 0x1
    (0x00001517, Instruction::Auipc(10, 0x1)), // auipc x10, 0x1
];

fn upper_immediates() -> &'static [(u32, Instruction)] {
    &UPPER_IMMEDIATES
}

static JUMPS: [(u32, Instruction); 13] = [
    (0x0000006f, Instruction::Jal(0, 0x00000000)), // jal x0, .+0
    (0x00c000ef, Instruction::Jal(1, 0x0000000c)), // jal x1, .+12
    (0x7fffffef, Instruction::Jal(31, 0x000ffffe)), // jal x31, .+1048574
    (0x800000ef, Instruction::Jal(1, 0xfff00000)), // jal x1, .-1048576
    (0xfffff2ef, Instruction::Jal(5, 0xfffffffe)), // jal x5, .-2
    (0x7fe0036f, Instruction::Jal(6, 0x000007fe)), // jal x6, .+2046
    (0x001003ef, Instruction::Jal(7, 0x00000800)), // jal x7, .+2048
    (0x000ff46f, Instruction::Jal(8, 0x000ff000)), // jal x8, .+1044480
    (0xffffe4ef, Instruction::Jal(9, 0xffffeffe)), // jal x9, .-4098
    (0x00008067, Instruction::Jalr(0, 1, 0x00000000)), // jalr x0, 0(x1)
    (0x7fff8fe7, Instruction::Jalr(31, 31, 0x000007ff)), // jalr x31, 2047(x31)
    (0x800280e7, Instruction::Jalr(1, 5, 0xfffff800)), // jalr x1, -2048(x5)
    (0xfff38367, Instruction::Jalr(6, 7, 0xffffffff)), // jalr x6, -1(x7)
];

fn jumps() -> &'static [(u32, Instruction)] {
    &JUMPS
}

static BRANCHES: [(u32, Instruction); 36] = [
    (
        0x7ff00fe3,
        Instruction::Branch(BranchOperation::Beq, 0, 31, 0x00000ffe),
    ), // beq x0, x31, .+4094
    (
        0x801f8063,
        Instruction::Branch(BranchOperation::Beq, 31, 1, 0xfffff000),
    ), // beq x31, x1, .-4096
    (
        0x00020663,
        Instruction::Branch(BranchOperation::Beq, 4, 0, 0x0000000c),
    ), // beq x4, x0, .+12
    (
        0xfeb50fe3,
        Instruction::Branch(BranchOperation::Beq, 10, 11, 0xfffffffe),
    ), // beq x10, x11, .-2
    (
        0x00d600e3,
        Instruction::Branch(BranchOperation::Beq, 12, 13, 0x00000800),
    ), // beq x12, x13, .+2048
    (
        0x40f70063,
        Instruction::Branch(BranchOperation::Beq, 14, 15, 0x00000400),
    ), // beq x14, x15, .+1024
    (
        0x7ff01fe3,
        Instruction::Branch(BranchOperation::Bne, 0, 31, 0x00000ffe),
    ), // bne x0, x31, .+4094
    (
        0x801f9063,
        Instruction::Branch(BranchOperation::Bne, 31, 1, 0xfffff000),
    ), // bne x31, x1, .-4096
    (
        0x00021663,
        Instruction::Branch(BranchOperation::Bne, 4, 0, 0x0000000c),
    ), // bne x4, x0, .+12
    (
        0xfeb51fe3,
        Instruction::Branch(BranchOperation::Bne, 10, 11, 0xfffffffe),
    ), // bne x10, x11, .-2
    (
        0x00d610e3,
        Instruction::Branch(BranchOperation::Bne, 12, 13, 0x00000800),
    ), // bne x12, x13, .+2048
    (
        0x40f71063,
        Instruction::Branch(BranchOperation::Bne, 14, 15, 0x00000400),
    ), // bne x14, x15, .+1024
    (
        0x7ff04fe3,
        Instruction::Branch(BranchOperation::Blt, 0, 31, 0x00000ffe),
    ), // blt x0, x31, .+4094
    (
        0x801fc063,
        Instruction::Branch(BranchOperation::Blt, 31, 1, 0xfffff000),
    ), // blt x31, x1, .-4096
    (
        0x00024663,
        Instruction::Branch(BranchOperation::Blt, 4, 0, 0x0000000c),
    ), // blt x4, x0, .+12
    (
        0xfeb54fe3,
        Instruction::Branch(BranchOperation::Blt, 10, 11, 0xfffffffe),
    ), // blt x10, x11, .-2
    (
        0x00d640e3,
        Instruction::Branch(BranchOperation::Blt, 12, 13, 0x00000800),
    ), // blt x12, x13, .+2048
    (
        0x40f74063,
        Instruction::Branch(BranchOperation::Blt, 14, 15, 0x00000400),
    ), // blt x14, x15, .+1024
    (
        0x7ff05fe3,
        Instruction::Branch(BranchOperation::Bge, 0, 31, 0x00000ffe),
    ), // bge x0, x31, .+4094
    (
        0x801fd063,
        Instruction::Branch(BranchOperation::Bge, 31, 1, 0xfffff000),
    ), // bge x31, x1, .-4096
    (
        0x00025663,
        Instruction::Branch(BranchOperation::Bge, 4, 0, 0x0000000c),
    ), // bge x4, x0, .+12
    (
        0xfeb55fe3,
        Instruction::Branch(BranchOperation::Bge, 10, 11, 0xfffffffe),
    ), // bge x10, x11, .-2
    (
        0x00d650e3,
        Instruction::Branch(BranchOperation::Bge, 12, 13, 0x00000800),
    ), // bge x12, x13, .+2048
    (
        0x40f75063,
        Instruction::Branch(BranchOperation::Bge, 14, 15, 0x00000400),
    ), // bge x14, x15, .+1024
    (
        0x7ff06fe3,
        Instruction::Branch(BranchOperation::Bltu, 0, 31, 0x00000ffe),
    ), // bltu x0, x31, .+4094
    (
        0x801fe063,
        Instruction::Branch(BranchOperation::Bltu, 31, 1, 0xfffff000),
    ), // bltu x31, x1, .-4096
    (
        0x00026663,
        Instruction::Branch(BranchOperation::Bltu, 4, 0, 0x0000000c),
    ), // bltu x4, x0, .+12
    (
        0xfeb56fe3,
        Instruction::Branch(BranchOperation::Bltu, 10, 11, 0xfffffffe),
    ), // bltu x10, x11, .-2
    (
        0x00d660e3,
        Instruction::Branch(BranchOperation::Bltu, 12, 13, 0x00000800),
    ), // bltu x12, x13, .+2048
    (
        0x40f76063,
        Instruction::Branch(BranchOperation::Bltu, 14, 15, 0x00000400),
    ), // bltu x14, x15, .+1024
    (
        0x7ff07fe3,
        Instruction::Branch(BranchOperation::Bgeu, 0, 31, 0x00000ffe),
    ), // bgeu x0, x31, .+4094
    (
        0x801ff063,
        Instruction::Branch(BranchOperation::Bgeu, 31, 1, 0xfffff000),
    ), // bgeu x31, x1, .-4096
    (
        0x00027663,
        Instruction::Branch(BranchOperation::Bgeu, 4, 0, 0x0000000c),
    ), // bgeu x4, x0, .+12
    (
        0xfeb57fe3,
        Instruction::Branch(BranchOperation::Bgeu, 10, 11, 0xfffffffe),
    ), // bgeu x10, x11, .-2
    (
        0x00d670e3,
        Instruction::Branch(BranchOperation::Bgeu, 12, 13, 0x00000800),
    ), // bgeu x12, x13, .+2048
    (
        0x40f77063,
        Instruction::Branch(BranchOperation::Bgeu, 14, 15, 0x00000400),
    ), // bgeu x14, x15, .+1024
];

fn branches() -> &'static [(u32, Instruction)] {
    &BRANCHES
}

static LOADS: [(u32, Instruction); 15] = [
    (
        0x7fff8003,
        Instruction::Load(LoadOperation::Lb, 0, 31, 0x000007ff),
    ), // lb x0, 2047(x31)
    (
        0x80010f83,
        Instruction::Load(LoadOperation::Lb, 31, 2, 0xfffff800),
    ), // lb x31, -2048(x2)
    (
        0xfff30283,
        Instruction::Load(LoadOperation::Lb, 5, 6, 0xffffffff),
    ), // lb x5, -1(x6)
    (
        0x7fff9003,
        Instruction::Load(LoadOperation::Lh, 0, 31, 0x000007ff),
    ), // lh x0, 2047(x31)
    (
        0x80011f83,
        Instruction::Load(LoadOperation::Lh, 31, 2, 0xfffff800),
    ), // lh x31, -2048(x2)
    (
        0xfff31283,
        Instruction::Load(LoadOperation::Lh, 5, 6, 0xffffffff),
    ), // lh x5, -1(x6)
    (
        0x7fffa003,
        Instruction::Load(LoadOperation::Lw, 0, 31, 0x000007ff),
    ), // lw x0, 2047(x31)
    (
        0x80012f83,
        Instruction::Load(LoadOperation::Lw, 31, 2, 0xfffff800),
    ), // lw x31, -2048(x2)
    (
        0xfff32283,
        Instruction::Load(LoadOperation::Lw, 5, 6, 0xffffffff),
    ), // lw x5, -1(x6)
    (
        0x7fffc003,
        Instruction::Load(LoadOperation::Lbu, 0, 31, 0x000007ff),
    ), // lbu x0, 2047(x31)
    (
        0x80014f83,
        Instruction::Load(LoadOperation::Lbu, 31, 2, 0xfffff800),
    ), // lbu x31, -2048(x2)
    (
        0xfff34283,
        Instruction::Load(LoadOperation::Lbu, 5, 6, 0xffffffff),
    ), // lbu x5, -1(x6)
    (
        0x7fffd003,
        Instruction::Load(LoadOperation::Lhu, 0, 31, 0x000007ff),
    ), // lhu x0, 2047(x31)
    (
        0x80015f83,
        Instruction::Load(LoadOperation::Lhu, 31, 2, 0xfffff800),
    ), // lhu x31, -2048(x2)
    (
        0xfff35283,
        Instruction::Load(LoadOperation::Lhu, 5, 6, 0xffffffff),
    ), // lhu x5, -1(x6)
];

fn loads() -> &'static [(u32, Instruction)] {
    &LOADS
}

static STORES: [(u32, Instruction); 15] = [
    (
        0x7e0f8fa3,
        Instruction::Store(StoreOperation::Sb, 0, 31, 0x000007ff),
    ), // sb x0, 2047(x31)
    (
        0x81f10023,
        Instruction::Store(StoreOperation::Sb, 31, 2, 0xfffff800),
    ), // sb x31, -2048(x2)
    (
        0xfe530fa3,
        Instruction::Store(StoreOperation::Sb, 5, 6, 0xffffffff),
    ), // sb x5, -1(x6)
    (
        0x00740fa3,
        Instruction::Store(StoreOperation::Sb, 7, 8, 0x0000001f),
    ), // sb x7, 31(x8)
    (
        0x02950023,
        Instruction::Store(StoreOperation::Sb, 9, 10, 0x00000020),
    ), // sb x9, 32(x10)
    (
        0x7e0f9fa3,
        Instruction::Store(StoreOperation::Sh, 0, 31, 0x000007ff),
    ), // sh x0, 2047(x31)
    (
        0x81f11023,
        Instruction::Store(StoreOperation::Sh, 31, 2, 0xfffff800),
    ), // sh x31, -2048(x2)
    (
        0xfe531fa3,
        Instruction::Store(StoreOperation::Sh, 5, 6, 0xffffffff),
    ), // sh x5, -1(x6)
    (
        0x00741fa3,
        Instruction::Store(StoreOperation::Sh, 7, 8, 0x0000001f),
    ), // sh x7, 31(x8)
    (
        0x02951023,
        Instruction::Store(StoreOperation::Sh, 9, 10, 0x00000020),
    ), // sh x9, 32(x10)
    (
        0x7e0fafa3,
        Instruction::Store(StoreOperation::Sw, 0, 31, 0x000007ff),
    ), // sw x0, 2047(x31)
    (
        0x81f12023,
        Instruction::Store(StoreOperation::Sw, 31, 2, 0xfffff800),
    ), // sw x31, -2048(x2)
    (
        0xfe532fa3,
        Instruction::Store(StoreOperation::Sw, 5, 6, 0xffffffff),
    ), // sw x5, -1(x6)
    (
        0x00742fa3,
        Instruction::Store(StoreOperation::Sw, 7, 8, 0x0000001f),
    ), // sw x7, 31(x8)
    (
        0x02952023,
        Instruction::Store(StoreOperation::Sw, 9, 10, 0x00000020),
    ), // sw x9, 32(x10)
];

fn stores() -> &'static [(u32, Instruction)] {
    &STORES
}

static OPERATIONS_ON_AN_IMMEDIATE: [(u32, Instruction); 33] = [
    (
        0x00000013,
        Instruction::Immediate(ImmediateOperation::Addi, 0, 0, 0x00000000),
    ), // addi x0, x0, 0
    (
        0x7ff08f93,
        Instruction::Immediate(ImmediateOperation::Addi, 31, 1, 0x000007ff),
    ), // addi x31, x1, 2047
    (
        0x800f8113,
        Instruction::Immediate(ImmediateOperation::Addi, 2, 31, 0xfffff800),
    ), // addi x2, x31, -2048
    (
        0xfff30293,
        Instruction::Immediate(ImmediateOperation::Addi, 5, 6, 0xffffffff),
    ), // addi x5, x6, -1
    (
        0x00002013,
        Instruction::Immediate(ImmediateOperation::Slti, 0, 0, 0x00000000),
    ), // slti x0, x0, 0
    (
        0x7ff0af93,
        Instruction::Immediate(ImmediateOperation::Slti, 31, 1, 0x000007ff),
    ), // slti x31, x1, 2047
    (
        0x800fa113,
        Instruction::Immediate(ImmediateOperation::Slti, 2, 31, 0xfffff800),
    ), // slti x2, x31, -2048
    (
        0xfff32293,
        Instruction::Immediate(ImmediateOperation::Slti, 5, 6, 0xffffffff),
    ), // slti x5, x6, -1
    (
        0x00003013,
        Instruction::Immediate(ImmediateOperation::Sltiu, 0, 0, 0x00000000),
    ), // sltiu x0, x0, 0
    (
        0x7ff0bf93,
        Instruction::Immediate(ImmediateOperation::Sltiu, 31, 1, 0x000007ff),
    ), // sltiu x31, x1, 2047
    (
        0x800fb113,
        Instruction::Immediate(ImmediateOperation::Sltiu, 2, 31, 0xfffff800),
    ), // sltiu x2, x31, -2048
    (
        0xfff33293,
        Instruction::Immediate(ImmediateOperation::Sltiu, 5, 6, 0xffffffff),
    ), // sltiu x5, x6, -1
    (
        0x00004013,
        Instruction::Immediate(ImmediateOperation::Xori, 0, 0, 0x00000000),
    ), // xori x0, x0, 0
    (
        0x7ff0cf93,
        Instruction::Immediate(ImmediateOperation::Xori, 31, 1, 0x000007ff),
    ), // xori x31, x1, 2047
    (
        0x800fc113,
        Instruction::Immediate(ImmediateOperation::Xori, 2, 31, 0xfffff800),
    ), // xori x2, x31, -2048
    (
        0xfff34293,
        Instruction::Immediate(ImmediateOperation::Xori, 5, 6, 0xffffffff),
    ), // xori x5, x6, -1
    (
        0x00006013,
        Instruction::Immediate(ImmediateOperation::Ori, 0, 0, 0x00000000),
    ), // ori x0, x0, 0
    (
        0x7ff0ef93,
        Instruction::Immediate(ImmediateOperation::Ori, 31, 1, 0x000007ff),
    ), // ori x31, x1, 2047
    (
        0x800fe113,
        Instruction::Immediate(ImmediateOperation::Ori, 2, 31, 0xfffff800),
    ), // ori x2, x31, -2048
    (
        0xfff36293,
        Instruction::Immediate(ImmediateOperation::Ori, 5, 6, 0xffffffff),
    ), // ori x5, x6, -1
    (
        0x00007013,
        Instruction::Immediate(ImmediateOperation::Andi, 0, 0, 0x00000000),
    ), // andi x0, x0, 0
    (
        0x7ff0ff93,
        Instruction::Immediate(ImmediateOperation::Andi, 31, 1, 0x000007ff),
    ), // andi x31, x1, 2047
    (
        0x800ff113,
        Instruction::Immediate(ImmediateOperation::Andi, 2, 31, 0xfffff800),
    ), // andi x2, x31, -2048
    (
        0xfff37293,
        Instruction::Immediate(ImmediateOperation::Andi, 5, 6, 0xffffffff),
    ), // andi x5, x6, -1
    (
        0x000f9093,
        Instruction::Immediate(ImmediateOperation::Slli, 1, 31, 0),
    ), // slli x1, x31, 0
    (
        0x01f11f93,
        Instruction::Immediate(ImmediateOperation::Slli, 31, 2, 31),
    ), // slli x31, x2, 31
    (
        0x01031293,
        Instruction::Immediate(ImmediateOperation::Slli, 5, 6, 16),
    ), // slli x5, x6, 16
    (
        0x000fd093,
        Instruction::Immediate(ImmediateOperation::Srli, 1, 31, 0),
    ), // srli x1, x31, 0
    (
        0x01f15f93,
        Instruction::Immediate(ImmediateOperation::Srli, 31, 2, 31),
    ), // srli x31, x2, 31
    (
        0x01035293,
        Instruction::Immediate(ImmediateOperation::Srli, 5, 6, 16),
    ), // srli x5, x6, 16
    (
        0x400fd093,
        Instruction::Immediate(ImmediateOperation::Srai, 1, 31, 0),
    ), // srai x1, x31, 0
    (
        0x41f15f93,
        Instruction::Immediate(ImmediateOperation::Srai, 31, 2, 31),
    ), // srai x31, x2, 31
    (
        0x41035293,
        Instruction::Immediate(ImmediateOperation::Srai, 5, 6, 16),
    ), // srai x5, x6, 16
];

fn operations_on_an_immediate() -> &'static [(u32, Instruction)] {
    &OPERATIONS_ON_AN_IMMEDIATE
}

static OPERATIONS_ON_TWO_REGISTERS: [(u32, Instruction); 54] = [
    (
        0x00100fb3,
        Instruction::Register(RegisterOperation::Add, 31, 0, 1),
    ), // add x31, x0, x1
    (
        0x000f80b3,
        Instruction::Register(RegisterOperation::Add, 1, 31, 0),
    ), // add x1, x31, x0
    (
        0x01f302b3,
        Instruction::Register(RegisterOperation::Add, 5, 6, 31),
    ), // add x5, x6, x31
    (
        0x40100fb3,
        Instruction::Register(RegisterOperation::Sub, 31, 0, 1),
    ), // sub x31, x0, x1
    (
        0x400f80b3,
        Instruction::Register(RegisterOperation::Sub, 1, 31, 0),
    ), // sub x1, x31, x0
    (
        0x41f302b3,
        Instruction::Register(RegisterOperation::Sub, 5, 6, 31),
    ), // sub x5, x6, x31
    (
        0x00101fb3,
        Instruction::Register(RegisterOperation::Sll, 31, 0, 1),
    ), // sll x31, x0, x1
    (
        0x000f90b3,
        Instruction::Register(RegisterOperation::Sll, 1, 31, 0),
    ), // sll x1, x31, x0
    (
        0x01f312b3,
        Instruction::Register(RegisterOperation::Sll, 5, 6, 31),
    ), // sll x5, x6, x31
    (
        0x00102fb3,
        Instruction::Register(RegisterOperation::Slt, 31, 0, 1),
    ), // slt x31, x0, x1
    (
        0x000fa0b3,
        Instruction::Register(RegisterOperation::Slt, 1, 31, 0),
    ), // slt x1, x31, x0
    (
        0x01f322b3,
        Instruction::Register(RegisterOperation::Slt, 5, 6, 31),
    ), // slt x5, x6, x31
    (
        0x00103fb3,
        Instruction::Register(RegisterOperation::Sltu, 31, 0, 1),
    ), // sltu x31, x0, x1
    (
        0x000fb0b3,
        Instruction::Register(RegisterOperation::Sltu, 1, 31, 0),
    ), // sltu x1, x31, x0
    (
        0x01f332b3,
        Instruction::Register(RegisterOperation::Sltu, 5, 6, 31),
    ), // sltu x5, x6, x31
    (
        0x00104fb3,
        Instruction::Register(RegisterOperation::Xor, 31, 0, 1),
    ), // xor x31, x0, x1
    (
        0x000fc0b3,
        Instruction::Register(RegisterOperation::Xor, 1, 31, 0),
    ), // xor x1, x31, x0
    (
        0x01f342b3,
        Instruction::Register(RegisterOperation::Xor, 5, 6, 31),
    ), // xor x5, x6, x31
    (
        0x00105fb3,
        Instruction::Register(RegisterOperation::Srl, 31, 0, 1),
    ), // srl x31, x0, x1
    (
        0x000fd0b3,
        Instruction::Register(RegisterOperation::Srl, 1, 31, 0),
    ), // srl x1, x31, x0
    (
        0x01f352b3,
        Instruction::Register(RegisterOperation::Srl, 5, 6, 31),
    ), // srl x5, x6, x31
    (
        0x40105fb3,
        Instruction::Register(RegisterOperation::Sra, 31, 0, 1),
    ), // sra x31, x0, x1
    (
        0x400fd0b3,
        Instruction::Register(RegisterOperation::Sra, 1, 31, 0),
    ), // sra x1, x31, x0
    (
        0x41f352b3,
        Instruction::Register(RegisterOperation::Sra, 5, 6, 31),
    ), // sra x5, x6, x31
    (
        0x00106fb3,
        Instruction::Register(RegisterOperation::Or, 31, 0, 1),
    ), // or x31, x0, x1
    (
        0x000fe0b3,
        Instruction::Register(RegisterOperation::Or, 1, 31, 0),
    ), // or x1, x31, x0
    (
        0x01f362b3,
        Instruction::Register(RegisterOperation::Or, 5, 6, 31),
    ), // or x5, x6, x31
    (
        0x00107fb3,
        Instruction::Register(RegisterOperation::And, 31, 0, 1),
    ), // and x31, x0, x1
    (
        0x000ff0b3,
        Instruction::Register(RegisterOperation::And, 1, 31, 0),
    ), // and x1, x31, x0
    (
        0x01f372b3,
        Instruction::Register(RegisterOperation::And, 5, 6, 31),
    ), // and x5, x6, x31
    (
        0x02100fb3,
        Instruction::Register(RegisterOperation::Mul, 31, 0, 1),
    ), // mul x31, x0, x1
    (
        0x020f80b3,
        Instruction::Register(RegisterOperation::Mul, 1, 31, 0),
    ), // mul x1, x31, x0
    (
        0x03f302b3,
        Instruction::Register(RegisterOperation::Mul, 5, 6, 31),
    ), // mul x5, x6, x31
    (
        0x02101fb3,
        Instruction::Register(RegisterOperation::Mulh, 31, 0, 1),
    ), // mulh x31, x0, x1
    (
        0x020f90b3,
        Instruction::Register(RegisterOperation::Mulh, 1, 31, 0),
    ), // mulh x1, x31, x0
    (
        0x03f312b3,
        Instruction::Register(RegisterOperation::Mulh, 5, 6, 31),
    ), // mulh x5, x6, x31
    (
        0x02102fb3,
        Instruction::Register(RegisterOperation::Mulhsu, 31, 0, 1),
    ), // mulhsu x31, x0, x1
    (
        0x020fa0b3,
        Instruction::Register(RegisterOperation::Mulhsu, 1, 31, 0),
    ), // mulhsu x1, x31, x0
    (
        0x03f322b3,
        Instruction::Register(RegisterOperation::Mulhsu, 5, 6, 31),
    ), // mulhsu x5, x6, x31
    (
        0x02103fb3,
        Instruction::Register(RegisterOperation::Mulhu, 31, 0, 1),
    ), // mulhu x31, x0, x1
    (
        0x020fb0b3,
        Instruction::Register(RegisterOperation::Mulhu, 1, 31, 0),
    ), // mulhu x1, x31, x0
    (
        0x03f332b3,
        Instruction::Register(RegisterOperation::Mulhu, 5, 6, 31),
    ), // mulhu x5, x6, x31
    (
        0x02104fb3,
        Instruction::Register(RegisterOperation::Div, 31, 0, 1),
    ), // div x31, x0, x1
    (
        0x020fc0b3,
        Instruction::Register(RegisterOperation::Div, 1, 31, 0),
    ), // div x1, x31, x0
    (
        0x03f342b3,
        Instruction::Register(RegisterOperation::Div, 5, 6, 31),
    ), // div x5, x6, x31
    (
        0x02105fb3,
        Instruction::Register(RegisterOperation::Divu, 31, 0, 1),
    ), // divu x31, x0, x1
    (
        0x020fd0b3,
        Instruction::Register(RegisterOperation::Divu, 1, 31, 0),
    ), // divu x1, x31, x0
    (
        0x03f352b3,
        Instruction::Register(RegisterOperation::Divu, 5, 6, 31),
    ), // divu x5, x6, x31
    (
        0x02106fb3,
        Instruction::Register(RegisterOperation::Rem, 31, 0, 1),
    ), // rem x31, x0, x1
    (
        0x020fe0b3,
        Instruction::Register(RegisterOperation::Rem, 1, 31, 0),
    ), // rem x1, x31, x0
    (
        0x03f362b3,
        Instruction::Register(RegisterOperation::Rem, 5, 6, 31),
    ), // rem x5, x6, x31
    (
        0x02107fb3,
        Instruction::Register(RegisterOperation::Remu, 31, 0, 1),
    ), // remu x31, x0, x1
    (
        0x020ff0b3,
        Instruction::Register(RegisterOperation::Remu, 1, 31, 0),
    ), // remu x1, x31, x0
    (
        0x03f372b3,
        Instruction::Register(RegisterOperation::Remu, 5, 6, 31),
    ), // remu x5, x6, x31
];

fn operations_on_two_registers() -> &'static [(u32, Instruction)] {
    &OPERATIONS_ON_TWO_REGISTERS
}

static FENCES_AND_CALLS: [(u32, Instruction); 6] = [
    (
        0x00000013,
        Instruction::Immediate(ImmediateOperation::Addi, 0, 0, 0),
    ), // nop
    (0x0ff0000f, Instruction::Fence(0, 0, 0x000000ff)), // fence iorw, iorw
    (0x0310000f, Instruction::Fence(0, 0, 0x00000031)), // fence rw, w
    (0x8330000f, Instruction::Fence(0, 0, 0xfffff833)), // fence.tso
    (0x00000073, Instruction::Ecall), // ecall
    (0x00100073, Instruction::Ebreak), // ebreak
];

fn fences_and_calls() -> &'static [(u32, Instruction)] {
    &FENCES_AND_CALLS
}

static NO_INSTRUCTION: [u32; 28] = [
    0x00000000, // the word 0
    0xffffffff, // all ones
    0x00000001, // a compressed instruction
    0x0000707f, // an opcode that is not used
    0x00001067, // JALR with funct3 1
    0x00002063, // a branch with funct3 2
    0x00003063, // a branch with funct3 3
    0x00003003, // a load with funct3 3 (LD of RV64)
    0x00006003, // a load with funct3 6 (LWU of RV64)
    0x00007003, // a load with funct3 7
    0x00003023, // a store with funct3 3 (SD of RV64)
    0x00007023, // a store with funct3 7
    0x02001013, // SLLI with an amount of 32 (RV64)
    0x40001013, // SLLI with funct7 32
    0x02005013, // SRLI with funct7 1
    0x60005013, // SRAI with funct7 48
    0x40001033, // SLL with funct7 32
    0x40007033, // AND with funct7 32
    0x04000033, // funct7 2
    0x80000033, // funct7 64
    0x02001013, // SLLI with funct7 1
    0x0000100f, // FENCE.I
    0x00200073, // URET
    0x30200073, // MRET
    0x10500073, // WFI
    0xc0002573, // RDCYCLE
    0x000000f3, // ECALL with rd 1
    0x00008073, // ECALL with rs1 1
];

fn no_instruction() -> &'static [u32] {
    &NO_INSTRUCTION
}

#[test]
fn words_and_instructions_are_those_of_the_assembler(rt: HostRuntime) {
    for table in [
        upper_immediates(),
        jumps(),
        branches(),
        loads(),
        stores(),
        operations_on_an_immediate(),
        operations_on_two_registers(),
        fences_and_calls(),
    ] {
        for (word, instruction) in table {
            assert!(rt; is_spelled(*word, *instruction), "{word}");
        }
    }
}

#[test]
fn other_words_spell_nothing(rt: HostRuntime) {
    for word in no_instruction() {
        assert!(rt; decode(*word).is_none(), "{word}");
    }
}
