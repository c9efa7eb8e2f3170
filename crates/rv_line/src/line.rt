// The instructions of an RV64IM program: one variant a form of the instruction set, one enum a form's mnemonics.

/// The mnemonics with three registers, of RV64I and of its M extension.
#[derive(Clone, Copy, Debug, PartialEq, Eq)]
pub enum Three {
    Add,
    Sub,
    Sll,
    Slt,
    Sltu,
    Xor,
    Srl,
    Sra,
    Or,
    And,
    Mul,
    Mulh,
    Mulhsu,
    Mulhu,
    Div,
    Divu,
    Rem,
    Remu,
    Addw,
    Subw,
    Sllw,
    Srlw,
    Sraw,
    Mulw,
    Divw,
    Divuw,
    Remw,
    Remuw,
}

/// The mnemonics with two registers and an immediate.
#[derive(Clone, Copy, Debug, PartialEq, Eq)]
pub enum Imm {
    Addi,
    Slti,
    Sltiu,
    Xori,
    Ori,
    Andi,
    Slli,
    Srli,
    Srai,
    Addiw,
    Slliw,
    Srliw,
    Sraiw,
}

/// The mnemonics that load from the block.
#[derive(Clone, Copy, Debug, PartialEq, Eq)]
pub enum Load {
    Lb,
    Lh,
    Lw,
    Ld,
    Lbu,
    Lhu,
    Lwu,
}

/// The mnemonics that store to the block.
#[derive(Clone, Copy, Debug, PartialEq, Eq)]
pub enum Store {
    Sb,
    Sh,
    Sw,
    Sd,
}

/// The mnemonics that branch.
#[derive(Clone, Copy, Debug, PartialEq, Eq)]
pub enum Branch {
    Beq,
    Bne,
    Blt,
    Bge,
    Bltu,
    Bgeu,
}

/// A `Line` is one instruction of a program; the rows, labels and comments of a text are none. Registers are
/// numbered 0 to 31. A `target` is the number of an instruction, counted from 0, and the number of instructions
/// stands for the end.
#[derive(Clone, Copy, Debug, PartialEq, Eq)]
pub enum Line {
    Three {
        code: Three,
        to: u8,
        left: u8,
        right: u8,
    },
    Imm {
        code: Imm,
        to: u8,
        from: u8,
        imm: i32,
    },
    Load {
        code: Load,
        to: u8,
        imm: i32,
        base: u8,
    },
    Store {
        code: Store,
        from: u8,
        imm: i32,
        base: u8,
    },
    Branch {
        code: Branch,
        left: u8,
        right: u8,
        target: u32,
    },
    Lui {
        to: u8,
        imm: u32,
    },
    Auipc {
        to: u8,
        imm: u32,
    },
    Jal {
        to: u8,
        target: u32,
    },
    Jalr {
        to: u8,
        imm: i32,
        base: u8,
    },
    Fence,
    Ecall,
    Ebreak,
}
