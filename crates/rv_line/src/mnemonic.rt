// The spelling of the mnemonics.
ghost use Rattle.std.specs.Prelude.{◌≡◌};
ghost use Rattle.rv_line.specs.Mnemonics.{
  three_mnemonic,
  imm_mnemonic,
  load_mnemonic,
  store_mnemonic,
  branch_mnemonic,
};

use crate::line::{Branch, Imm, Load, Store, Three};

impl Three {
    /// The mnemonic, in lower case.
    pub fn mnemonic(self) -> &'static str
        ensures { result.now ≡ three_mnemonic self }
    {
        match self {
            Three::Add => "add",
            Three::Sub => "sub",
            Three::Sll => "sll",
            Three::Slt => "slt",
            Three::Sltu => "sltu",
            Three::Xor => "xor",
            Three::Srl => "srl",
            Three::Sra => "sra",
            Three::Or => "or",
            Three::And => "and",
            Three::Mul => "mul",
            Three::Mulh => "mulh",
            Three::Mulhsu => "mulhsu",
            Three::Mulhu => "mulhu",
            Three::Div => "div",
            Three::Divu => "divu",
            Three::Rem => "rem",
            Three::Remu => "remu",
            Three::Addw => "addw",
            Three::Subw => "subw",
            Three::Sllw => "sllw",
            Three::Srlw => "srlw",
            Three::Sraw => "sraw",
            Three::Mulw => "mulw",
            Three::Divw => "divw",
            Three::Divuw => "divuw",
            Three::Remw => "remw",
            Three::Remuw => "remuw",
        }
    }
}

impl Imm {
    /// The mnemonic, in lower case.
    pub fn mnemonic(self) -> &'static str
        ensures { result.now ≡ imm_mnemonic self }
    {
        match self {
            Imm::Addi => "addi",
            Imm::Slti => "slti",
            Imm::Sltiu => "sltiu",
            Imm::Xori => "xori",
            Imm::Ori => "ori",
            Imm::Andi => "andi",
            Imm::Slli => "slli",
            Imm::Srli => "srli",
            Imm::Srai => "srai",
            Imm::Addiw => "addiw",
            Imm::Slliw => "slliw",
            Imm::Srliw => "srliw",
            Imm::Sraiw => "sraiw",
        }
    }
}

impl Load {
    /// The mnemonic, in lower case.
    pub fn mnemonic(self) -> &'static str
        ensures { result.now ≡ load_mnemonic self }
    {
        match self {
            Load::Lb => "lb",
            Load::Lh => "lh",
            Load::Lw => "lw",
            Load::Ld => "ld",
            Load::Lbu => "lbu",
            Load::Lhu => "lhu",
            Load::Lwu => "lwu",
        }
    }
}

impl Store {
    /// The mnemonic, in lower case.
    pub fn mnemonic(self) -> &'static str
        ensures { result.now ≡ store_mnemonic self }
    {
        match self {
            Store::Sb => "sb",
            Store::Sh => "sh",
            Store::Sw => "sw",
            Store::Sd => "sd",
        }
    }
}

impl Branch {
    /// The mnemonic, in lower case.
    pub fn mnemonic(self) -> &'static str
        ensures { result.now ≡ branch_mnemonic self }
    {
        match self {
            Branch::Beq => "beq",
            Branch::Bne => "bne",
            Branch::Blt => "blt",
            Branch::Bge => "bge",
            Branch::Bltu => "bltu",
            Branch::Bgeu => "bgeu",
        }
    }
}
