// The mnemonics by the form of their operands.
ghost use Rattle.std.specs.Prelude.{◌≡◌};
ghost use Rattle.rv_reader.specs.Forms.{form_among, form_of, forms, mnemonic_of};

use rv_line::{Branch, Imm, Load, Store, Three};

/// A mnemonic, by what its operands are.
#[derive(Clone, Copy)]
pub(crate) enum Form {
    Three(Three),
    Imm(Imm),
    Load(Load),
    Store(Store),
    Branch(Branch),
    Lui,
    Auipc,
    Jal,
    Jalr,
    Fence,
    Ecall,
    Ebreak,
}

impl Form {
    fn mnemonic(self) -> &'static str
        ensures { result.now ≡ mnemonic_of self }
    {
        match self {
            Form::Three(code) => code.mnemonic(),
            Form::Imm(code) => code.mnemonic(),
            Form::Load(code) => code.mnemonic(),
            Form::Store(code) => code.mnemonic(),
            Form::Branch(code) => code.mnemonic(),
            Form::Lui => "lui",
            Form::Auipc => "auipc",
            Form::Jal => "jal",
            Form::Jalr => "jalr",
            Form::Fence => "fence",
            Form::Ecall => "ecall",
            Form::Ebreak => "ebreak",
        }
    }
}

/// All of them.
#[tactic(auto, unfolding(crate::specs::Forms::forms))]
fn forms() -> [Form; 65]
    ensures { result ≡ forms }
{
    [
        Form::Three(Three::Add),
        Form::Three(Three::Sub),
        Form::Three(Three::Sll),
        Form::Three(Three::Slt),
        Form::Three(Three::Sltu),
        Form::Three(Three::Xor),
        Form::Three(Three::Srl),
        Form::Three(Three::Sra),
        Form::Three(Three::Or),
        Form::Three(Three::And),
        Form::Three(Three::Mul),
        Form::Three(Three::Mulh),
        Form::Three(Three::Mulhsu),
        Form::Three(Three::Mulhu),
        Form::Three(Three::Div),
        Form::Three(Three::Divu),
        Form::Three(Three::Rem),
        Form::Three(Three::Remu),
        Form::Three(Three::Addw),
        Form::Three(Three::Subw),
        Form::Three(Three::Sllw),
        Form::Three(Three::Srlw),
        Form::Three(Three::Sraw),
        Form::Three(Three::Mulw),
        Form::Three(Three::Divw),
        Form::Three(Three::Divuw),
        Form::Three(Three::Remw),
        Form::Three(Three::Remuw),
        Form::Imm(Imm::Addi),
        Form::Imm(Imm::Slti),
        Form::Imm(Imm::Sltiu),
        Form::Imm(Imm::Xori),
        Form::Imm(Imm::Ori),
        Form::Imm(Imm::Andi),
        Form::Imm(Imm::Slli),
        Form::Imm(Imm::Srli),
        Form::Imm(Imm::Srai),
        Form::Imm(Imm::Addiw),
        Form::Imm(Imm::Slliw),
        Form::Imm(Imm::Srliw),
        Form::Imm(Imm::Sraiw),
        Form::Load(Load::Lb),
        Form::Load(Load::Lh),
        Form::Load(Load::Lw),
        Form::Load(Load::Ld),
        Form::Load(Load::Lbu),
        Form::Load(Load::Lhu),
        Form::Load(Load::Lwu),
        Form::Store(Store::Sb),
        Form::Store(Store::Sh),
        Form::Store(Store::Sw),
        Form::Store(Store::Sd),
        Form::Branch(Branch::Beq),
        Form::Branch(Branch::Bne),
        Form::Branch(Branch::Blt),
        Form::Branch(Branch::Bge),
        Form::Branch(Branch::Bltu),
        Form::Branch(Branch::Bgeu),
        Form::Lui,
        Form::Auipc,
        Form::Jal,
        Form::Jalr,
        Form::Fence,
        Form::Ecall,
        Form::Ebreak,
    ]
}

/// The first of these forms with this mnemonic.
#[tactic(auto, using(crate::proofs::MarkLemmas::form_step))]
fn find_form(among: &[Form], word: &[u8]) -> Option<Form>
    ensures { result ≡ form_among among.now word.now }
{
    for form in among {
        if form.mnemonic().as_bytes() == word {
            return Some(*form);
        }
    }
    None
}

/// The form with this mnemonic.
pub(crate) fn form_of(word: &[u8]) -> Option<Form>
    ensures { result ≡ form_of word.now }
{
    find_form(&forms(), word)
}
