// What an expression begins with.
ghost use Rattle.std.specs.Prelude.{◌≡◌, ℕ, List, ◌∷◌, ◌==◌, Bool, false, true, not, IfErr, IfOk, IsTrue, OnOk};
ghost use Rattle.moa_tree.specs.Expected.{Want, on_expr};
ghost use Rattle.moa_tree.specs.Outcome.{is_stuck};
ghost use Rattle.moa_tree.specs.Vocabulary.{Lexeme as Terminal};
ghost use Rattle.moa_tree.specs.Pools.{Pools};
ghost use Rattle.moa_reader.specs.Forms.{lexeme_of_fold, lexeme_of_list};
ghost use Rattle.moa_reader.specs.Heads.{Begins, ReadsHead, begins};
ghost use Rattle.moa_reader.specs.Lexemes.{lexeme_of_word, lexeme_read};
ghost use Rattle.moa_reader.specs.Outcomes.{IsRefusedWith};
ghost use Rattle.moa_reader.specs.Rooms.{HasRoom, Spends, begun};
ghost use Rattle.moa_reader.specs.Sources.{all};

use crate::error::ReadError;
use crate::forms::{FoldForm, ListForm, OneForm, TwoForm};
use crate::frames::Frame;
use crate::lists::list;
use crate::parts::{count, fold, operator};
use crate::pools::Builder;
use crate::source::Source;
use crate::words::{Lexeme, Word};
use moa_tree::Node;
use text_tokens::Position;

/// What an expression begins with: all of it, or a form whose operand comes next.
#[derive(Clone, Copy)]
pub(crate) enum Head {
    Whole(u32),
    Begun(Frame),
}

/// Reads what an expression begins with, which is refused where it would stand too deep.
#[tactic(auto, using(crate::proofs::HeadLemmas::begins_none, crate::proofs::HeadLemmas::begins_on, crate::proofs::HeadLemmas::too_deep))]
pub(crate) fn begin_expression(
    source: &mut Source<'_>,
    builder: &mut Builder,
    is_shallow: bool,
) -> Result<Head, ReadError>
    requires { HasRoom 0 source.old builder.old }
    ensures head { IfOk result (λ head. IsTrue is_shallow × Begins source.old builder.old head source.new builder.new) }
    ensures spent { IfOk result (λ head. Spends 0 source.old builder.old (begun head) source.new builder.new) }
    ensures refused { IfErr result (λ error. (depth : ℕ) (wants : List Want) → (depth == 129) ≡ not is_shallow
        → is_stuck wants ≡ false → IsRefusedWith (Want.AnExpr depth ∷ wants) (all source.old) error) }
{
    if !source.lexeme().begins_expression() {
        return Err(source.refusal(9));
    }
    let at = source.at();
    if !is_shallow {
        return Err(ReadError::Text { at, cause: 14 });
    }
    let lexeme = source.lexeme();
    source.advance();
    rest(source, builder, lexeme, at)
}

/// Reads the rest of what an expression begins with, behind its first lexeme.
#[tactic(auto, using(crate::proofs::HeadLemmas::number_read, crate::proofs::HeadLemmas::name_read))]
fn rest(
    source: &mut Source<'_>,
    builder: &mut Builder,
    lexeme: Lexeme,
    at: Position,
) -> Result<Head, ReadError>
    requires begins { begins (lexeme_read lexeme) ≡ true }
    requires room { HasRoom 1 source.old builder.old }
    ensures head { IfOk result (λ head. ReadsHead (lexeme_read lexeme) at source.old builder.old head source.new builder.new) }
    ensures spent { IfOk result (λ head. Spends 1 source.old builder.old (begun head) source.new builder.new) }
    ensures refused { IfErr result (λ error. (depth : ℕ) (wants : List Want) → is_stuck wants ≡ false
        → IsRefusedWith (on_expr depth wants (lexeme_read lexeme)) (all source.old) error) }
{
    match lexeme {
        Lexeme::Number(value) => Ok(Head::Whole(builder.node(Node::Number(value), at)?)),
        Lexeme::Name(name) => Ok(Head::Whole(builder.node(Node::Use(name), at)?)),
        Lexeme::Word(word) => form(source, builder, word, at),
        _ => Ok(Head::Begun(Frame::Parentheses)),
    }
}

/// Reads the rest of a form up to its first operand, behind its word.
fn form(
    source: &mut Source<'_>,
    builder: &mut Builder,
    word: Word,
    at: Position,
) -> Result<Head, ReadError>
    requires begins { begins (lexeme_of_word word) ≡ true }
    requires room { HasRoom 1 source.old builder.old }
    ensures head { IfOk result (λ head. ReadsHead (lexeme_of_word word) at source.old builder.old head source.new builder.new) }
    ensures spent { IfOk result (λ head. Spends 1 source.old builder.old (begun head) source.new builder.new) }
    ensures refused { IfErr result (λ error. (depth : ℕ) (wants : List Want) → is_stuck wants ≡ false
        → IsRefusedWith (on_expr depth wants (lexeme_of_word word)) (all source.old) error) }
{
    match word {
        Word::Unary(op) => Ok(one(OneForm::Unary(op), at)),
        Word::Reverse => Ok(one(OneForm::Reverse, at)),
        Word::Transpose => Ok(one(OneForm::Transpose, at)),
        Word::Ravel => Ok(one(OneForm::Ravel, at)),
        Word::Binary(op) => Ok(two(TwoForm::Binary(op), at)),
        Word::Cat => Ok(two(TwoForm::Cat, at)),
        Word::Psi => listed(source, builder, ListForm::Psi, at),
        Word::Take => listed(source, builder, ListForm::Take, at),
        Word::Drop => listed(source, builder, ListForm::Drop, at),
        Word::Permute => listed(source, builder, ListForm::Permute, at),
        Word::Reshape => listed(source, builder, ListForm::Reshape, at),
        Word::Reduce => folded(source, FoldForm::Reduce, at),
        Word::Scan => folded(source, FoldForm::Scan, at),
        Word::Iota => iota(source, builder, at),
        Word::Rotate => rotate(source, at),
        Word::Outer => outer(source, at),
        Word::Inner => inner(source, at),
        Word::In | Word::Let | Word::Out => Err(source.refusal(9)),
    }
}

#[tactic(auto, using(crate::proofs::HeadLemmas::listed_begins, crate::proofs::HeadLemmas::listed_refused))]
fn listed(
    source: &mut Source<'_>,
    builder: &mut Builder,
    form: ListForm,
    at: Position,
) -> Result<Head, ReadError>
    requires { HasRoom 1 source.old builder.old }
    ensures head { IfOk result (λ head. ReadsHead (lexeme_of_list form) at source.old builder.old head source.new builder.new) }
    ensures spent { IfOk result (λ head. Spends 1 source.old builder.old (begun head) source.new builder.new) }
    ensures refused { IfErr result (λ error. (depth : ℕ) (wants : List Want) → is_stuck wants ≡ false
        → IsRefusedWith (on_expr depth wants (lexeme_of_list form)) (all source.old) error) }
{
    let list = list(source, builder)?;
    Ok(one(form.with(list), at))
}

#[tactic(auto, using(crate::proofs::HeadLemmas::folded_begins, crate::proofs::HeadLemmas::folded_refused))]
fn folded(source: &mut Source<'_>, form: FoldForm, at: Position) -> Result<Head, ReadError>
    ensures head { IfOk result (λ head. (pools : Pools) → ReadsHead (lexeme_of_fold form) at source.old pools head source.new pools) }
    ensures spent { IfOk result (λ head. (pools : Pools) → Spends 1 source.old pools (begun head) source.new pools) }
    ensures refused { IfErr result (λ error. (depth : ℕ) (wants : List Want) → is_stuck wants ≡ false
        → IsRefusedWith (on_expr depth wants (lexeme_of_fold form)) (all source.old) error) }
{
    let op = fold(source)?;
    Ok(one(form.with(op), at))
}

#[tactic(auto, using(crate::proofs::HeadLemmas::iota_read))]
fn iota(source: &mut Source<'_>, builder: &mut Builder, at: Position) -> Result<Head, ReadError>
    requires { HasRoom 1 source.old builder.old }
    ensures head { IfOk result (λ head. ReadsHead Terminal.Iota at source.old builder.old head source.new builder.new) }
    ensures spent { IfOk result (λ head. Spends 1 source.old builder.old (begun head) source.new builder.new) }
    ensures refused { IfErr result (λ error. (depth : ℕ) (wants : List Want) → is_stuck wants ≡ false
        → IsRefusedWith (on_expr depth wants Terminal.Iota) (all source.old) error) }
{
    let extent = count(source)?;
    let number = builder.node(Node::Iota(extent), at)?;
    Ok(Head::Whole(number))
}

#[tactic(auto, using(crate::proofs::HeadLemmas::rotate_begins))]
fn rotate(source: &mut Source<'_>, at: Position) -> Result<Head, ReadError>
    ensures head { IfOk result (λ head. (pools : Pools) → ReadsHead Terminal.Rotate at source.old pools head source.new pools) }
    ensures spent { IfOk result (λ head. (pools : Pools) → Spends 1 source.old pools (begun head) source.new pools) }
    ensures refused { IfErr result (λ error. (depth : ℕ) (wants : List Want) → is_stuck wants ≡ false
        → IsRefusedWith (on_expr depth wants Terminal.Rotate) (all source.old) error) }
{
    let by = count(source)?;
    Ok(one(OneForm::Rotate(by), at))
}

#[tactic(auto, using(crate::proofs::HeadLemmas::outer_begins))]
fn outer(source: &mut Source<'_>, at: Position) -> Result<Head, ReadError>
    ensures head { IfOk result (λ head. (pools : Pools) → ReadsHead Terminal.Outer at source.old pools head source.new pools) }
    ensures spent { IfOk result (λ head. (pools : Pools) → Spends 1 source.old pools (begun head) source.new pools) }
    ensures refused { IfErr result (λ error. (depth : ℕ) (wants : List Want) → is_stuck wants ≡ false
        → IsRefusedWith (on_expr depth wants Terminal.Outer) (all source.old) error) }
{
    let op = operator(source)?;
    Ok(two(TwoForm::Outer(op), at))
}

#[tactic(auto, using(crate::proofs::HeadLemmas::inner_begins))]
fn inner(source: &mut Source<'_>, at: Position) -> Result<Head, ReadError>
    ensures head { IfOk result (λ head. (pools : Pools) → ReadsHead Terminal.Inner at source.old pools head source.new pools) }
    ensures spent { IfOk result (λ head. (pools : Pools) → Spends 1 source.old pools (begun head) source.new pools) }
    ensures refused { IfErr result (λ error. (depth : ℕ) (wants : List Want) → is_stuck wants ≡ false
        → IsRefusedWith (on_expr depth wants Terminal.Inner) (all source.old) error) }
{
    let fold = fold(source)?;
    let op = operator(source)?;
    Ok(two(TwoForm::Inner { fold, op }, at))
}

fn one(form: OneForm, at: Position) -> Head
    ensures { result ≡ Head.Begun (Frame.One form at) }
{
    Head::Begun(Frame::One { form, at })
}

fn two(form: TwoForm, at: Position) -> Head
    ensures { result ≡ Head.Begun (Frame.First form at) }
{
    Head::Begun(Frame::First { form, at })
}
