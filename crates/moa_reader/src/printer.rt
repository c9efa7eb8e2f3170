// The canonical text of a program.
ghost use Rattle.std.specs.Prelude.{◌≡◌, ◌<◌, ◌++◌, [], ◌∷◌, codes, length, reverse, IfOk, OnOk};
ghost use Rattle.std.specs.Fmt.{signed_decimal};
ghost use Rattle.std.specs.List.{AllByRecursion, flat_map};
ghost use Rattle.text_tokens.specs.declared.token.Sign.TheVariants as sign;
ghost use Rattle.moa_tree.specs.Canonical.{canonical, expr_lexemes, item_lexemes, line};
ghost use Rattle.moa_tree.specs.Pool.{item_of, list_at, operands, tree_at, trees};
ghost use Rattle.moa_tree.specs.Pools.{AreThere, IsProgram, extents_of, lists_of, nodes_of, tree_of};
ghost use Rattle.moa_tree.specs.Readings.{Reads, list_lexemes, number_lexemes};
ghost use Rattle.moa_tree.specs.Vocabulary.{Lexeme, op_word, spelling};
ghost use Rattle.moa_reader.specs.Printed.{behind, head_lexemes, spaced};
ghost use Rattle.moa_reader.specs.Lexemes.{lexeme_of_word};

use crate::words::Word;
use itoa::Buffer;
use moa_tree::{Node, Numbers, Op, Operands, Program, Statement, node_trees, parts_are_there};
use shapes_core::{Name, NoMemory};
use std::alloc::Global;

/// The canonical text of the program: the version, and then one line a statement, without parentheses.
pub fn print(alloc: Global, program: &Program) -> Result<Vec<u8>, NoMemory>
    ensures canonical { IfOk result (λ text. text.items ≡ canonical (tree_of program.now)) }
    ensures again { IfOk result (λ text. Reads text.items (tree_of program.now)) }
{
    parts_are_there();
    let mut out = Vec::new(alloc);
    append(&mut out, Word::Psi.spelling())?;
    print_number(&mut out, program.version().number())?;
    append(&mut out, b"\n")?;
    let mut waiting = Vec::new(alloc);
    for statement in program.statements() {
        print_statement(&mut out, &mut waiting, program, statement)?;
    }
    Ok(out)
}

/// One line.
fn print_statement(
    out: &mut Vec<u8>,
    waiting: &mut Vec<u32>,
    program: &Program,
    statement: &Statement,
) -> Result<(), NoMemory>
    requires program { IsProgram program.now }
    requires extents { AllByRecursion (AreThere program.now.numbers) (extents_of statement.now) }
    requires nodes { AllByRecursion (λ number. number < length program.now.nodes) (nodes_of statement.now) }
    requires empty { waiting.old.items ≡ [] }
    ensures printed { OnOk result (out.new.items ≡ out.old.items
        ++ line (item_lexemes (item_of program.now.numbers (trees program.now.numbers program.now.nodes) statement.now))) }
    ensures emptied { OnOk result (waiting.new.items ≡ []) }
{
    match statement {
        Statement::Input { name, extents, .. } => print_input(out, name, program.list(*extents)),
        Statement::Name { name, node, .. } => {
            print_definition(out, waiting, program, Word::Let, name, *node)
        }
        Statement::Output { name, node, .. } => {
            print_definition(out, waiting, program, Word::Out, name, *node)
        }
    }
}

/// The line of an input.
fn print_input(out: &mut Vec<u8>, name: &Name, extents: &[i64]) -> Result<(), NoMemory>
    ensures { OnOk result (out.new.items ≡ out.old.items
        ++ line (Lexeme.In ∷ Lexeme.Name name.now ∷ number_lexemes extents.now)) }
{
    append(out, Word::In.spelling())?;
    print_text(out, name.bytes())?;
    print_numbers(out, extents)?;
    append(out, b"\n")
}

/// The line of a name or an output.
fn print_definition(
    out: &mut Vec<u8>,
    waiting: &mut Vec<u32>,
    program: &Program,
    word: Word,
    name: &Name,
    node: u32,
) -> Result<(), NoMemory>
    requires program { IsProgram program.now }
    requires node { node < length program.now.nodes }
    requires empty { waiting.old.items ≡ [] }
    ensures printed { OnOk result (out.new.items ≡ out.old.items
        ++ line (lexeme_of_word word ∷ Lexeme.Name name.now ∷ Lexeme.Sign sign.Equal
        ∷ expr_lexemes (tree_at (trees program.now.numbers program.now.nodes) node))) }
    ensures emptied { OnOk result (waiting.new.items ≡ []) }
{
    append(out, word.spelling())?;
    print_text(out, name.bytes())?;
    print_text(out, b"=")?;
    print_expression(out, waiting, program, node)?;
    append(out, b"\n")
}

/// The expression in prefix order, over a stack of the nodes that are still to be printed.
fn print_expression(
    out: &mut Vec<u8>,
    waiting: &mut Vec<u32>,
    program: &Program,
    node: u32,
) -> Result<(), NoMemory>
    requires program { IsProgram program.now }
    requires node { node < length program.now.nodes }
    requires empty { waiting.old.items ≡ [] }
    ensures printed { OnOk result (out.new.items ≡ out.old.items
        ++ spaced (expr_lexemes (tree_at (trees program.now.numbers program.now.nodes) node))) }
    ensures emptied { OnOk result (waiting.new.items ≡ []) }
{
    node_trees();
    parts_are_there();
    waiting.push(node)?;
    while let Some(number) = waiting.pop() {
        let node = program.node(number);
        print_head(out, program, &node)?;
        push_operands(waiting, &node)?;
    }
    Ok(())
}

/// Puts the operands of a node on the stack, the first on top.
fn push_operands(waiting: &mut Vec<u32>, node: &Node) -> Result<(), NoMemory>
    ensures { OnOk result (waiting.new.items ≡ waiting.old.items ++ reverse (operands node.now)) }
{
    match node.operands() {
        Operands::None => {}
        Operands::One(of) => waiting.push(of)?,
        Operands::Two(left, right) => {
            waiting.push(right)?;
            waiting.push(left)?;
        }
    }
    Ok(())
}

/// What of a node stands before its operands.
fn print_head(out: &mut Vec<u8>, program: &Program, node: &Node) -> Result<(), NoMemory>
    requires { AllByRecursion (AreThere program.now.numbers) (lists_of node.now) }
    ensures { OnOk result (out.new.items ≡ out.old.items ++ spaced (head_lexemes program.now.numbers node.now)) }
{
    match node {
        Node::Number(value) => print_number(out, *value),
        Node::Use(name) => print_text(out, name.bytes()),
        Node::Iota(extent) => print_counted(out, Word::Iota, *extent),
        Node::One { op, .. } => print_word(out, Word::Unary(*op)),
        Node::Two { op, .. } => print_word(out, Word::Binary(*op)),
        Node::Psi { list, .. } => print_listed(out, program, Word::Psi, *list),
        Node::Take { list, .. } => print_listed(out, program, Word::Take, *list),
        Node::Drop { list, .. } => print_listed(out, program, Word::Drop, *list),
        Node::Reverse { .. } => print_word(out, Word::Reverse),
        Node::Rotate { by, .. } => print_counted(out, Word::Rotate, *by),
        Node::Transpose { .. } => print_word(out, Word::Transpose),
        Node::Permute { list, .. } => print_listed(out, program, Word::Permute, *list),
        Node::Cat { .. } => print_word(out, Word::Cat),
        Node::Reshape { list, .. } => print_listed(out, program, Word::Reshape, *list),
        Node::Ravel { .. } => print_word(out, Word::Ravel),
        Node::Outer { op, .. } => print_applied(out, Word::Outer, *op),
        Node::Inner { fold, op, .. } => {
            print_applied(out, Word::Inner, *fold)?;
            print_word(out, Word::Binary(*op))
        }
        Node::Reduce { fold, .. } => print_applied(out, Word::Reduce, *fold),
        Node::Scan { fold, .. } => print_applied(out, Word::Scan, *fold),
    }
}

/// A word and an operator.
fn print_applied(out: &mut Vec<u8>, word: Word, op: Op) -> Result<(), NoMemory>
    ensures { OnOk result (out.new.items ≡ out.old.items
        ++ (codes " " ++ (spelling (lexeme_of_word word) ++ (codes " " ++ op_word op)))) }
{
    print_word(out, word)?;
    print_word(out, Word::Binary(op))
}

/// A word and a number.
fn print_counted(out: &mut Vec<u8>, word: Word, value: i64) -> Result<(), NoMemory>
    ensures { OnOk result (out.new.items ≡ out.old.items
        ++ (codes " " ++ (spelling (lexeme_of_word word) ++ (codes " " ++ signed_decimal value)))) }
{
    print_word(out, word)?;
    print_number(out, value)
}

/// A word and a list.
fn print_listed(
    out: &mut Vec<u8>,
    program: &Program,
    word: Word,
    list: Numbers,
) -> Result<(), NoMemory>
    requires { AreThere program.now.numbers list }
    ensures { OnOk result (out.new.items ≡ out.old.items
        ++ (codes " " ++ (spelling (lexeme_of_word word) ++ spaced (list_lexemes (list_at program.now.numbers list))))) }
{
    print_word(out, word)?;
    print_list(out, program.list(list))
}

/// Numbers between `<` and `>`, with a blank before the `<`.
fn print_list(out: &mut Vec<u8>, list: &[i64]) -> Result<(), NoMemory>
    ensures { OnOk result (out.new.items ≡ out.old.items ++ spaced (list_lexemes list.now)) }
{
    append(out, b" <")?;
    print_entries(out, list)?;
    append(out, b">")
}

/// Numbers, with a blank between two.
fn print_entries(out: &mut Vec<u8>, list: &[i64]) -> Result<(), NoMemory>
    ensures { OnOk result (out.new.items ≡ out.old.items ++ behind (Lexeme.Sign sign.Less) (number_lexemes list.now)) }
{
    if let Some((first, others)) = list.split_first() {
        append_number(out, *first)?;
        print_numbers(out, others)?;
    }
    Ok(())
}

/// Numbers, with a blank before each.
fn print_numbers(out: &mut Vec<u8>, numbers: &[i64]) -> Result<(), NoMemory>
    ensures { OnOk result (out.new.items ≡ out.old.items ++ flat_map (λ value. codes " " ++ signed_decimal value) numbers.now) }
{
    for value in numbers {
        print_number(out, *value)?;
    }
    Ok(())
}

fn print_number(out: &mut Vec<u8>, value: i64) -> Result<(), NoMemory>
    ensures { OnOk result (out.new.items ≡ out.old.items ++ (codes " " ++ signed_decimal value)) }
{
    append(out, b" ")?;
    append_number(out, value)
}

fn append_number(out: &mut Vec<u8>, value: i64) -> Result<(), NoMemory>
    ensures { OnOk result (out.new.items ≡ out.old.items ++ signed_decimal value) }
{
    let mut buffer = Buffer::new();
    append(out, buffer.format(value).as_bytes())
}

fn print_word(out: &mut Vec<u8>, word: Word) -> Result<(), NoMemory>
    ensures { OnOk result (out.new.items ≡ out.old.items ++ (codes " " ++ spelling (lexeme_of_word word))) }
{
    print_text(out, word.spelling())
}

/// A blank and the text.
fn print_text(out: &mut Vec<u8>, text: &[u8]) -> Result<(), NoMemory>
    ensures { OnOk result (out.new.items ≡ out.old.items ++ (codes " " ++ text.now)) }
{
    append(out, b" ")?;
    append(out, text)
}

fn append(out: &mut Vec<u8>, text: &[u8]) -> Result<(), NoMemory>
    ensures { OnOk result (out.new.items ≡ out.old.items ++ text.now) }
{
    out.extend_from_slice(text)?;
    Ok(())
}
