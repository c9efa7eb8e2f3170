// The verdict on one expression.
ghost use Rattle.std.specs.Prelude.{◌≡◌, ◌<◌, ℕ, IfOk, OnOk, length, map, slice_get};
ghost use Rattle.moa_tree.specs.Pool.{walk_of};
ghost use Rattle.moa_tree.specs.Pools.{IsProgram};
ghost use Rattle.moa_tree.specs.ShapeOf.{shape_of};
ghost use Rattle.moa_tree.specs.Subexpressions.{subexpressions};
ghost use Rattle.shape_check.specs.Costs.{Prices, shapes_of};
ghost use Rattle.shape_check.specs.Judged.{AreNames, IsJudged, node_tree};
ghost use Rattle.shape_check.specs.Kept.{shapes_at};
ghost use Rattle.shape_check.specs.Operated.{IsOperated, error_at};
ghost use Rattle.shape_check.specs.Written.{IsKept, IsSettled, AreWritten, occurs};

use crate::broken::Broken;
use crate::dispatch::{declared, operate};
use crate::error::CheckError;
use crate::known::Known;
use crate::names::Names;
use crate::parts::{Parts, node_laws, parts_of};
use moa_tree::Program;
use shapes_core::Shape;
use text_tokens::Position;

/// What stands for an operand that an operator has not: it counts nothing.
fn absent() -> Known
    ensures nodes { result.nodes ≡ 0 }
    ensures work { result.work ≡ 0 }
{
    Known {
        shape: Shape::new(&[]).unwrap(),
        nodes: 0,
        work: 0,
    }
}

/// What is broken, with its position.
fn error_at(at: Position, broken: Broken) -> CheckError
    ensures { result ≡ error_at at broken }
{
    match broken {
        Broken::Rule(rule) => CheckError::Rule { at, rule },
        Broken::Limit(which, value) => CheckError::Limit {
            at: Some(at),
            which,
            value,
        },
    }
}

/// Writes the shape of a node that is accepted, or says where it is that something is broken.
fn settle(
    program: &Program,
    shapes: &mut [Shape],
    number: u32,
    outcome: Result<Known, Broken>,
) -> Result<Known, CheckError>
    requires program { IsProgram program.now }
    requires there { number < length program.now.nodes }
    requires sized { length shapes.old ≡ length program.now.nodes }
    ensures judged { (prices : Prices) → IsOperated prices (node_tree program.now number) outcome
        → IsJudged program.now prices number result }
    ensures settled { IsSettled number shapes.old shapes.new result }
{
    node_laws(program);
    match outcome {
        Ok(known) => {
            shapes[number as usize] = known.shape;
            Ok(known)
        }
        Err(broken) => Err(error_at(program.position(number), broken)),
    }
}

/// The verdict on a node after those on its operands, from the left.
fn judge_node(
    program: &Program,
    names: &Names,
    shapes: &mut [Shape],
    number: u32,
) -> Result<Known, CheckError>
    requires program { IsProgram program.now }
    requires there { number < length program.now.nodes }
    requires sized { length shapes.old ≡ length program.now.nodes }
    ensures judged { (prices : Prices) → AreNames names.now prices → IsJudged program.now prices number result }
    ensures written { (prices : Prices) → AreNames names.now prices → OnOk result (AreWritten program.now prices (walk_of program.now.nodes number) shapes.new) }
    ensures kept { IsKept (walk_of program.now.nodes number) shapes.old shapes.new }
{
    node_laws(program);
    match parts_of(program, number) {
        Parts::Name(name) => settle(program, shapes, number, declared(names, name)),
        Parts::None => settle(
            program,
            shapes,
            number,
            operate(program, number, &absent(), &absent()),
        ),
        Parts::One(of) => {
            let known = judge_node(program, names, shapes, of)?;
            settle(
                program,
                shapes,
                number,
                operate(program, number, &known, &absent()),
            )
        }
        Parts::Two(left, right) => {
            let first = judge_node(program, names, shapes, left)?;
            let second = judge_node(program, names, shapes, right)?;
            settle(
                program,
                shapes,
                number,
                operate(program, number, &first, &second),
            )
        }
    }
}

/// The shape and the counts of the expression of a node, or the first rule or limit that fails in it, with its position:
/// operands from the left before their operator, an operator's rules in order before the limits of its result. Writes
/// the shape of each of its nodes. It takes no memory.
pub(crate) fn judge(
    program: &Program,
    names: &Names,
    shapes: &mut [Shape],
    number: u32,
) -> Result<Known, CheckError>
    requires there { number < length program.now.nodes }
    requires each { length shapes.old ≡ length program.now.nodes }
    ensures judged { (prices : Prices) → AreNames names.now prices → IsJudged program.now prices number result }
    ensures shaped { (prices : Prices) → AreNames names.now prices → IfOk result (λ known.
        shapes_at shapes.new (walk_of program.now.nodes number) ≡ map (shape_of (shapes_of prices)) (subexpressions (node_tree program.now number))) }
    ensures kept { (n : ℕ) → occurs n (walk_of program.now.nodes number) ≡ 0 → slice_get shapes.new n ≡ slice_get shapes.old n }
    ensures sized { length shapes.new ≡ length shapes.old }
{
    let _statements = program.statements();
    node_laws(program);
    judge_node(program, names, shapes, number)
}
