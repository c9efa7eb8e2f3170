// Expressions, read from the left over a stack of the forms that have begun.
ghost use Rattle.std.specs.Prelude.{◌≡◌, ◌≢◌, ◌≤◌, ◌<◌, ◌+◌, ◌*◌, ℕ, List, [], ◌∷◌, length, IfErr, IfOk, OnOk, false};
ghost use Rattle.moa_tree.specs.Expected.{Want};
ghost use Rattle.moa_tree.specs.Outcome.{is_stuck};
ghost use Rattle.moa_tree.specs.Pools.{Pools};
ghost use Rattle.moa_reader.specs.Build.{IsOpen};
ghost use Rattle.shapes_core.specs.Limits.{most_items};
ghost use Rattle.moa_reader.specs.Outcomes.{IsRefusedWith};
ghost use Rattle.moa_reader.specs.Rooms.{HasRoom, Spends, begun, built};
ghost use Rattle.moa_reader.specs.Sources.{Ahead, all};
ghost use Rattle.moa_reader.specs.Standing.{IsRead, IsWanted, Stands};

use crate::error::ReadError;
use crate::forms::{OneForm, TwoForm};
use crate::frames::{Frame, Frames};
use crate::growth::pools_keep;
use crate::heads::{Head, begin_expression};
use crate::pools::Builder;
use crate::source::Source;
use std::alloc::Global;
use text_tokens::{Position, Sign};

/// No expression stands deeper.
const DEEPEST: usize = 128;

/// Reads an expression, and gives its node.
pub(crate) fn expression(
    alloc: Global,
    source: &mut Source<'_>,
    builder: &mut Builder,
) -> Result<u32, ReadError>
    requires open { IsOpen [] [] builder.old }
    requires room { HasRoom 0 source.old builder.old }
    ensures read { IfOk result (λ number. IsRead source.old builder.old [] number source.new builder.new) }
    ensures spent { OnOk result (Spends 0 source.old builder.old 0 source.new builder.new) }
    ensures fewer { OnOk result (length source.new.behind ≤ length source.old.behind) }
    ensures refused { IfErr result (λ error. (wants : List Want) → is_stuck wants ≡ false
        → IsRefusedWith (Want.AnExpr 1 ∷ wants) (all source.old) error) }
{
    let mut frames = Frames::new(alloc);
    let mut head = begin(source, builder, &frames)?;
    'forms: loop {
        head = match head {
            Head::Begun(frame) => {
                frames.push(frame)?;
                begin(source, builder, &frames)?
            }
            Head::Whole(node) => match frames.pop() {
                None => return Ok(node),
                Some(frame) => close(source, builder, frame, node)?,
            },
        };
    }
}

/// Reads what the expression begins with that is wanted in these forms.
fn begin(source: &mut Source<'_>, builder: &mut Builder, frames: &Frames) -> Result<Head, ReadError>
    requires { HasRoom 0 source.old builder.old }
    ensures stands { IfOk result (λ head. (first : Ahead) (before : Pools) → IsWanted first before frames.now source.old builder.old
        → Stands first before frames.now head source.new builder.new) }
    ensures spent { IfOk result (λ head. Spends 0 source.old builder.old (begun head) source.new builder.new) }
    ensures fewer { OnOk result (length source.new.behind < length source.old.behind) }
    ensures refused { IfErr result (λ error. (first : Ahead) (before : Pools) → IsWanted first before frames.now source.old builder.old
        → (wants : List Want) → is_stuck wants ≡ false → IsRefusedWith (Want.AnExpr 1 ∷ wants) (all first) error) }
{
    pools_keep();
    begin_expression(source, builder, frames.len() < DEEPEST)
}

/// Goes on behind an operand of a form, which is this node: completes the form, or begins it anew around its second operand.
fn close(
    source: &mut Source<'_>,
    builder: &mut Builder,
    frame: Frame,
    node: u32,
) -> Result<Head, ReadError>
    requires { HasRoom 1 source.old builder.old }
    ensures stands { IfOk result (λ head. (first : Ahead) (before : Pools) (frames : List Frame)
        → IsRead first before (frame ∷ frames) node source.old builder.old → Stands first before frames head source.new builder.new) }
    ensures spent { IfOk result (λ head. Spends 1 source.old builder.old (begun head) source.new builder.new) }
    ensures fewer { OnOk result (length source.new.behind ≤ length source.old.behind) }
    ensures refused { IfErr result (λ error. (first : Ahead) (before : Pools) (frames : List Frame)
        → IsRead first before (frame ∷ frames) node source.old builder.old
        → (wants : List Want) → is_stuck wants ≡ false → IsRefusedWith (Want.AnExpr 1 ∷ wants) (all first) error) }
{
    match frame {
        Frame::Parentheses => close_parentheses(source, node),
        Frame::One { form, at } => close_one(builder, form, at, node),
        Frame::First { form, at } => Ok(Head::Begun(Frame::Second {
            form,
            at,
            left: node,
        })),
        Frame::Second { form, at, left } => close_two(builder, form, at, left, node),
    }
}

fn close_parentheses(source: &mut Source<'_>, node: u32) -> Result<Head, ReadError>
    ensures stands { IfOk result (λ head. (first : Ahead) (before pools : Pools) (frames : List Frame)
        → IsRead first before (Frame.Parentheses ∷ frames) node source.old pools → Stands first before frames head source.new pools) }
    ensures spent { IfOk result (λ head. (pools : Pools) → Spends 1 source.old pools (begun head) source.new pools) }
    ensures fewer { OnOk result (length source.new.behind ≤ length source.old.behind) }
    ensures refused { IfErr result (λ error. (first : Ahead) (before pools : Pools) (frames : List Frame)
        → IsRead first before (Frame.Parentheses ∷ frames) node source.old pools
        → (wants : List Want) → is_stuck wants ≡ false → IsRefusedWith (Want.AnExpr 1 ∷ wants) (all first) error) }
{
    source.sign(Sign::Close, 10)?;
    Ok(Head::Whole(node))
}

fn close_one(builder: &mut Builder, form: OneForm, at: Position, of: u32) -> Result<Head, ReadError>
    requires { built builder.old < most_items }
    ensures stands { IfOk result (λ head. (first here : Ahead) (before : Pools) (frames : List Frame)
        → IsRead first before (Frame.One form at ∷ frames) of here builder.old → Stands first before frames head here builder.new) }
    ensures spent { IfOk result (λ head. begun head + built builder.new ≡ 1 + built builder.old) }
    ensures refused { IfErr result (λ error. error ≡ ReadError.Memory) }
{
    pools_keep();
    let node = builder.node(form.node(of), at)?;
    Ok(Head::Whole(node))
}

fn close_two(
    builder: &mut Builder,
    form: TwoForm,
    at: Position,
    left: u32,
    right: u32,
) -> Result<Head, ReadError>
    requires { built builder.old < most_items }
    ensures stands { IfOk result (λ head. (first here : Ahead) (before : Pools) (frames : List Frame)
        → IsRead first before (Frame.Second form at left ∷ frames) right here builder.old → Stands first before frames head here builder.new) }
    ensures spent { IfOk result (λ head. begun head + built builder.new ≡ 1 + built builder.old) }
    ensures refused { IfErr result (λ error. error ≡ ReadError.Memory) }
{
    pools_keep();
    let node = builder.node(form.node(left, right), at)?;
    Ok(Head::Whole(node))
}
