// What of a line is still to be put.
ghost use Rattle.std.specs.Prelude.{◌≡◌, [], ◌∷◌, ◌++◌, reverse, OnOk};
ghost use Rattle.form_text.specs.declared.pieces.Piece.TheVariants as piece;
ghost use Rattle.form_text.specs.Pieces.{after_head, numbers};

use shapes_core::NoMemory;

/// The operands of a term, by their numbers.
#[derive(Clone, Copy)]
pub(crate) enum Operands {
    None,
    One(u32),
    Two(u32, u32),
}

/// A term by its number, or a sign behind one.
#[derive(Clone, Copy)]
pub(crate) enum Piece {
    Of(u32),
    Comma,
    Close,
}

/// Puts what follows the head of a term on the stack, the first on top.
pub(crate) fn push_after(waiting: &mut Vec<Piece>, operands: Operands) -> Result<(), NoMemory>
    ensures { OnOk result (waiting.new.items ≡ waiting.old.items ++ reverse (after_head (numbers operands))) }
{
    match operands {
        Operands::None => Ok(()),
        Operands::One(of) => push_last(waiting, of),
        Operands::Two(first, second) => {
            push_last(waiting, second)?;
            waiting.push(Piece::Comma)?;
            waiting.push(Piece::Of(first))?;
            Ok(())
        }
    }
}

/// The last operand, with what closes the term.
fn push_last(waiting: &mut Vec<Piece>, of: u32) -> Result<(), NoMemory>
    ensures { OnOk result (waiting.new.items ≡ waiting.old.items ++ (piece.Close ∷ piece.Of of ∷ [])) }
{
    waiting.push(Piece::Close)?;
    waiting.push(Piece::Of(of))?;
    Ok(())
}
