// Laws of the definitions: no body runs.
ghost use Rattle.std.specs.Prelude.{◌≡◌, ℕ, List};
ghost use Rattle.text_tokens.specs.declared.token.Position.{Position};
ghost use Rattle.moa_tree.specs.Pools.{Pools, tree_of};
ghost use Rattle.moa_tree.specs.Positions.{StandsIn};
ghost use Rattle.moa_tree.specs.Readings.{Reads};
ghost use Rattle.moa_tree.specs.Refusals.{IsRefused};
ghost use Rattle.moa_reader.specs.declared.error.ReadError.{ReadError};
ghost use Rattle.moa_reader.specs.declared.error.ReadError.TheVariants as read;
ghost use Rattle.shape_check.specs.declared.error.CheckError.{CheckError};
ghost use Rattle.shape_check.specs.Kept.{Explains};
ghost use Rattle.psi_compile.specs.Errors.{IsCause, unchecked, unread};

/// An error that is passed on has the cause that the reader or the check has for it, in the text itself.
pub fn causes_are_kept()
    ensures unread { (text : List ℕ) (error : ReadError)
        → ((at : Position) (cause : ℕ) → error ≡ read.Text at cause → IsRefused text at cause)
        → IsCause text (unread error) }
    ensures unchecked { (text : List ℕ) (pools : Pools) (error : CheckError)
        → Reads text (tree_of pools) → StandsIn text pools → Explains pools error
        → IsCause text (unchecked error) }
{}
