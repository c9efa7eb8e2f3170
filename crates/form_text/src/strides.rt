// The strides of an access.
ghost use Rattle.std.specs.Prelude.{◌≡◌, ◌++◌, OnOk};
ghost use Rattle.form_text.specs.Spelling.{stride_text, strides_text};
ghost use Rattle.form_text.specs.Strides.{lead, rest_text};

use crate::words::{push_number, push_text, push_variable};
use shapes_core::NoMemory;

/// The strides that are not 0, behind a start.
pub(crate) fn push_strides(out: &mut Vec<u8>, strides: &[(u32, i64)]) -> Result<(), NoMemory>
    ensures { OnOk result (out.new.items ≡ out.old.items ++ strides_text strides.now) }
{
    push_rest(out, true, strides)
}

/// The same behind a start or behind other strides, of which there are at most 6.
fn push_rest(out: &mut Vec<u8>, first: bool, strides: &[(u32, i64)]) -> Result<(), NoMemory>
    ensures { OnOk result (out.new.items ≡ out.old.items ++ rest_text first strides.now) }
{
    let Some((stride, others)) = strides.split_first() else {
        return Ok(());
    };
    if stride.1 == 0 {
        return push_rest(out, first, others);
    }
    push_text(out, lead(first))?;
    push_stride(out, stride.0, stride.1)?;
    push_rest(out, false, others)
}

/// What stands before a stride.
fn lead(first: bool) -> &'static [u8]
    ensures { result.now ≡ lead first }
{
    if first { b"; " } else { b" " }
}

fn push_stride(out: &mut Vec<u8>, var: u32, stride: i64) -> Result<(), NoMemory>
    ensures { OnOk result (out.new.items ≡ out.old.items ++ stride_text (var, stride)) }
{
    push_number(out, stride)?;
    push_text(out, b"*")?;
    push_variable(out, var)
}
