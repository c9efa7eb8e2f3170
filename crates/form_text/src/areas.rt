// Areas, and the elements that are loaded of them.
ghost use Rattle.std.specs.Prelude.{◌≡◌, [], ◌++◌, OnOk};
ghost use Rattle.form_text.specs.Spelling.{access_text, area_text, element_text, folded_text, job_text, kind_text};

use crate::entries::{push_entries, push_extents};
use crate::strides::push_strides;
use crate::words::{op_word, push_count, push_number, push_text};
use moa_tree::{Job, Op};
use normal_form::Entry;
use shapes_core::{Area, AreaKind, NoMemory};
use stride_form::Access;

fn push_kind(out: &mut Vec<u8>, kind: &AreaKind) -> Result<(), NoMemory>
    ensures { OnOk result (out.new.items ≡ out.old.items ++ kind_text kind.now) }
{
    match kind {
        AreaKind::In(name) | AreaKind::Out(name) => push_text(out, name.bytes()),
        AreaKind::Scan(number) => {
            push_text(out, b"$")?;
            push_count(out, u64::from(*number))
        }
    }
}

/// The area of this number.
pub(crate) fn push_area(out: &mut Vec<u8>, areas: &[Area], area: u32) -> Result<(), NoMemory>
    ensures { OnOk result (out.new.items ≡ out.old.items ++ area_text areas.now area) }
{
    match areas.get(area as usize) {
        None => Ok(()),
        Some(found) => push_kind(out, &found.kind),
    }
}

pub(crate) fn push_element(
    out: &mut Vec<u8>,
    areas: &[Area],
    area: u32,
    at: &[Entry],
) -> Result<(), NoMemory>
    ensures { OnOk result (out.new.items ≡ out.old.items ++ element_text areas.now (record { area = area; shape = []; at = at.now })) }
{
    push_area(out, areas, area)?;
    push_text(out, b"[")?;
    push_entries(out, at)?;
    push_text(out, b"]")
}

pub(crate) fn push_access(
    out: &mut Vec<u8>,
    areas: &[Area],
    access: &Access,
) -> Result<(), NoMemory>
    ensures { OnOk result (out.new.items ≡ out.old.items ++ access_text areas.now access.now) }
{
    push_area(out, areas, access.area)?;
    push_text(out, b"{")?;
    push_number(out, access.start)?;
    push_strides(out, access.strides.list())?;
    push_text(out, b"}")
}

/// The area of a job, with what it is.
fn push_folded(
    out: &mut Vec<u8>,
    areas: &[Area],
    area: u32,
    fold: Option<Op>,
) -> Result<(), NoMemory>
    ensures { OnOk result (out.new.items ≡ out.old.items ++ folded_text fold (area_text areas.now area)) }
{
    match fold {
        None => {
            push_text(out, b"out ")?;
            push_area(out, areas, area)
        }
        Some(op) => {
            push_area(out, areas, area)?;
            push_text(out, b" scan ")?;
            push_text(out, op_word(op))
        }
    }
}

/// What of a line stands before the term.
pub(crate) fn push_job(
    out: &mut Vec<u8>,
    areas: &[Area],
    job: Job,
    extents: &[u64],
) -> Result<(), NoMemory>
    ensures { OnOk result (out.new.items ≡ out.old.items ++ job_text areas.now job extents.now) }
{
    push_folded(out, areas, job.area, job.fold)?;
    push_text(out, b" ")?;
    push_extents(out, extents)?;
    push_text(out, b" = ")
}
