// Operational forms of normal forms.
ghost use Rattle.std.specs.Prelude.{◌≡◌, ◌≤◌, IfOk, length};
ghost use Rattle.std.specs.List.{AllByRecursion};
ghost use Rattle.std.specs.Option.{option_map};
ghost use Rattle.shapes_core.specs.Limits.{greatest_extent};
ghost use Rattle.normal_form.specs.Kept.{form_in};
ghost use Rattle.stride_form.specs.Facts.{starting};
ghost use Rattle.stride_form.specs.Kept.{op_form_in};
ghost use Rattle.stride_form.specs.Rules.{operational_on};
ghost use Rattle.stride_form.specs.Small.{fact_at};
ghost use Rattle.stride_form.specs.Writing.{IsOpPool};

use crate::facts::Fact;
use crate::op_term::OpTerm;
use crate::operational::Operational;
use crate::table::Table;
use crate::writer::Writer;
use crate::writing::write;
use normal_form::{Normal, Region};
use shapes_core::NoMemory;
use std::alloc::Global;

/// The operational form of a form: the job, the shape and the region stay, and the form is what the four rules leave of it.
///
/// # Errors
/// `NoMemory` where memory is wanted and cannot be had.
pub fn to_operational(alloc: Global, normal: &Normal) -> Result<Operational, NoMemory>
    ensures job { IfOk result (λ form. form.job ≡ normal.now.job) }
    ensures shape { IfOk result (λ form. form.shape ≡ normal.now.shape) }
    ensures region { IfOk result (λ form. form.region ≡ normal.now.region) }
    ensures tree { IfOk result (λ form. op_form_in form.terms ≡ option_map (operational_on normal.now.region) (form_in normal.now.terms)) }
{
    let _ = normal.empty();
    let terms = terms_of(alloc, normal)?;
    Ok(Operational::new(normal.job(), normal.shape(), normal.region(), terms))
}

/// The terms of the operational form.
fn terms_of(alloc: Global, normal: &Normal) -> Result<Vec<OpTerm>, NoMemory>
    ensures tree { IfOk result (λ terms. op_form_in terms.items ≡ option_map (operational_on normal.now.region) (form_in normal.now.terms)) }
    ensures pool { IfOk result (λ terms. IsOpPool terms.items) }
{
    if normal.empty() {
        return Ok(Vec::new(alloc));
    }
    let facts = starting(alloc, &normal.region())?;
    let mut writer = Writer::new(alloc, facts);
    let _top = write(alloc, normal, &mut writer, normal.top())?;
    Ok(writer.into_terms())
}

/// What is known of the variables of a job on a region.
fn starting(alloc: Global, region: &Region) -> Result<Table, NoMemory>
    requires { AllByRecursion (λ pair. (pair.0 ≤ greatest_extent) × (pair.1 ≤ greatest_extent)) region.now }
    ensures { IfOk result (λ facts. fact_at facts ≡ starting region.now) }
{
    let mut facts = Table::new(alloc);
    let mut var = 0;
    for (low, high) in region.list() {
        facts.set(
            var,
            Fact::Range {
                low: *low,
                high: *high,
            },
        )?;
        var += 1;
    }
    Ok(facts)
}
