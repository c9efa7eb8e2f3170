// What is known of the statements of a program, and what its names stand for.
ghost use Rattle.std.specs.Prelude.{◌≡◌, ◌<◌, ◌++◌, [], OnOk, length, replicate, slice_get, IsSome, Some};
ghost use Rattle.std.specs.List.{AllByRecursion};
ghost use Rattle.std.specs.Map.{lookup};
ghost use Rattle.std.specs.Str.{bytes_eq};
ghost use Rattle.moa_tree.specs.Pools.{nodes_of};
ghost use Rattle.moa_tree.specs.ShapeOf.{beside};
ghost use Rattle.shape_check.specs.Judged.{items_in};
ghost use Rattle.psi_rules.specs.Rows.{with_jobs, with_name, with_row};
ghost use Rattle.psi_rules.specs.Rules.{nameless};
ghost use Rattle.psi_rules.specs.Scopes.{names_at};
ghost use Rattle.psi_rules.specs.Tables.{AreMeant, IsBefore, IsKnown, IsMeant, IsNameMeantSo, area_at, end_at, meant_at, owner_at, scan_at, Tables as Known};

use indexmap::IndexMap;
use moa_tree::{Statement, parts_are_there};
use shape_check::Checked;
use shapes_core::{Name, NoMemory};
use std::alloc::Global;
use std::marker::Model;

/// What the names of a checked program stand for, and where its scans and its jobs are. It is made
/// once, and serves all jobs of the program.
#[derive(Drop)]
pub struct Tables {
    // By the number of a statement, the area of its first scan, that of its array, where it is
    // stored, and the statement to which its name leads through names of names.
    scans: Vec<u32>,
    areas: Vec<u32>,
    ends: Vec<u32>,
    // By names, the numbers of their statements.
    numbers: IndexMap<Name, u32>,
    // By the number of a job, that of its statement.
    owners: Vec<u32>,
}

/// The array for which a name stands: that of a statement, which is stored, or that of a node of a
/// statement.
#[derive(Clone, Copy)]
pub(crate) enum Meant {
    Stored(u32),
    Given { statement: u32, node: u32 },
}

impl Model for Tables {
    ghost use Rattle.psi_rules.specs.Tables.{Tables as Known};

    ghost Value = { Known };

    ghost view = { λ t. record { scans = t.scans.items; areas = t.areas.items; ends = t.ends.items; numbers = t.numbers.entries; owners = t.owners.items } };
}

impl Tables {
    /// Tables of no statement.
    pub(crate) fn new(alloc: Global) -> Tables
        ensures { result ≡ record { scans = []; areas = []; ends = []; numbers = []; owners = [] } }
    {
        Tables {
            scans: Vec::new(alloc),
            areas: Vec::new(alloc),
            ends: Vec::new(alloc),
            numbers: IndexMap::new(alloc),
            owners: Vec::new(alloc),
        }
    }

    /// Adds a statement with the area of its first scan, that of its array and the statement to
    /// which its name leads.
    pub(crate) fn push(&mut self, scan: u32, area: u32, end: u32) -> Result<(), NoMemory>
        ensures { OnOk result (self.new ≡ with_row self.old scan area end) }
    {
        self.scans.push(scan)?;
        self.areas.push(area)?;
        self.ends.push(end)?;
        Ok(())
    }

    /// Adds the name of a statement.
    pub(crate) fn declare(&mut self, name: Name, number: u32) -> Result<(), NoMemory>
        ensures { OnOk result (self.new ≡ with_name self.old name number) }
    {
        self.numbers.insert(name, number)?;
        Ok(())
    }

    /// Adds the jobs of a statement.
    pub(crate) fn own(&mut self, number: u32, count: u32) -> Result<(), NoMemory>
        ensures { OnOk result (self.new ≡ with_jobs self.old number count) }
    {
        push_each(&mut self.owners, number, count)
    }

    /// The area of the first scan of a statement.
    pub(crate) fn scan_at(&self, number: u32) -> u32
        ensures { result ≡ scan_at self.now number }
    {
        self.scans.get(number as usize).copied().unwrap_or(0)
    }

    /// The area of the array of a statement.
    pub(crate) fn area_at(&self, number: u32) -> u32
        ensures { result ≡ area_at self.now number }
    {
        self.areas.get(number as usize).copied().unwrap_or(0)
    }

    /// The statement of a job.
    pub(crate) fn owner_at(&self, number: u32) -> u32
        ensures { result ≡ owner_at self.now number }
    {
        self.owners.get(number as usize).copied().unwrap_or(0)
    }

    /// The statement to which the name of a statement leads.
    pub(crate) fn end_at(&self, number: u32) -> u32
        ensures { result ≡ end_at self.now number }
    {
        self.ends.get(number as usize).copied().unwrap_or(number)
    }

    /// The number of the statement that declares a name.
    pub(crate) fn number_of(&self, name: &Name) -> Option<u32>
        ensures { result ≡ lookup (bytes_eq name.now) self.now.numbers }
    {
        self.numbers.get(name).copied()
    }
}

/// Adds a number so many times.
fn push_each(numbers: &mut Vec<u32>, number: u32, count: u32) -> Result<(), NoMemory>
    ensures { OnOk result (numbers.new.items ≡ numbers.old.items ++ replicate count number) }
{
    for _place in 0..count {
        numbers.push(number)?;
    }
    Ok(())
}

/// The statement of this number, which is there, and its nodes too.
pub(crate) fn statement_of(checked: &Checked, number: u32) -> Statement
    requires { number < length checked.now.pools.statements }
    ensures there { slice_get checked.now.pools.statements number ≡ Some result }
    ensures nodes { AllByRecursion (λ node. node < length checked.now.pools.nodes) (nodes_of result) }
{
    parts_are_there();
    checked.program().statements()[number as usize]
}

/// The array that a statement gives to its name.
fn meant_at(number: u32, statement: &Statement) -> Meant
    ensures { result ≡ meant_at number statement.now }
{
    match statement {
        Statement::Input { .. } | Statement::Output { .. } => Meant::Stored(number),
        Statement::Name { node, .. } => Meant::Given {
            statement: number,
            node: *node,
        },
    }
}

/// The number of the statement that declares a name, as one does.
fn declared_by(tables: &Tables, name: &Name) -> u32
    requires { IsSome (lookup (bytes_eq name.now) tables.now.numbers) }
    ensures { lookup (bytes_eq name.now) tables.now.numbers ≡ Some result }
{
    tables.number_of(name).unwrap()
}

/// The array for which a name stands in a statement, before which it is declared.
pub(crate) fn meant_by(checked: &Checked, tables: &Tables, name: &Name, number: u32) -> Meant
    requires { IsKnown checked.now tables.now number name.now }
    ensures before { IsBefore checked.now.pools number result }
    ensures meant { AreMeant checked.now tables.now
        → IsMeant checked.now tables.now (beside nameless (names_at (items_in checked.now.pools) number) name.now).form result }
    ensures so { IsNameMeantSo checked.now tables.now number name.now result }
{
    let declared = declared_by(tables, name);
    let end = tables.end_at(declared);
    meant_at(end, &statement_of(checked, end))
}
