// Names in scope.
ghost use Rattle.std.specs.Prelude.{◌≡◌, ◌++◌, length, map, List, Option, IfOk, IfErr, OnOk};
ghost use Rattle.std.specs.Option.{option_map};
ghost use Rattle.hc_schema.specs.Binding.Scopes.{no_scope, source_slots, with_source, scope_of, is_source, is_of, is_meant, the_one, resolved, table_called};
ghost use Rattle.std.specs.List.{filter, list_any};
ghost use Rattle.hc_schema.specs.Binding.Names.{same_name};
ghost use Rattle.hc_schema.specs.Binding.Faults.{NoTable as No-table, NoColumn as No-column, Ambiguous as Is-ambiguous};
ghost use Rattle.hc_bind.specs.Answers.{FaultIs, Tells, TellsBy};
ghost use Rattle.hc_bind.specs.declared.fault.BindFault.TheVariants.{NoMemory};
ghost use Rattle.hc_bind.specs.Scopes.{slot_of, seen};

use crate::BindFault;
use crate::names::is_same;
use hc_ast::Bound;
use hc_schema::{Column, Table, Typed};
use hc_value::{Class, Str};
use sqlite_items::Boxed;
use std::alloc::Global;

/// A column in scope: what its table is called, its name, its class, and its place in a row.
#[derive(Clone, Copy)]
pub struct Slot<'a> {
    pub source: &'a str,
    pub name: &'a str,
    pub class: Class,
    pub place: u32,
}

/// What the tables in scope are called, and their columns.
#[derive(Drop)]
pub struct Scope<'a> {
    pub sources: Vec<&'a str>,
    pub slots: Vec<Slot<'a>>,
}

/// A number of columns or values as a bound statement has it.
pub fn counted(n: usize) -> Result<u32, BindFault>
    ensures ok { IfOk result (λ k. k ≡ n) }
    ensures err { IfErr result (λ e. e ≡ NoMemory) }
{
    match u32::try_from(n) {
        Ok(n) => Ok(n),
        Err(_) => Err(BindFault::NoMemory),
    }
}

/// A name that is told, or that memory ran out.
pub fn no_table(alloc: Global, name: &str) -> BindFault
    ensures { FaultIs result (No-table name.now) }
{
    match Str::from_text(alloc, name) {
        Ok(name) => BindFault::NoTable(name),
        Err(_) => BindFault::NoMemory,
    }
}

pub fn no_column(alloc: Global, name: &str) -> BindFault
    ensures { FaultIs result (No-column name.now) }
{
    match Str::from_text(alloc, name) {
        Ok(name) => BindFault::NoColumn(name),
        Err(_) => BindFault::NoMemory,
    }
}

pub fn ambiguous(alloc: Global, name: &str) -> BindFault
    ensures { FaultIs result (Is-ambiguous name.now) }
{
    match Str::from_text(alloc, name) {
        Ok(name) => BindFault::Ambiguous(name),
        Err(_) => BindFault::NoMemory,
    }
}

/// The table of a name.
pub fn table_called<'a>(
    alloc: Global,
    tables: &'a [Table],
    name: &str,
) -> Result<&'a Table, BindFault>
    ensures { TellsBy (λ t. t.now) (table_called tables.now name.now) result }
{
    let mut left = tables;
    while let Some((table, rest)) = left.split_first() {
        if is_same(table.name.as_str(), name) {
            return Ok(table);
        }
        left = rest;
    }
    Err(no_table(alloc, name))
}

impl<'a> Scope<'a> {
    /// No name is in scope.
    pub fn new(alloc: Global) -> Scope<'a>
        ensures { seen result ≡ no_scope }
    {
        Scope {
            sources: Vec::new(alloc),
            slots: Vec::new(alloc),
        }
    }

    /// A table more, which is called so.
    pub fn add(&mut self, name: &'a str, table: &'a Table) -> Result<(), BindFault>
        ensures ok { OnOk result (seen self.new ≡ with_source (seen self.old) name.now table.now) }
        ensures err { IfErr result (λ e. e ≡ NoMemory) }
    {
        push_slots(&mut self.slots, name, table.columns.as_slice())?;
        match self.sources.push(name) {
            Ok(()) => Ok(()),
            Err(_) => Err(BindFault::NoMemory),
        }
    }

    /// Whether a table in scope is called so.
    pub fn is_source(&self, name: &str) -> bool
        ensures { result ≡ is_source (seen self.now) name.now }
    {
        is_among(self.sources.as_slice(), name)
    }

    /// The one column that a name means.
    pub fn resolved(
        &self,
        alloc: Global,
        source: &Option<Boxed<Str>>,
        name: &str,
    ) -> Result<Typed, BindFault>
        ensures { Tells (resolved (seen self.now) source.now name.now) result }
    {
        match source {
            None => the_one(alloc, self.slots.as_slice(), None, name),
            Some(source) => {
                let source = source.get().as_str();
                if !self.is_source(source) {
                    return Err(no_table(alloc, source));
                }
                the_one(alloc, self.slots.as_slice(), Some(source), name)
            }
        }
    }
}

fn is_among(sources: &[&str], name: &str) -> bool
    ensures { result ≡ list_any (λ source. same_name source name.now) (map (λ source. source.now) sources.now) }
{
    for source in sources {
        if is_same(source, name) {
            return true;
        }
    }
    false
}

// The columns of a table that is called so, after those in scope.
fn push_slots<'a>(
    out: &mut Vec<Slot<'a>>,
    source: &'a str,
    columns: &'a [Column],
) -> Result<(), BindFault>
    ensures ok { OnOk result (map slot_of out.new.items ≡ map slot_of out.old.items ++ source_slots source.now (length out.old.items) columns.now) }
    ensures err { IfErr result (λ e. e ≡ NoMemory) }
{
    out.reserve(columns.len())?;
    for column in columns {
        let slot = Slot {
            source,
            name: column.name.as_str(),
            class: column.class,
            place: counted(out.as_slice().len())?,
        };
        out.push(slot)?;
    }
    Ok(())
}

/// The one table of a statement that changes it, in scope by its own name.
pub fn scope_of(alloc: Global, table: &Table) -> Result<Scope<'_>, BindFault>
    ensures ok { IfOk result (λ scope. seen scope ≡ scope_of table.now) }
    ensures err { IfErr result (λ e. e ≡ NoMemory) }
{
    let mut scope = Scope::new(alloc);
    scope.add(table.name.as_str(), table)?;
    Ok(scope)
}

/// Whether a column may be meant by a name with this table's name before it, or with none.
pub fn is_of(of: Option<&str>, slot: &Slot<'_>) -> bool
    ensures { result ≡ is_of (option_map (λ s. s.now) of.entry) (slot_of slot.now) }
{
    match of {
        Some(name) => is_same(slot.source, name),
        None => true,
    }
}

fn is_meant(of: Option<&str>, name: &str, slot: &Slot<'_>) -> bool
    ensures { result ≡ is_meant (option_map (λ s. s.now) of.entry) name.now (slot_of slot.now) }
{
    is_of(of, slot) && is_same(slot.name, name)
}

// The one column of this name, of the table of this name or of any.
fn the_one(
    alloc: Global,
    slots: &[Slot<'_>],
    of: Option<&str>,
    name: &str,
) -> Result<Typed, BindFault>
    ensures { Tells (the_one name.now (filter (is_meant (option_map (λ s. s.now) of.entry) name.now) (map slot_of slots.now))) result }
{
    let mut found: Option<Slot<'_>> = None;
    for slot in slots {
        if is_meant(of, name, slot) {
            if found.is_some() {
                return Err(ambiguous(alloc, name));
            }
            found = Some(*slot);
        }
    }
    match found {
        Some(slot) => Ok(Typed {
            value: Bound::Column(slot.place),
            class: slot.class,
        }),
        None => Err(no_column(alloc, name)),
    }
}
