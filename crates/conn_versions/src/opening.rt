//! What begins with a version.
ghost use Rattle.std.specs.Prelude.{◌≡◌, ◌≤◌, map, length, position, slice_get, zip, None, IfOk};
ghost use Rattle.std.specs.List.{enumerate_from};
ghost use Rattle.std.specs.Option.{option_copied};
ghost use Rattle.proxy_types.specs.declared.limits.TheConstants.{MOST_TABLES};
ghost use Rattle.conn_model.specs.Tables.{next_id, same_before, same_kind, same_section, same_stores, same_table, written_tables};

use conn_model::plain::Version;
use list_core::Seq;
use plan_types::{Backend, Section, Table, TableId};
use proxy_types::{KeyType, Place, Stores};
use std::alloc::{AllocError, Global};
use text_core::is_same_name;

/// A cursor for each backend, unset.
pub fn cursors(alloc: Global, backends: &[Backend]) -> Result<Seq<Option<Place>>, AllocError>
    ensures { IfOk result (λ cursors. cursors ≡ map (λ backend. None) backends.now) }
{
    let mut cursors = Seq::new(alloc);
    for _backend in backends {
        cursors.push(None)?;
    }
    Ok(cursors)
}

/// The incarnations of the tables of a version. A table that is written the same as one of the version before, if there
/// is a version before, keeps that incarnation; the others begin with the version.
pub fn table_ids(
    alloc: Global,
    version: u64,
    before: Option<&Version>,
    tables: &[Table],
) -> Result<Seq<TableId>, AllocError>
    requires { length tables.now ≤ MOST_TABLES }
    ensures { IfOk result (λ ids. ids ≡ map (next_id version (written_tables (option_copied before.entry))) (enumerate_from 0 tables.now)) }
{
    let mut ids = Seq::new(alloc);
    for (position, table) in tables.iter().enumerate() {
        ids.push(next_id(version, before, position as u16, table))?;
    }
    Ok(ids)
}

/// The incarnation of the table at a position of a version.
fn next_id(version: u64, before: Option<&Version>, position: u16, table: &Table) -> TableId
    ensures { result ≡ next_id version (written_tables (option_copied before.entry)) (position, table.now) }
{
    match same_before(before, table) {
        Some(id) => id,
        None => TableId { version, position },
    }
}

/// The incarnation of the table of the version before that is written the same.
fn same_before(before: Option<&Version>, table: &Table) -> Option<TableId>
    ensures { result ≡ same_before (written_tables (option_copied before.entry)) table.now }
{
    let version = before?;
    same_among(
        version.plan.tables.as_slice(),
        version.tables.as_slice(),
        table,
    )
}

/// The incarnation of the first of some tables that is written the same as another.
fn same_among(tables: &[Table], ids: &[TableId], table: &Table) -> Option<TableId>
    ensures { result ≡ same_before (zip tables.now ids.now) table.now }
{
    let place = same_place(tables, table)?;
    id_at(ids, place)
}

fn id_at(ids: &[TableId], place: usize) -> Option<TableId>
    ensures { result ≡ slice_get ids.now place }
{
    ids.get(place).copied()
}

fn same_place(tables: &[Table], table: &Table) -> Option<usize>
    ensures { result ≡ position (λ other. same_table other table.now) tables.now }
{
    tables.iter().position(|other| same_table(other, table))
}

/// Whether two tables are written the same.
fn same_table(a: &Table, b: &Table) -> bool
    ensures { result ≡ same_table a.now b.now }
{
    same_section(a.section, b.section)
        && is_same_name(a.name.as_slice(), b.name.as_slice())
        && same_kind(a.kind, b.kind)
        && a.size == b.size
        && same_stores(a.stores, b.stores)
        && a.expire == b.expire
}

fn same_section(a: Section, b: Section) -> bool
    ensures { result ≡ same_section a b }
{
    a == b
}

fn same_kind(a: KeyType, b: KeyType) -> bool
    ensures { result ≡ same_kind a b }
{
    a == b
}

fn same_stores(a: Stores, b: Stores) -> bool
    ensures { result ≡ same_stores a b }
{
    a.cur == b.cur && a.cnt == b.cnt
}
