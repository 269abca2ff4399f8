//! What is kept of a table: its lines, and of each how far its variable is over its bound.
ghost use Rattle.std.specs.Prelude.{◌≡◌, map, IfOk};
ghost use Rattle.nomos_simplex.specs.Sizes.{IsTable};
ghost use Rattle.nomos_simplex.specs.mirror.Keeping as keeping;
ghost use Rattle.nomos_simplex.specs.mirror.Keeping.{Shows};

use crate::bounds::{bounds_of, over_of};
use crate::table::Table;
use nomos_forms::row_list::RowList;
use nomos_ir::items::Items;
use std::alloc::{AllocError, Global};

/// A table, and of each of its lines how far the basic variable is over its bound, times the number before it: below 0
/// where it is below its bound.
#[derive(Drop)]
pub(crate) struct KeptTable {
    pub(crate) table: Table,
    pub(crate) over: Items<i128>,
}

/// How far the variable of each line is over its bound.
fn overs(alloc: Global, rows: &RowList, table: &Table) -> Result<Vec<i128>, AllocError>
    requires { IsTable rows.now table.now }
    ensures { IfOk result (λ v. v.items ≡ map (keeping.over_of rows.now table.now.nonbasic) table.now.lines) }
{
    let bounds = bounds_of(alloc, rows, table.nonbasic.as_slice())?;
    let mut list = Vec::with_capacity(alloc, table.lines.len())?;
    for line in table.lines.as_slice() {
        list.push(over_of(rows, &bounds, line))?;
    }
    Ok(list)
}

/// What is kept of a table.
pub(crate) fn keep(alloc: Global, rows: &RowList, table: Table) -> Result<KeptTable, AllocError>
    requires { IsTable rows.now table }
    ensures table { IfOk result (λ made. made.table ≡ table) }
    ensures shows { IfOk result (Shows rows.now) }
{
    let over = overs(alloc, rows, &table)?;
    Ok(KeptTable {
        table,
        over: Items::of_vec(over),
    })
}
