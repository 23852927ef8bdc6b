ghost use Rattle.std.specs.Prelude.{◌≡◌, ◌<◌, ◌^◌, IfOk, OnOk, length, map};
ghost use Rattle.ch_bind.specs.Shapes.{AreShapes, IsShape, shape_of};

use ch_cells::{Bytes, Header, Kind, Listed, Memory};
use ch_tables::Table;
use std::alloc::Global;

/// What binding has to know of a table: its name, and the names and the kinds of its columns.
pub struct TableShape {
    pub name: Bytes,
    pub header: Header,
    pub kinds: Listed<Kind>,
}

impl Drop for TableShape {
    fn drop(self) {
        let TableShape {
            name: _,
            header: _,
            kinds: _,
        } = self;
    }
}

fn header_of(alloc: Global, header: &[Bytes]) -> Result<Header, Memory>
    ensures { IfOk result (λ copy. copy ≡ header.now) }
{
    let mut copy = Listed::new(alloc);
    for name in header {
        copy.push(Bytes::from_slice(alloc, name.as_slice())?)?;
    }
    Ok(copy)
}

fn kinds_of(alloc: Global, table: &Table) -> Result<Listed<Kind>, Memory>
    ensures { IfOk result (λ kinds. kinds ≡ table.now.kinds) }
{
    let mut kinds = Listed::new(alloc);
    for col in 0..table.header().len() as u32 {
        kinds.push(table.kind(col))?;
    }
    Ok(kinds)
}

fn shape_of(alloc: Global, table: &Table) -> Result<TableShape, Memory>
    ensures shape { IfOk result (λ shape. shape ≡ shape_of table.now) }
    ensures is_shape { IfOk result IsShape }
{
    let header = header_of(alloc, table.header().as_slice())?;
    let name = Bytes::from_slice(alloc, table.name())?;
    let kinds = kinds_of(alloc, table)?;
    Ok(TableShape {
        name,
        header,
        kinds,
    })
}

/// The shapes of some tables, in their order.
pub fn shapes_of(alloc: Global, tables: &[Table]) -> Result<Listed<TableShape>, Memory>
    requires { length tables.now < 2 ^ 32 }
    ensures shapes { IfOk result (λ shapes. shapes ≡ map shape_of tables.now) }
    ensures are_shapes { IfOk result AreShapes }
{
    let mut shapes = Listed::new(alloc);
    for table in tables {
        shapes.push(shape_of(alloc, table)?)?;
    }
    Ok(shapes)
}
