// Where the tables of a header stand in the file.
ghost use Rattle.std.specs.Prelude.{◌≡◌, ◌+◌, ◌<◌, length, Some, None};
ghost use Rattle.flat_layout.specs.Layout.{target};
ghost use Rattle.flat_views.specs.Tables.{IsTableAt};
ghost use Rattle.flat_views.specs.TableVecs.{ShowsTables};
ghost use Rattle.fgb_header.specs.Views.{base_shown, header_shown, source_of};
ghost use Rattle.fgb_where.specs.Binding.{table_place};

use fgb_header::HeaderView;
use flat_views::{Buf, Table, TableVec};

/// The field of the columns (FlatGeobuf, header.fbs, table Header).
const COLUMNS: u16 = 7;

/// Where the header's own table stands.
pub(crate) fn header_place(header: &HeaderView) -> u64
    ensures { result ≡ base_shown header.now + table_place (source_of header.now) None }
{
    root_of(header).place()
}

/// Where the table of its i-th column stands.
pub(crate) fn column_place(header: &HeaderView, i: usize) -> u64
    requires { i < length (header_shown header.now).columns }
    ensures { result ≡ base_shown header.now + table_place (source_of header.now) (Some i) }
{
    let Some(columns) = columns_of(header) else {
        unreachable!()
    };
    let Ok(column) = columns.get(i) else {
        unreachable!()
    };
    column.place()
}

/// The list of its columns, if there is one.
fn columns_of<'a>(header: &HeaderView<'a>) -> Option<TableVec<'a>>
    ensures { let b = source_of header.now in ShowsTables b (base_shown header.now) (target b 0) 7 result }
{
    match root_of(header).tables(COLUMNS) {
        Ok(columns) => columns,
        Err(_) => unreachable!(),
    }
}

/// The header's own table.
fn root_of<'a>(header: &HeaderView<'a>) -> Table<'a>
    ensures { IsTableAt (source_of header.now) (base_shown header.now) (target (source_of header.now) 0) result }
{
    let (bytes, base) = header.source();
    match Buf::new(bytes, base).root() {
        Ok(table) => table,
        Err(_) => unreachable!(),
    }
}
