// ListView columns, read in and written.
ghost use Rattle.model.specs.Basics.{given};
ghost use Rattle.model.specs.Inner.{lent_from};
ghost use Rattle.model.specs.Limits.{narrow};
ghost use Rattle.model.specs.View.{export_outcome, import_outcome};
ghost use Rattle.typed.specs.Flat.{lent_view};
ghost use Rattle.typed.specs.Typed.{ListServed, ViewServed};

use bitmap::Validity;
use column::elements::ValueOutput;
use column::lists::ListOutput;
use typed::{columns, viewed};
use view_checks::{ViewColumn, ViewOutput};

// A ListView column, an offset and a size a row, read into a list column.
#[unsafe(no_mangle)]
#[rattlefmt::skip]
pub extern "C" fn duthlan_typed_import_view<'a, 'o>(
    offsets: &'a [i32], sizes: &'a [i32], rows: &'a [u8], rows_start: usize, values: &'a [i64], elements: &'a [u8], elements_start: usize,
    out_offsets: &'o mut [i32], out_rows: &'o mut [u8], out_values: &'o mut [i64], out_elements: &'o mut [u8],
    counts: &mut [u64],
) -> u32
    ensures { ListServed (given (import_outcome narrow (lent_view offsets sizes rows rows_start values elements elements_start))) result out_offsets out_rows out_values out_elements counts }
{
    let rows = Validity { bytes: rows, start: rows_start };
    let elements = columns::values(values, elements, elements_start);
    let view = ViewColumn { offsets, sizes, rows, elements };
    let mut written = ValueOutput { values: out_values, bits: out_elements };
    let mut out = ListOutput { offsets: out_offsets, rows: out_rows, elements: &mut written };
    viewed::import_view(view, &mut out, counts)
}

// A list column written as a ListView column.
#[unsafe(no_mangle)]
#[rattlefmt::skip]
pub extern "C" fn duthlan_typed_export_view<'a, 'o>(
    offsets: &'a [i32], rows: &'a [u8], rows_start: usize, values: &'a [i64], elements: &'a [u8], elements_start: usize,
    out_offsets: &'o mut [i32], out_sizes: &'o mut [i32], out_rows: &'o mut [u8], out_values: &'o mut [i64], out_elements: &'o mut [u8],
    counts: &mut [u64],
) -> u32
    ensures { ViewServed (export_outcome (lent_from offsets rows rows_start values elements elements_start)) result out_offsets out_sizes out_rows out_values out_elements counts }
{
    let list = columns::list(offsets, rows, rows_start, values, elements, elements_start);
    let mut written = ValueOutput { values: out_values, bits: out_elements };
    let mut out = ViewOutput { offsets: out_offsets, sizes: out_sizes, rows: out_rows, elements: &mut written };
    viewed::export_view(list, &mut out, counts)
}
