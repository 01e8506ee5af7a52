// The entries of `duthlan::view` for C programs: each calls the function of its name there, and states its clauses again.
// bindings/entries writes this file.
ghost use Rattle.model.specs.Basics.{given};
ghost use Rattle.model.specs.Inner.{lent_from};
ghost use Rattle.model.specs.Limits.{narrow};
ghost use Rattle.model.specs.View.{export_outcome, import_outcome};
ghost use Rattle.typed.specs.Flat.{lent_view};
ghost use Rattle.typed.specs.Typed.{ListServed, ViewServed};

#[unsafe(no_mangle)]
#[rattlefmt::skip]
pub extern "C" fn duthlan_typed_import_view<'a, 'o>(
    offsets: &'a [i32], sizes: &'a [i32], rows: &'a [u8], rows_start: usize, values: &'a [i64], elements: &'a [u8], elements_start: usize,
    out_offsets: &'o mut [i32], out_rows: &'o mut [u8], out_values: &'o mut [i64], out_elements: &'o mut [u8],
    counts: &mut [u64],
) -> u32
    ensures { ListServed (given (import_outcome narrow (lent_view offsets sizes rows rows_start values elements elements_start))) result out_offsets out_rows out_values out_elements counts }
{
    duthlan::view::duthlan_typed_import_view(
        offsets, sizes, rows, rows_start, values, elements, elements_start,
        out_offsets, out_rows, out_values, out_elements,
        counts,
    )
}

#[unsafe(no_mangle)]
#[rattlefmt::skip]
pub extern "C" fn duthlan_typed_export_view<'a, 'o>(
    offsets: &'a [i32], rows: &'a [u8], rows_start: usize, values: &'a [i64], elements: &'a [u8], elements_start: usize,
    out_offsets: &'o mut [i32], out_sizes: &'o mut [i32], out_rows: &'o mut [u8], out_values: &'o mut [i64], out_elements: &'o mut [u8],
    counts: &mut [u64],
) -> u32
    ensures { ViewServed (export_outcome (lent_from offsets rows rows_start values elements elements_start)) result out_offsets out_sizes out_rows out_values out_elements counts }
{
    duthlan::view::duthlan_typed_export_view(
        offsets, rows, rows_start, values, elements, elements_start,
        out_offsets, out_sizes, out_rows, out_values, out_elements,
        counts,
    )
}
