// The entries of `duthlan::hash` for C programs: each calls the function of its name there, and states its clauses again.
// bindings/entries writes this file.
ghost use Rattle.entry_codes.specs.Calls.{hashed_call};
ghost use Rattle.model.specs.Basics.{given};
ghost use Rattle.model.specs.Hash.{distinct_of, hashed_outcome};
ghost use Rattle.model.specs.Inner.{lent_from};
ghost use Rattle.model.specs.Limits.{narrow};
ghost use Rattle.typed.specs.Typed.{HashServed};

#[unsafe(no_mangle)]
#[rattlefmt::skip]
pub extern "C" fn duthlan_typed_distinct_hashed<'a, 'o>(
    offsets: &'a [i32], rows: &'a [u8], rows_start: usize, values: &'a [i64], elements: &'a [u8], elements_start: usize,
    out_offsets: &'o mut [i32], out_rows: &'o mut [u8], out_values: &'o mut [i64], out_elements: &'o mut [u8],
    area: &mut [u32], counts: &mut [u64],
) -> u32
    ensures { HashServed (λ m. given (hashed_outcome narrow (distinct_of (lent_from offsets rows rows_start values elements elements_start)) m)) result out_offsets out_rows out_values out_elements area counts }
{
    duthlan::hash::duthlan_typed_distinct_hashed(
        offsets, rows, rows_start, values, elements, elements_start,
        out_offsets, out_rows, out_values, out_elements,
        area, counts,
    )
}

#[unsafe(no_mangle)]
#[rattlefmt::skip]
pub extern "C" fn duthlan_typed_lists_hashed<'a, 'o>(
    op: u32,
    l_offsets: &'a [i32], l_rows: &'a [u8], l_rows_start: usize, l_values: &'a [i64], l_elements: &'a [u8], l_elements_start: usize,
    r_offsets: &'a [i32], r_rows: &'a [u8], r_rows_start: usize, r_values: &'a [i64], r_elements: &'a [u8], r_elements_start: usize,
    out_offsets: &'o mut [i32], out_rows: &'o mut [u8], out_values: &'o mut [i64], out_elements: &'o mut [u8],
    area: &mut [u32], counts: &mut [u64],
) -> u32
    ensures { HashServed (hashed_call op (lent_from l_offsets l_rows l_rows_start l_values l_elements l_elements_start) (lent_from r_offsets r_rows r_rows_start r_values r_elements r_elements_start)) result out_offsets out_rows out_values out_elements area counts }
{
    duthlan::hash::duthlan_typed_lists_hashed(
        op,
        l_offsets, l_rows, l_rows_start, l_values, l_elements, l_elements_start,
        r_offsets, r_rows, r_rows_start, r_values, r_elements, r_elements_start,
        out_offsets, out_rows, out_values, out_elements,
        area, counts,
    )
}
