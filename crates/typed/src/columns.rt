// Columns made of the slices and starting bits that C lends. Who makes one declares one lifetime for all its slices.
ghost use Rattle.column.specs.Columns.{column_in, values_in};
ghost use Rattle.model.specs.Column.{arguments, column};
ghost use Rattle.model.specs.Inner.{lent_arguments_from, lent_bits};
ghost use Rattle.std.specs.Prelude.{◌≡◌};

use bitmap::Validity;
use column::elements::ValueColumn;
use column::lists::ListColumn;
use model::offsets::Offset;

pub fn values<'a>(values: &'a [i64], bits: &'a [u8], start: usize) -> ValueColumn<'a>
    ensures { values_in result ≡ lent_arguments_from values bits start }
{
    let bits = Validity { bytes: bits, start };
    ValueColumn { values, bits }
}

pub fn list<'a, O: Offset>(
    offsets: &'a [O],
    rows: &'a [u8],
    rows_start: usize,
    values: &'a [i64],
    elements: &'a [u8],
    elements_start: usize,
) -> ListColumn<'a, O>
    ensures { column_in O.numbers result ≡ column (O.numbers offsets.entry.now) (lent_bits rows rows_start) values.entry.now (lent_bits elements elements_start) }
{
    let rows = Validity {
        bytes: rows,
        start: rows_start,
    };
    let bits = Validity {
        bytes: elements,
        start: elements_start,
    };
    ListColumn {
        offsets,
        rows,
        elements: ValueColumn { values, bits },
    }
}
