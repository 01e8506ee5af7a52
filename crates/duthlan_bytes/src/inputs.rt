// The slices of a call as columns over bytes.
ghost use Rattle.std.specs.Prelude.{◌≡◌};

use bitmap::Validity;
use entry::inputs::{ListBytes, ValueBytes};

// A list column, each bitmap followed by its starting bit.
pub(crate) fn list_bytes<'a>(
    offsets: &'a [u8],
    rows: &'a [u8],
    rows_start: u32,
    values: &'a [u8],
    elements: &'a [u8],
    elements_start: u32,
) -> ListBytes<'a>
    ensures { result ≡ record { offsets = offsets.entry; rows = record { bytes = rows.entry; start = rows_start }; values = values.entry; elements = record { bytes = elements.entry; start = elements_start } } }
{
    ListBytes {
        offsets,
        rows: Validity {
            bytes: rows,
            start: rows_start as usize,
        },
        values,
        elements: Validity {
            bytes: elements,
            start: elements_start as usize,
        },
    }
}

// An argument column.
pub(crate) fn value_bytes<'a>(values: &'a [u8], bits: &'a [u8], start: u32) -> ValueBytes<'a>
    ensures { result ≡ record { values = values.entry; bits = record { bytes = bits.entry; start = start } } }
{
    ValueBytes {
        values,
        bits: Validity {
            bytes: bits,
            start: start as usize,
        },
    }
}
