// The answers of the operations, their refusals, and the names of those that a walk goes by. The definitions of the rules stand in specs/.
#![tactic(auto)]

ghost use Rattle.model.specs.Answers.{number_of};
ghost use Rattle.std.specs.Prelude.{◌≡◌};

pub mod offsets;

use std::error::Error;
use std::fmt;

// The operations on one list without arguments.
#[derive(Clone, Copy)]
pub enum Unary {
    Reverse,
    Distinct,
    PopFront,
    PopBack,
}

// The operations on two lists.
#[derive(Clone, Copy)]
pub enum SetOp {
    Union,
    Intersect,
}

// Why a call is refused. Its number is what a C entry returns; 0 is none.
#[derive(Clone, Copy, Debug, PartialEq, Eq)]
pub enum Refusal {
    // The first offset is negative, one falls, or the last lies past the values.
    BadOffsets = 1,
    // A bitmap that has bytes is too short for its rows, or for all the values lent.
    ShortBitmap = 2,
    RowCountsDiffer = 3,
    // An index or a bound does not fit 32 signed bits.
    WideIndex = 4,
    // The stride is 0 where both bounds fall in the row.
    ZeroStride = 5,
    // The stride does not fit 32 signed bits where its direction suits the bounds.
    WideStride = 6,
    NegativeCount = 7,
    // The result would have more elements or outer lists than its offsets may count.
    TooMany = 8,
    // An output, or a tray that a step writes, is too short for the result, or the grades for the rows.
    ShortOutput = 9,
    MalformedRecipe = 10,
    // The offset of a view, its size or their sum is below 0 or over the number of values.
    ViewOutside = 11,
    // The run that gives a row grade 2 is to have at least 0 elements.
    ZeroRun = 12,
    // A starting bit is over 7.
    BadStartingBit = 13,
    // A work area has fewer slots than twice the elements of the longest valid row, or pair of rows.
    ShortArea = 14,
    // The station is over 15.
    NoSuchStation = 15,
    // The rows to be looked at begin behind their end, or end behind the last row.
    RowsOutside = 16,
}

impl Error for Refusal {}

impl From<Refusal> for u32 {
    ghost from_gives = { λ refusal number. number ≡ number_of refusal };

    fn from(refusal: Refusal) -> u32 {
        refusal as u32
    }
}

impl fmt::Display for Refusal {
    fn fmt<W: fmt::Write>(&self, f: &mut fmt::Formatter<W>) -> fmt::Result {
        f.write_str(match self {
            Refusal::BadOffsets => "offsets that begin below 0, fall, or end past the values",
            Refusal::ShortBitmap => "a bitmap too short for its rows, or for all the values lent",
            Refusal::RowCountsDiffer => "columns that differ in their number of rows",
            Refusal::WideIndex => "an index or a bound that does not fit 32 signed bits",
            Refusal::ZeroStride => "a stride of 0 where both bounds fall in the row",
            Refusal::WideStride => "a stride that does not fit 32 signed bits",
            Refusal::NegativeCount => "a negative count",
            Refusal::TooMany => "a result of more elements or lists than its offsets may count",
            Refusal::ShortOutput => "an output or a tray too short for the result",
            Refusal::MalformedRecipe => "a malformed recipe",
            Refusal::ViewOutside => "a view that lies outside the values",
            Refusal::ZeroRun => "a run of at least 0 elements to grade by",
            Refusal::BadStartingBit => "a starting bit over 7",
            Refusal::ShortArea => {
                "a work area of fewer slots than twice the longest row, or pair of rows"
            }
            Refusal::NoSuchStation => "a station over 15",
            Refusal::RowsOutside => {
                "rows to be looked at that begin behind their end, or end behind the last row"
            }
        })
    }
}

// What an accepted list operation counts.
#[derive(Clone, Copy, PartialEq, Eq)]
pub struct ListCounts {
    pub rows: usize,
    pub elements: usize,
    pub null_rows: usize,
    pub null_elements: usize,
}

pub type ListAnswer = Result<ListCounts, Refusal>;

// What an accepted operation that gives one value a row counts.
#[derive(Clone, Copy, PartialEq, Eq)]
pub struct ValueCounts {
    pub rows: usize,
    pub null_rows: usize,
}

pub type ValueAnswer = Result<ValueCounts, Refusal>;

// What an accepted list-repeat counts.
#[derive(Clone, Copy, PartialEq, Eq)]
pub struct RepeatCounts {
    pub rows: usize,
    pub elements: usize,
    pub null_rows: usize,
    pub null_elements: usize,
    pub inner_rows: usize,
    pub null_inner_rows: usize,
}

pub type RepeatAnswer = Result<RepeatCounts, Refusal>;

// The answer of grading a column: its row count.
pub type GradeAnswer = Result<usize, Refusal>;

// How much to lend for a list answer: the lengths of the offsets, the row bitmap, the values and the element bitmap.
#[derive(Clone, Copy, PartialEq, Eq)]
pub struct ListSlots {
    pub offsets: usize,
    pub rows: usize,
    pub values: usize,
    pub elements: usize,
}

pub type ListLengths = Result<ListSlots, Refusal>;

// How much to lend for one value a row: the lengths of the values and their bitmap.
#[derive(Clone, Copy, PartialEq, Eq)]
pub struct ValueSlots {
    pub values: usize,
    pub rows: usize,
}

pub type ValueLengths = Result<ValueSlots, Refusal>;

// How much to lend for list-repeat: the lengths of the outer offsets and row bitmap, the inner ones, the values and the element bitmap.
#[derive(Clone, Copy, PartialEq, Eq)]
pub struct RepeatSlots {
    pub offsets: usize,
    pub rows: usize,
    pub inner_offsets: usize,
    pub inner_rows: usize,
    pub values: usize,
    pub elements: usize,
}

pub type RepeatLengths = Result<RepeatSlots, Refusal>;

// The most elements that a recipe brings into tray one, tray two and the output.
#[derive(Clone, Copy, PartialEq, Eq)]
pub struct TrayElements {
    pub one: usize,
    pub two: usize,
    pub output: usize,
}

pub type RecipeLimits = Result<TrayElements, Refusal>;
