// The sizes of the slices that an entry is lent, and its own refusals by them, on lengths in bytes alone.
ghost use Rattle.std.specs.Prelude.{◌<◌, ◌/◌, ◌++◌, List, [], ◌∷◌, ◌≡◌};
ghost use Rattle.entry.specs.Entry.{Numbers, list_sizes, numbers, size_refusal, value_sizes};
ghost use Rattle.entry.specs.Misfits.{Tested, misfit_by, number_of_misfit};

pub const MOST_OFFSETS: usize = 4097;

pub const MOST_VALUES: usize = 16384;
// Of argument columns and value answers.
pub const MOST_ROWS: usize = 4096;

// How many offsets, and how many values, stand in so many bytes: one function of both would say less.
pub fn offsets_in(bytes: usize) -> usize
    ensures { result ≡ bytes / 4 }
{
    bytes / 4
}

pub fn values_in(bytes: usize) -> usize
    ensures { result ≡ bytes / 8 }
{
    bytes / 8
}

// Why an entry refuses a call before it looks at what is lent. Its number is what the entry returns.
#[derive(Clone, Copy, Debug, PartialEq, Eq)]
pub enum Misfit {
    // A slice of numbers ends within one, or the counts have fewer bytes than they take.
    Ragged = 100,
    // A slice has more numbers than the entry takes.
    Outsize = 101,
    NoSuchOperation = 102,
}

impl From<Misfit> for u32 {
    ghost from_gives = { λ misfit number. number ≡ number_of_misfit misfit };

    fn from(misfit: Misfit) -> u32 {
        misfit as u32
    }
}

// What the sizes of the slices of numbers come to, one slice after another.
#[derive(Clone, Copy)]
pub struct Sizes {
    // Whether one ends within a number.
    is_ragged: bool,
    // Whether one has more numbers than the entry takes.
    is_outsize: bool,
}

impl Sizes {
    // Of no slice.
    pub fn none() -> Sizes
        ensures { Tested [] result }
    {
        Sizes {
            is_ragged: false,
            is_outsize: false,
        }
    }

    // And of one: the bytes of a number, the most numbers that the entry takes, and the bytes lent.
    pub fn numbers(self, width: usize, most: usize, bytes: usize) -> Sizes
        requires { 0 < width }
        ensures { (ss : List Numbers) → Tested ss self → Tested (ss ++ (numbers width most bytes ∷ [])) result }
    {
        Sizes {
            is_ragged: self.is_ragged | (bytes % width != 0),
            is_outsize: self.is_outsize | (most < bytes / width),
        }
    }

    // And of a list's offsets and values.
    pub fn list(self, offsets: usize, values: usize) -> Sizes
        ensures { (ss : List Numbers) → Tested ss self → Tested (ss ++ list_sizes offsets values) result }
    {
        self.numbers(4, MOST_OFFSETS, offsets)
            .numbers(8, MOST_VALUES, values)
    }

    // And of one value a row.
    pub fn values(self, values: usize) -> Sizes
        ensures { (ss : List Numbers) → Tested ss self → Tested (ss ++ value_sizes values) result }
    {
        self.numbers(8, MOST_ROWS, values)
    }

    // What they refuse, the counts having so many bytes and needing others.
    pub fn refusal(self, counts: usize, need: usize) -> Result<(), Misfit>
        ensures { (ss : List Numbers) → Tested ss self → misfit_by result ≡ size_refusal ss counts need }
    {
        if self.is_ragged | (counts < need) {
            return Err(Misfit::Ragged);
        }
        if self.is_outsize {
            return Err(Misfit::Outsize);
        }
        Ok(())
    }
}
