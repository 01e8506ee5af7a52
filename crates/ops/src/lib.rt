// The operations on one list, and what each takes of its argument columns. An inner crate: its callers meet what it asks.
#![tactic(auto)]

ghost use Rattle.ops.specs.Ops.{table};
ghost use Rattle.std.specs.Prelude.{◌&&◌, eqb, ◌≡◌};

use model::Unary;

// The operations on one list, by the arguments that they take.
#[derive(Clone, Copy)]
pub enum ListOp {
    Plain(Unary),
    // from, to
    Slice,
    // from, to, stride
    SliceBy,
    // count
    Resize,
    // count, fill
    ResizeWith,
    // from, to, limit
    Replace,
    // element, limit
    Remove,
}

// What an operation takes of its argument columns.
#[derive(Clone, Copy)]
pub struct Arity {
    // How many it takes.
    pub columns: usize,
    // Whether the last of them is a limit, which may have one row for all.
    pub limited: bool,
    // Whether the first is a count that says how long the row becomes.
    pub resize: bool,
}

impl Arity {
    // Whether the column at place k, counted from 1, is a limit.
    pub fn limits(self, k: usize) -> bool
        ensures { result ≡ (self.limited && eqb self.columns k) }
    {
        self.limited && self.columns == k
    }
}

// The table of what each operation takes.
#[tactic(auto, unfolding(crate::specs::Ops::table))]
pub fn takes(op: ListOp) -> Arity
    ensures { result ≡ table op }
{
    match op {
        ListOp::Plain(_) => Arity {
            columns: 0,
            limited: false,
            resize: false,
        },
        ListOp::Slice => Arity {
            columns: 2,
            limited: false,
            resize: false,
        },
        ListOp::SliceBy => Arity {
            columns: 3,
            limited: false,
            resize: false,
        },
        ListOp::Resize => Arity {
            columns: 1,
            limited: false,
            resize: true,
        },
        ListOp::ResizeWith => Arity {
            columns: 2,
            limited: false,
            resize: true,
        },
        ListOp::Replace => Arity {
            columns: 3,
            limited: true,
            resize: false,
        },
        ListOp::Remove => Arity {
            columns: 2,
            limited: true,
            resize: false,
        },
    }
}
