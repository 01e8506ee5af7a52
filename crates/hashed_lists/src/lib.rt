// Distinct, union and intersect of long rows, with a lent work area of 32-bit slots. No public function asks anything of its caller.
#![tactic(auto)]

pub mod set_ops;
