// The cases A to P of the scope document, run and compared: a line each.
// Outputs hold 77 in every slot and 0xaa in every byte before a call, are one slot or more too long for the result, and are compared whole.
#![tactic(auto)]

mod remove;
mod repeat;
mod replace;
mod resize;
mod reverse;
mod set_ops;

use slice_cases::{extract, slice};
use std::io;

fn show(rt: &impl Print, letter: &str, ok: bool) -> io::Result<()> {
    if ok {
        println!(rt; "{letter} ok")
    } else {
        println!(rt; "{letter} differs")
    }
}

fn main(rt: HostRuntime) -> io::Result<()> {
    show(&rt, "A", reverse::case_a())?;
    show(&rt, "B", set_ops::case_b())?;
    show(&rt, "C", set_ops::case_c())?;
    show(&rt, "D", set_ops::case_d())?;
    show(&rt, "E", set_ops::case_e())?;
    show(&rt, "F", slice::case_f())?;
    show(&rt, "G", slice::case_g())?;
    show(&rt, "H", slice::case_h())?;
    show(&rt, "I", slice::case_i())?;
    show(&rt, "J", slice::case_j())?;
    show(&rt, "K", extract::case_k())?;
    show(&rt, "L", resize::case_l())?;
    show(&rt, "M", replace::case_m())?;
    show(&rt, "N", remove::case_n())?;
    show(&rt, "O", repeat::case_o())?;
    show(&rt, "P", slice::case_p())
}
