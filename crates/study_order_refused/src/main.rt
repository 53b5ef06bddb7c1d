// The program, run on an export of two transactions that write one number: 22.
#![tactic(auto)]

// Kept: one call of the shared body; a crate is run with one `stdin`, so nothing is left to join.
fn main(rt: HostRuntime) {
    order_lib::show(&rt);
}
