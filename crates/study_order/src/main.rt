// Reads a study export from standard input, and prints an order that accounts for it. `stdin` has five transactions:
// take 7 and write 9; read 9; write 7; read 7; write 11.
#![tactic(auto)]

// Kept: one call of the shared body; a crate is run with one `stdin`, so nothing is left to join.
fn main(rt: HostRuntime) {
    order_lib::show(&rt);
}
