// Reads a tray from standard input, runs it, and prints its answers.
#![tactic(auto)]

// Kept: one call of the shared body; a crate is run with one `stdin`, so nothing is left to join.
fn main(rt: HostRuntime) {
    viewer_lib::show(&rt);
}
