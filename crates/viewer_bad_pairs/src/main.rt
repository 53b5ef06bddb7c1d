// The program, run on a tray whose last pair runs past it: 16.
#![tactic(auto)]

// Kept: one call of the shared body; a crate is run with one `stdin`, so nothing is left to join.
fn main(rt: HostRuntime) {
    viewer_lib::show(&rt);
}
