// The program, run on the course's examples C9 to C13.
#![tactic(auto)]

// Kept: one call of the shared body; a crate is run with one `stdin`, so nothing is left to join.
fn main(rt: HostRuntime) {
    viewer_lib::show(&rt);
}
