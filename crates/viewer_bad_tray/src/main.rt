// The program, run on a tray of 65,537 bytes: 15.
#![tactic(auto)]

// Kept: one call of the shared body; a crate is run with one `stdin`, so nothing is left to join.
fn main(rt: HostRuntime) {
    viewer_lib::show(&rt);
}
