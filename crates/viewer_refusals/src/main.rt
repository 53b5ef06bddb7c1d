// The program, run on frames that are refused with 2 to 12, until the answers area has under 700 bytes left: 1.
#![tactic(auto)]

// Kept: one call of the shared body; a crate is run with one `stdin`, so nothing is left to join.
fn main(rt: HostRuntime) {
    viewer_lib::show(&rt);
}
