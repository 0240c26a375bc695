// Fetches a file from stored answers, the first of two runs: crates/program_fetch says how.
#![tactic(auto)]

fn main(rt: HostRuntime) {
    program_fetch::run(&rt);
}
