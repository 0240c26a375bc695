// Fetches a file from stored answers, the second of two runs: it goes on from what the first one, `fetch`, leaves.
#![tactic(auto)]

fn main(rt: HostRuntime) {
    program_fetch::run(&rt);
}
