// Replays a trace: a line a record, from standard input to standard output.
#![tactic(auto)]

fn main(rt: HostRuntime) {
    trace_program::run(&rt, false);
}
