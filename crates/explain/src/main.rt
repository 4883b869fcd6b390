// Explains a trace: the lines of `replay`, and what the messages of each record say.
#![tactic(auto)]

fn main(rt: HostRuntime) {
    trace_program::run(&rt, true);
}
