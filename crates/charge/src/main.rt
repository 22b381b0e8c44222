// Reads a sheet from standard input and prints its answer. Paper 01, "What `charge` prints".
#![tactic(auto)]

fn main(rt: HostRuntime) {
    console::run(&rt, console::Program::Charge);
}
