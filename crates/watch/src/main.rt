// Reads a sheet from standard input and prints the falls of its items' prices after which its best point is no longer best: paper 02, request 13.
#![tactic(auto)]

fn main(rt: HostRuntime) {
    console::run(&rt, console::Program::Watch);
}
