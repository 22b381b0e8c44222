// Reads a stored sheet from standard input and prints it without its blank items, or why it cannot: paper 02, request 9.
#![tactic(auto)]

fn main(rt: HostRuntime) {
    console::run(&rt, console::Program::Convert);
}
