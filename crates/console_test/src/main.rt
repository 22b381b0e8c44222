// Runs each program on one input after the other, whole and a byte at a time: what it prints is held to a stored output.
// `full` has 4,096 bytes and `long` one more. The last input, a folder, opens and cannot be read: there is no reply.
#![tactic(auto)]

use console::{Program, run_by};
use std::fs::File;
use std::io;
use streams::SPACE;

// The file stands for standard input.
fn try_by(rt: &HostRuntime, program: Program, name: &str, most: usize) -> io::Result<()> {
    let mut input = File::open(rt, name)?;
    let mut output = rt.stdout();
    run_by(rt, &mut input, &mut output, program, most);
    Ok(())
}

// Whole, and a byte at a time.
fn try_both(rt: &HostRuntime, program: Program, word: &str, name: &str) -> io::Result<()> {
    println!(rt; "{word} {name}:")?;
    try_by(rt, program, name, SPACE)?;
    println!(rt; "byte by byte:")?;
    try_by(rt, program, name, 1)
}

fn try_on(rt: &HostRuntime, name: &str) -> io::Result<()> {
    try_both(rt, Program::Charge, "charge", name)?;
    try_both(rt, Program::Convert, "convert", name)?;
    try_both(rt, Program::Watch, "watch", name)
}

fn main(rt: HostRuntime) -> io::Result<()> {
    try_on(&rt, "best")?;
    try_on(&rt, "infeasible")?;
    try_on(&rt, "unbounded")?;
    try_on(&rt, "ranged")?;
    try_on(&rt, "dry")?;
    try_on(&rt, "refused")?;
    try_on(&rt, "reversed")?;
    try_on(&rt, "below_zero")?;
    try_on(&rt, "blank")?;
    try_on(&rt, "all_blank")?;
    try_on(&rt, "needed_blank")?;
    try_on(&rt, "full")?;
    try_on(&rt, "long")?;
    try_on(&rt, "empty")?;
    try_on(&rt, ".")
}
