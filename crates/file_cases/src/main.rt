// Lists each log of data/, and tells the frames of each capture there, under its name, as the two programs do for standard input.

#![tactic(auto)]

use std::fs::File;
use std::io::Stdout;
use std::{fs, io};
use text::Failure;

const LOGS: [&str; 12] = [
    "logs/none",
    "logs/short",
    "logs/left",
    "logs/mixed",
    "logs/corners",
    "logs/modes",
    "logs/pairs",
    "logs/refusals",
    "logs/damaged",
    "logs/fields",
    "logs/full",
    "logs/over",
];

const CAPTURES: [&str; 15] = [
    "captures/none",
    "captures/short",
    "captures/one",
    "captures/two",
    "captures/eight",
    "captures/back_to_back",
    "captures/false_lock",
    "captures/damaged",
    "captures/noise",
    "captures/traffic",
    "captures/idle",
    "captures/zeros",
    "captures/full",
    "captures/full_shifted",
    "captures/over",
];

// Prints each file's name, and what a program tells of it.
fn tell_each<F: Fn(&mut File, &mut Stdout) -> Result<(), Failure>>(
    rt: &HostRuntime,
    names: &[&str],
    run: F,
) -> io::Result<()>
    requires { F.IsAlwaysCallable run }
{
    for name in names {
        println!(rt; "== {name}")?;
        let mut file = fs::open(rt, name)?;
        text::tell(rt, run(&mut file, &mut rt.stdout()));
    }
    Ok(())
}

fn main(rt: HostRuntime) -> io::Result<()> {
    tell_each(&rt, &LOGS, |log, out| listing::run(log, out))?;
    tell_each(&rt, &CAPTURES, |capture, out| hearing::run(capture, out))
}
