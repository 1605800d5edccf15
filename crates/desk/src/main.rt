// Reads a file of calls, answers them in turn, and prints a line for each.
#![tactic(auto)]

mod refused;
mod reply;

use anyhow::{Context, anyhow};
use refused::Refused;
use reply::answer_row;
use std::io::Read;
use std::rt::{Env, Files};
use std::{env, fs, io};
use town::{Limits, TownMut, open_town};
use wire::CallRows;

// The limits of the town.
const CORNERS: u32 = 32;

const STREETS: u32 = 64;

// The calls in the file that is named, or on standard input if none is.
fn input(rt: &(impl AllocGlobal + Env + Files + Input)) -> anyhow::Result<Vec<u8>> {
    let mut args = env::args(rt)?.skip(1);
    let Some(path) = args.next() else {
        let mut calls = Vec::new(rt.alloc());
        rt.reader().read_to_end(&mut calls)?;
        return Ok(calls);
    };
    if args.next().is_some() {
        return Err(anyhow!("desk takes one file, or none for standard input"));
    }
    fs::read(rt, path.as_str()).map_err(|e| anyhow!("{path}: {e}"))
}

// Stops at the first unreadable row: nothing says where the next one begins.
fn print_lines(rt: &impl Print, town: &mut TownMut<'_>, calls: &[u8]) -> io::Result<()> {
    for row in (CallRows { rest: calls }) {
        match answer_row(town, row) {
            Ok(reply) => println!(rt; "{reply}")?,
            Err(refused) => {
                println!(rt; "{refused}")?;
                if refused.is_unreadable() {
                    break;
                }
            }
        }
    }
    Ok(())
}

fn serve(rt: &impl Print, memory: &mut [u32], calls: &[u8]) -> anyhow::Result<()> {
    open_town(memory, CORNERS, STREETS).map_err(Refused::from)?;
    print_lines(rt, &mut TownMut { memory }, calls)?;
    Ok(())
}

fn run(rt: &(impl AllocGlobal + Env + Files + Input + Print)) -> anyhow::Result<()> {
    let calls = input(rt)?;
    let limits = Limits::new(CORNERS, STREETS).context("no town has such limits")?;
    let mut memory = vec![in rt.alloc(); 0u32; limits.words()]?;
    serve(rt, memory.as_mut_slice(), calls.as_slice())
}

fn main(rt: HostRuntime) -> anyhow::Result<()> {
    run(&rt)
}
