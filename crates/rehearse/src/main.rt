// Plays shows: reads their lines, has each carried out, and prints what is answered.
#![tactic(auto)]

use input::Lines;
use shows::show::play_line;
use std::io::{BufRead, BufReader, BufWriter, Write};
use std::{env, fs};

// A show from its first line to its last, from nothing.
fn play<R: BufRead + Drop>(rt: &HostRuntime, from: R) -> anyhow::Result<()> {
    let heap = rt.alloc();
    let mut to = BufWriter::new(heap, rt.stdout())?;
    let mut lines = Lines::new(heap, from);
    let mut show = None;
    for number in 1..u64::MAX {
        let Some(text) = lines.next_line()? else {
            break;
        };
        let reply = play_line(&mut show, number, text, heap)?;
        // one write for each answer, so that who reads through a pipe meets no half of one; `print!` would write a kibibyte at a time
        if !reply.is_empty() {
            to.write_all(reply.as_bytes())?;
            to.flush()?;
        }
    }
    Ok(())
}

// The show of that name.
fn play_file(rt: &HostRuntime, name: &str) -> anyhow::Result<()> {
    play(rt, BufReader::new(rt.alloc(), fs::open(rt, name)?)?)
}

// One show from standard input, or those of the files that are named: where there are several, each behind its name.
fn run(rt: &HostRuntime) -> anyhow::Result<()> {
    let names = env::args(rt)?.skip(1).collect::<Vec<String>>(rt.alloc())?;
    if names.is_empty() {
        return play(rt, BufReader::new(rt.alloc(), rt.stdin())?);
    }
    for name in &names {
        if names.len() > 1 {
            println!(rt; "{name}")?;
        }
        play_file(rt, name.as_str())?;
    }
    Ok(())
}

fn main(rt: HostRuntime) -> anyhow::Result<()> {
    run(&rt)
}
