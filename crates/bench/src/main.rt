// The work that ./bench measures: one long message hashed, and a long run of commands delivered. tools/plain.rs does the same in plain Rust.
#![tactic(auto)]

mod work;

use anyhow::bail;
use commands::types::Command;
use hexadecimal::Hex;
use sha256::digest;
use std::alloc::Global;
use std::env;
use std::time::Instant;
use work::{Draws, checksum, command, deliver_all};

const USAGE: &str = "usage: bench [sha MEBIBYTES | history COMMANDS]";

// As many commands as asked for.
fn commands_made(heap: Global, count: u32) -> anyhow::Result<Vec<Command>> {
    let mut draws = Draws::new();
    let mut made = Vec::new(heap);
    // the turn makes the command, and nothing is indexed by it; a `map` would carry two errors through a `collect`, and be no plainer
    for turn in 0..count {
        made.push(command(turn, &mut draws)?)?;
    }
    Ok(made)
}

// A message of so many mebibytes hashed; how many nanoseconds that took.
fn hash(rt: &HostRuntime, mebibytes: u32) -> anyhow::Result<u128> {
    let message = vec![in rt.alloc(); b'a'; usize::try_from(mebibytes)? * 1048576]?;
    let start = Instant::now(rt)?;
    let digest = digest(message.as_slice());
    let nanoseconds = start.elapsed(rt)?.as_nanos();
    let digest = Hex(&digest);
    print!(rt; "{mebibytes} MiB, digest {digest}")?;
    Ok(nanoseconds)
}

// So many commands delivered; how many nanoseconds that took. Making them is not counted.
fn deliver(rt: &HostRuntime, count: u32) -> anyhow::Result<u128> {
    let commands = commands_made(rt.alloc(), count)?;
    let mut levels = [0; 512];
    let start = Instant::now(rt)?;
    let record = deliver_all(&mut levels, &commands);
    let nanoseconds = start.elapsed(rt)?.as_nanos();
    let delivered = record.count;
    let sum = checksum(&levels);
    let digest = Hex(&record.digest);
    print!(rt; "{delivered} commands, digest {digest}, levels {sum}")?;
    Ok(nanoseconds)
}

// With no arguments a small run of each, and no times, so that the output is always the same.
fn run(rt: &HostRuntime) -> anyhow::Result<()> {
    let mut args = env::args(rt)?;
    let _program = args.next();
    let Some(work) = args.next() else {
        hash(rt, 1)?;
        println!(rt; "")?;
        deliver(rt, 1000)?;
        println!(rt; "")?;
        return Ok(());
    };
    let Some(size) = args.next() else {
        bail!("{USAGE}");
    };
    let size = size.as_str().parse::<u32>()?;
    let nanoseconds = match work.as_str() {
        "sha" => hash(rt, size)?,
        "history" => deliver(rt, size)?,
        _ => bail!("{USAGE}"),
    };
    println!(rt; ", {nanoseconds} ns")?;
    Ok(())
}

fn main(rt: HostRuntime) -> anyhow::Result<()> {
    run(&rt)
}
