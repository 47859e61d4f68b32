//! profile: reads block numbers, one decimal number a line, runs them through the caches of one core, and prints where each
//! access is served.
#![tactic(auto)]

use anyhow::anyhow;
use machine::{Caches, two_levels};
use profiling::{Access, Profile};
use std::fs::File;
use std::io::{BufRead, BufReader, BufWriter, Read, Write};
use std::{env, fmt, io};
use tier::Tier;

const USAGE: &str = "profile: tells where the caches of one core serve each access

usage: profile [FILE]

Block numbers, one decimal number a line, are read from FILE, or from standard input, and run
through the caches of one core: a direct tier of 2 lines on a set-associative tier of 2 sets of
2 ways. Each access gives a line: its number, the block, the level that served it (0 for a miss)
and the block that left the caches (or -). Then come the accesses that each level served, those
that missed, and how many lines were no block number, each of which was told in its place.

The exit status is 0 also where lines were no block numbers.";

// A row of the profile: an access, and how many there were up to it.
#[derive(Clone, Copy)]
struct Row {
    number: u64,
    block: u16,
    access: Access,
}

/// Number, block, level (0 for a miss) and the block that left (`-` for none), parted by tabs.
impl fmt::Display for Row {
    ghost use Rattle.std.specs.Prelude.{Some};
    ghost use Rattle.profile.specs.Rows.{row_text};

    ghost output = { λ row. Some (row_text row) };

    fn fmt<W: fmt::Write>(&self, f: &mut fmt::Formatter<W>) -> fmt::Result {
        let Row {
            number,
            block,
            access,
        } = *self;
        let level = access.level.unwrap_or(0);
        write!(f, "{number}\t{block}\t{level}\t")?;
        match access.left {
            Some(left) => write!(f, "{left}"),
            None => f.write_str("-"),
        }
    }
}

// Reads to the end of the input; the answer is how many lines were bad.
fn replay<R: Read + Drop, W: Write>(
    rt: &HostRuntime,
    input: R,
    profile: &mut Profile<Caches>,
    out: &mut W,
) -> io::Result<u64> {
    let input = BufReader::new(rt.alloc(), input)?;
    let mut number = 0u64;
    let mut bad = 0u64;
    for (place, line) in (1u64..).zip(input.split(rt.alloc(), b'\n')) {
        match numeral::number(line?.as_slice()) {
            Ok(block) => {
                number = number.saturating_add(1);
                let access = profile.access(block);
                let row = Row {
                    number,
                    block,
                    access,
                };
                writeln!(out, "{row}")?;
            }
            Err(why) => {
                bad = bad.saturating_add(1);
                writeln!(out, "line {place}: {why}")?;
            }
        }
    }
    Ok(bad)
}

fn summarize<W: Write>(profile: &Profile<Caches>, bad: u64, out: &mut W) -> io::Result<()> {
    for level in 1..=profile.depth() {
        let hits = profile.served(Some(level));
        writeln!(out, "level {level}\t{hits}")?;
    }
    let misses = profile.served(None);
    writeln!(out, "misses\t{misses}")?;
    if bad > 0 {
        writeln!(out, "bad lines\t{bad}")?;
    }
    Ok(())
}

fn profile<R: Read + Drop, W: Write>(
    rt: &HostRuntime,
    input: R,
    out: &mut W,
) -> anyhow::Result<()> {
    let mut profile = Profile::new(two_levels(rt.alloc())?);
    let bad = replay(rt, input, &mut profile, out)?;
    summarize(&profile, bad, out)?;
    Ok(())
}

// What was made of the input before it could not be read any more is written too.
fn report<R: Read + Drop>(rt: &HostRuntime, input: R) -> anyhow::Result<()> {
    let mut out = BufWriter::new(rt.alloc(), rt.stdout())?;
    let told = profile(rt, input, &mut out);
    out.flush()?;
    told
}

fn run(rt: &HostRuntime) -> anyhow::Result<()> {
    let args: Vec<String> = env::args(rt)?.skip(1).collect(rt.alloc())?;
    match args.as_slice() {
        [] => report(rt, rt.stdin()),
        [word] if word.as_str() == "--help" => {
            println!(rt; "{USAGE}")?;
            Ok(())
        }
        [path] => report(rt, File::open(rt, path.as_str())?),
        _ => Err(anyhow!("usage: profile [FILE]")),
    }
}

fn main(rt: HostRuntime) -> anyhow::Result<()> {
    run(&rt)
}
