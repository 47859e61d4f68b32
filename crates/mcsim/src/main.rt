//! mcsim: plays a scenario on the machine that its help tells, and writes the report.
#![tactic(auto)]

use anyhow::anyhow;
use machine::IN_WORDS;
use machine_study::report_scenario;
use std::env;
use std::fs::File;
use std::io::{BufWriter, Write};

const USAGE: &str = "mcsim: plays a scenario and writes its report

usage: mcsim [FILE]

The scenario is read from FILE, or from standard input. It is played on";

const FORMAT: &str = "docs/SCENARIO.md tells the format of scenarios and reports.

The exit status is 0 whenever a report was written, also that of a fault.";

fn report(rt: &HostRuntime, text: &[u8]) -> anyhow::Result<()> {
    let mut out = BufWriter::new(rt.alloc(), rt.stdout())?;
    report_scenario(rt.alloc(), text, &mut out)?;
    out.flush()?;
    Ok(())
}

fn run(rt: &HostRuntime) -> anyhow::Result<()> {
    let args: Vec<String> = env::args(rt)?.skip(1).collect(rt.alloc())?;
    match args.as_slice() {
        [] => report(rt, intake::text(rt.alloc(), rt.stdin())?.as_slice()),
        [word] if word.as_str() == "--help" => {
            println!(rt; "{USAGE} {IN_WORDS}.\n{FORMAT}")?;
            Ok(())
        }
        [path] => {
            let file = File::open(rt, path.as_str())?;
            report(rt, intake::text(rt.alloc(), file)?.as_slice())
        }
        _ => Err(anyhow!("usage: mcsim [FILE]")),
    }
}

fn main(rt: HostRuntime) -> anyhow::Result<()> {
    run(&rt)
}
