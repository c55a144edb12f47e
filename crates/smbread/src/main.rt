// Prints an index file: its counts, and then a line for each row.
//   smbread INDEX
#![tactic(auto)]

use anyhow::{Context, bail};
use indexfile::counts::Counts;
use indexfile::file::IndexFile;
use refusals::Refusal;
use std::{env, fs};

fn main(rt: HostRuntime) -> anyhow::Result<()> {
    let path = env::args(&rt)?.nth(1).context("smbread INDEX")?;
    let bytes = fs::read(&rt, path.as_str()).context(format_args!("{path} cannot be read"))?;
    let file = match IndexFile::read(&bytes) {
        Ok(file) => file,
        Err(refusal) => {
            let notice = refusal.notice();
            bail!("refused {notice}: {path} is no sound index file");
        }
    };
    let Counts {
        rows,
        place,
        skipped,
    } = file.counts();
    println!(rt; "rows {rows} place {place} skipped {skipped}")?;
    // by number, as a file hands out its rows: no plainer otherwise
    for n in 0..rows {
        if let Ok(row) = file.row(n) {
            println!(rt; "{row}")?;
        }
    }
    Ok(())
}
