// The index file: listed, saved and put in its place.
use crate::options::Options;
use crate::summary::print_summary;
use anyhow::{Context, anyhow, bail};
use index::Index;
use index::scan::MOST;
use indexfile::row::Row;
use listing::answer::{Scanned, Stop};
use recording::Store;
use records::kind::RecordKind;
use refusals::Refusal;
use std::fs;

// How many cells are read between two lines of progress.
const STEP: u32 = 1 << 26;

// Reads on to the end of the recording, and tells on standard error how far it came.
fn read_on<S: Store + Drop, K: RecordKind + Drop>(
    rt: &HostRuntime,
    index: &mut Index<S, K>,
    table: &mut [Row],
    cells: u32,
) -> anyhow::Result<()> {
    let mut told = 0u32;
    // counted, since no loop of this project may run forever
    for _ in 0..=cells {
        match index.scan(table, MOST) {
            Ok(
                Scanned {
                    stop: Stop::Spent,
                    ..
                },
            ) => {}
            Ok(
                Scanned {
                    stop: Stop::Ended,
                    ..
                },
            ) => return Ok(()),
            Ok(
                Scanned {
                    stop: Stop::Full,
                    ..
                },
            ) => {
                let place = index.place();
                bail!(
                    "more than {MOST} records: the table is full at place {place}. Index the recording in pieces, by extent=PLACE:LENGTH"
                );
            }
            Err(refusal) => {
                let notice = refusal.notice();
                bail!("refused {notice}");
            }
        }
        if index.place().saturating_sub(told) >= STEP {
            told = index.place();
            let rows = index.rows();
            eprintln!(rt; "{told} of {cells} cells, {rows} rows")?;
        }
    }
    Ok(())
}

// Writes the file under another name first, so that none is left behind unfinished.
fn put_in_place(rt: &HostRuntime, path: &str, bytes: &[u8]) -> anyhow::Result<()> {
    let part = format!(in rt.alloc(); "{path}.part")?;
    let written = fs::write(rt, part.as_str(), bytes);
    let placed = written.and_then(|_| fs::rename(rt, part.as_str(), path));
    if placed.is_err() {
        let _ = fs::remove_file(rt, part.as_str());
    }
    placed.context(format_args!("{path} cannot be written"))
}

pub fn write_index<S: Store + Drop, K: RecordKind + Drop>(
    rt: &HostRuntime,
    store: S,
    kind: K,
    options: &Options,
) -> anyhow::Result<()> {
    let cells = store.len();
    let mut index = Index::open(store, kind);
    let mut table = vec![in rt.alloc(); Row::default(); MOST as usize]?;
    read_on(rt, &mut index, &mut table, cells)?;
    let mut buffer = vec![in rt.alloc(); 0u8; (index.rows() as usize)
        .saturating_mul(20)
        .saturating_add(16)]?;
    let Ok(length) = index.save(&table, &mut buffer) else {
        return Err(anyhow!("the rows make no sound index file"));
    };
    let bytes = buffer
        .get(..length as usize)
        .context("the index file does not fit")?;
    put_in_place(rt, options.index.as_str(), bytes)?;
    print_summary(rt, &index, &table, cells, options.nmea)
}
