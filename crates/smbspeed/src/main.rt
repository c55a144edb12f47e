// Lists a recording again and again, and tells how long the quickest round took.
//   smbspeed RECORDING tuples|sentences ROUNDS
// A recording with more rows than a table holds is listed by one index after the other, each over what is left.
#![tactic(auto)]

use anyhow::{Context, anyhow};
use index::Index;
use index::scan::MOST;
use indexfile::row::Row;
use listing::answer::{Scanned, Stop};
use recording::Store;
use recording::plain::Plain;
use records::kind::RecordKind;
use records::sentences::Sentences;
use records::tuples::Tuples;
use std::time::Instant;
use std::{env, fs};

// What a listing comes to: two listings with the same rows have the same sum.
#[derive(Clone, Copy, Default)]
struct Total {
    rows: u64,
    skipped: u64,
    sum: u64,
}

impl Total {
    fn add(&mut self, from: usize, rows: &[Row], skipped: u32) {
        for row in rows {
            let place = (from as u64).wrapping_add(row.place as u64);
            let kind = (row.tag as u64) ^ (row.time as u64) ^ ((row.source_type as u64) << 16);
            let more = place ^ ((row.length as u64) << 32) ^ kind ^ (row.source_id as u64);
            self.sum = self.sum.wrapping_mul(31).wrapping_add(more);
        }
        self.rows = self.rows.wrapping_add(rows.len() as u64);
        self.skipped = self.skipped.wrapping_add(skipped as u64);
    }
}

// Lists the bytes up to the end or to a full table: the place reached.
fn list_part<K: RecordKind + Drop>(
    kind: K,
    bytes: &[u8],
    from: usize,
    table: &mut [Row],
    total: &mut Total,
) -> usize {
    let mut index = Index::open(Plain::new(bytes), kind);
    // counted, so that it ends; no index takes more scans
    for _ in 0..=MOST {
        let Ok(
            Scanned {
                stop: Stop::Spent,
                ..
            },
        ) = index.scan(table, MOST)
        else {
            break;
        };
    }
    if let Some(held) = table.get(..index.rows() as usize) {
        total.add(from, held, index.skipped());
    }
    index.place() as usize
}

fn list_all<K: RecordKind + Copy + Drop>(kind: K, bytes: &[u8], table: &mut [Row]) -> Total {
    let mut total = Total::default();
    let mut from = 0usize;
    // counted, so that it ends: an index over a table without rows reaches no further
    for _ in 0..=bytes.len() {
        if from >= bytes.len() {
            break;
        }
        let reached = list_part(kind, &bytes[from..], from, table, &mut total);
        from = from.saturating_add(reached);
    }
    total
}

fn run<K: RecordKind + Copy + Drop>(
    rt: &HostRuntime,
    kind: K,
    bytes: &[u8],
    rounds: u32,
) -> anyhow::Result<()> {
    let mut table = vec![in rt.alloc(); Row::default(); MOST as usize]?;
    let mut best: Option<u128> = None;
    for _ in 0..rounds {
        let start = Instant::now(rt)?;
        let total = list_all(kind, bytes, &mut table);
        let took = start.elapsed(rt)?.as_nanos();
        best = Some(best.map_or(took, |b| b.min(took)));
        // looked at, so that the round is not left out
        if total.rows == u64::MAX {
            break;
        }
    }
    let Total { rows, skipped, sum } = list_all(kind, bytes, &mut table);
    println!(rt; "rows {rows} skipped {skipped} sum {sum:x}")?;
    if let Some(best) = best {
        println!(rt; "nanoseconds {best}")?;
    }
    Ok(())
}

fn main(rt: HostRuntime) -> anyhow::Result<()> {
    let mut args = env::args(&rt)?.skip(1);
    let path = args.next().context("no recording")?;
    let kind = args.next().context("no kind")?;
    let rounds = args.next().context("no rounds")?.parse::<u32>()?;
    let bytes = fs::read(&rt, path.as_str())?;
    match kind.as_str() {
        "tuples" => run(&rt, Tuples, &bytes, rounds),
        "sentences" => run(&rt, Sentences, &bytes, rounds),
        _ => Err(anyhow!("no such kind")),
    }
}
