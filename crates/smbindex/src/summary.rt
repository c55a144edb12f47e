// What a recording holds, in short, and where it was hurt.
use index::Index;
use indexfile::row::Row;
use recording::Store;
use records::kind::RecordKind;
use std::collections::BTreeMap;

// How many hurt places are told one by one.
const TOLD: usize = 20;

// Cells that were skipped, between two records or at an end.
#[derive(Clone, Copy)]
struct Gap {
    from: u32,
    to: u32,
    // The number of the row behind it.
    next: usize,
}

// The gaps between rows, up to the place reached.
fn gaps(rt: &HostRuntime, rows: &[Row], place: u32) -> anyhow::Result<Vec<Gap>> {
    let mut gaps = Vec::new(rt.alloc());
    let mut from = 0;
    for (next, row) in rows.iter().enumerate() {
        if row.place > from {
            gaps.push(Gap {
                from,
                to: row.place,
                next,
            })?;
        }
        from = row.place.saturating_add(row.length);
    }
    if place > from {
        gaps.push(Gap {
            from,
            to: place,
            next: rows.len(),
        })?;
    }
    Ok(gaps)
}

// The last clear boundary at a place or before it: the place itself, or else where a record begins that crosses it.
fn clear_before<S: Store + Drop, K: RecordKind + Drop>(
    index: &Index<S, K>,
    table: &[Row],
    place: u32,
) -> u32 {
    let mut boundary = place;
    // counted, since no loop of this project may run forever
    for _ in 0..=place {
        let Ok(Some(crossing)) = index.clear(table, boundary) else {
            break;
        };
        boundary = crossing;
    }
    boundary
}

// The first clear boundary behind a gap at which a row begins, or the end.
fn clear_behind<S: Store + Drop, K: RecordKind + Drop>(
    index: &Index<S, K>,
    table: &[Row],
    rows: &[Row],
    end: u32,
) -> u32 {
    for row in rows {
        if let Ok(None) = index.clear(table, row.place) {
            return row.place;
        }
    }
    end
}

// The three characters of a sentence's tag.
fn letters(tag: u32) -> [char; 3] {
    let at = |shift: u32| -> char { char::from(((tag >> shift) & 0xff) as u8) };
    [at(16), at(8), at(0)]
}

fn print_heads(rt: &HostRuntime, rows: &[Row], nmea: bool) -> anyhow::Result<()> {
    let mut heads = BTreeMap::new(rt.alloc());
    for row in rows {
        let head = if nmea {
            (row.tag, 0, 0)
        } else {
            (0, row.source_type, row.source_id)
        };
        let count: &mut u64 = heads.entry(head)?.or_insert(0);
        *count = count.saturating_add(1);
    }
    for ((tag, source_type, source_id), count) in &heads {
        if nmea {
            let [a, b, c] = letters(*tag);
            println!(rt; "sentence {a}{b}{c}: {count}")?;
        } else {
            println!(rt; "head {source_type}/{source_id}: {count}")?;
        }
    }
    Ok(())
}

pub fn print_summary<S: Store + Drop, K: RecordKind + Drop>(
    rt: &HostRuntime,
    index: &Index<S, K>,
    table: &[Row],
    cells: u32,
    nmea: bool,
) -> anyhow::Result<()> {
    let rows = &table[..table.len().min(index.rows() as usize)];
    let gaps = gaps(rt, rows, index.place())?;
    let count = rows.len();
    let skipped = index.skipped();
    let hurt = gaps.len();
    println!(rt; "rows {count}")?;
    println!(rt; "cells {cells}, skipped {skipped} in {hurt} places")?;
    print_heads(rt, rows, nmea)?;
    for gap in gaps.iter().take(TOLD) {
        let Gap { from, to, next } = *gap;
        let before = clear_before(index, table, from);
        let behind = clear_behind(index, table, rows.get(next..).unwrap_or(&[]), cells);
        println!(rt;
            "hurt from {from} to {to}, between the clear boundaries {before} and {behind}"
        )?;
    }
    if hurt > TOLD {
        let more = hurt.saturating_sub(TOLD);
        println!(rt; "and {more} more")?;
    }
    Ok(())
}
