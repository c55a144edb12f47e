// Writes the index file of a recording, and says in short what the recording holds and where it was hurt.
//   smbindex RECORDING INDEX [--nmea] [extent=PLACE:LENGTH].. [lost=FIRST:COUNT]..
// The recording is one of tuples, or of sentences with --nmea. With extents it lies in these pieces of the file, in
// their order; stretches that are named lost are not read. Where anything is refused, no index file is written.
#![tactic(auto)]

mod file;
mod options;
mod summary;

use anyhow::{Context, bail, ensure};
use file::write_index;
use options::Options;
use recording::Store;
use recording::extents::{Extent, Extents};
use recording::plain::Plain;
use recording::stretches::{Stretch, Stretches};
use records::kind::RecordKind;
use records::sentences::Sentences;
use records::tuples::Tuples;
use refusals::Refusal;
use std::fs;

// The pieces of the file that are named.
fn pieces<'a>(image: &'a [u8], rows: &'a [Extent]) -> anyhow::Result<Extents<'a, 'a>> {
    let store = Extents::new(image, rows);
    if let Err(bad) = store.check() {
        let notice = bad.notice();
        let row = notice.place;
        bail!(
            "extent {row} is longer than 33,554,431 cells, or one of more than 64 (refusal {notice})"
        );
    }
    Ok(store)
}

// A store without the stretches that are named lost.
fn without<S: Store + Drop>(below: S, lost: &[Stretch]) -> anyhow::Result<Stretches<S>> {
    let mut store = Stretches::new(below);
    for stretch in lost {
        let Stretch { first, count } = *stretch;
        if let Err(refusal) = store.mark(*stretch) {
            let notice = refusal.notice();
            bail!(
                "the stretch {first}:{count} is empty, passes the end, or is one of more than 64 (refusal {notice})"
            );
        }
    }
    Ok(store)
}

fn index_as<K: RecordKind + Drop>(
    rt: &HostRuntime,
    kind: K,
    image: &[u8],
    options: &Options,
) -> anyhow::Result<()> {
    if options.extents.is_empty() {
        let store = Plain::new(image);
        let cells = store.len() as usize;
        ensure!(
            cells == image.len(),
            "longer than 2,147,483,647 bytes: name pieces of it by extent=PLACE:LENGTH"
        );
        write_index(rt, without(store, &options.lost)?, kind, options)
    } else {
        let store = pieces(image, &options.extents)?;
        write_index(rt, without(store, &options.lost)?, kind, options)
    }
}

fn main(rt: HostRuntime) -> anyhow::Result<()> {
    let options = Options::read(&rt)?;
    let recording = options.recording.as_str();
    let image = fs::read(&rt, recording).context(format_args!("{recording} cannot be read"))?;
    ensure!(!image.is_empty(), "{recording} is empty");
    if options.nmea {
        index_as(&rt, Sentences, &image, &options)
    } else {
        index_as(&rt, Tuples, &image, &options)
    }
}
