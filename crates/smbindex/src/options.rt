// What the arguments ask for.
use anyhow::{anyhow, bail};
use lister::words::Word;
use recording::extents::Extent;
use recording::stretches::Stretch;
use std::env;

#[derive(Drop)]
pub struct Options {
    pub recording: String,
    pub index: String,
    pub nmea: bool,
    pub extents: Vec<Extent>,
    pub lost: Vec<Stretch>,
}

impl Options {
    pub fn read(rt: &HostRuntime) -> anyhow::Result<Options> {
        let mut args = env::args(rt)?.skip(1);
        let (Some(recording), Some(index)) = (args.next(), args.next()) else {
            return Err(anyhow!(
                "smbindex RECORDING INDEX [--nmea] [extent=PLACE:LENGTH].. [lost=FIRST:COUNT].."
            ));
        };
        let mut options = Options {
            recording,
            index,
            nmea: false,
            extents: Vec::new(rt.alloc()),
            lost: Vec::new(rt.alloc()),
        };
        for arg in args {
            match Word::read(arg.as_bytes()) {
                Some(Word::Extent(row)) => options.extents.push(row)?,
                Some(Word::Lost(stretch)) => options.lost.push(stretch)?,
                None if arg.as_str() == "--nmea" => options.nmea = true,
                None => bail!("{arg} is none of --nmea, extent=PLACE:LENGTH and lost=FIRST:COUNT"),
            }
        }
        Ok(options)
    }
}
