// Answers about bodies.
use crate::words::Words;
use bodies::judge::judge_body;
use bodies::user::{UserParts, read_user};
use layouts::kind::BodyKind;
use layouts::settings::Counter;
use lister::refusal_line;
use packets::multi::read_multi;
use packets::packet::{Content, PacketParts};
use packets::pair::{TwoPackets, read_pair};
use packets::profile::{OnePacket, read_profile};
use packets::sonar::{SonarParts, read_sonar};
use refusals::Refusal;
use std::alloc::{AllocError, Global};

fn judge_line(heap: Global, t: u32, body: &[u8], counter: Counter) -> Result<String, AllocError> {
    match judge_body(t, counter, body) {
        Ok(()) => String::from_str(heap, "sound"),
        Err(fault) => fault.notice().to_string(heap),
    }
}

// Parts that follow one another, with the place that was reached, and whether there are counters.
#[derive(Drop)]
struct Parts {
    text: String,
    at: usize,
    counter: Counter,
}

impl Parts {
    fn push(&mut self, name: &str, part: &[u8]) -> Result<(), AllocError> {
        let at = self.at;
        let end = at.saturating_add(part.len());
        self.at = end;
        write!(self.text, " {name}={at}..{end}")
    }

    fn skip_zero(&mut self) {
        self.at = self.at.saturating_add(1);
    }

    // The counter, if there is one.
    fn push_counter(&mut self, name: &str, part: &[u8]) -> Result<(), AllocError> {
        match self.counter {
            Counter::With => self.push(name, part),
            Counter::Without => Ok(()),
        }
    }

    fn push_packet(&mut self, header: &str, p: PacketParts<'_>) -> Result<(), AllocError> {
        self.push(header, p.header)?;
        match p.packet.content {
            Content::Sonar => {
                self.push("sonar", p.data)?;
                self.push_counter("counter", p.counters)
            }
            Content::Profile => self.push("profile", p.data),
        }
    }

    fn push_user(&mut self, user: UserParts<'_>) -> Result<(), AllocError> {
        self.push("Name", user.name)?;
        self.skip_zero();
        self.push("Format", user.format)?;
        self.skip_zero();
        self.push("Data", user.data)
    }

    fn push_sonar(&mut self, sonar: SonarParts<'_>) -> Result<(), AllocError> {
        self.push("extra", sonar.extra_header)?;
        self.push("data", sonar.data)?;
        self.push_counter("counter", sonar.counter)
    }

    fn push_one(&mut self, profile: OnePacket<'_>) -> Result<(), AllocError> {
        self.push("extra", profile.extra_header)?;
        self.push_packet("header", profile.packet)
    }

    fn push_two(&mut self, pair: TwoPackets<'_>) -> Result<(), AllocError> {
        self.push("extra", pair.extra_header)?;
        self.push_packet("header1", pair.first)?;
        self.push_packet("header2", pair.second)
    }

    fn push_pings(&mut self, multi: OnePacket<'_>) -> Result<(), AllocError> {
        self.push("extra", multi.extra_header)?;
        self.push("header", multi.packet.header)?;
        self.push("pings", multi.packet.data)?;
        self.push_counter("counters", multi.packet.counters)
    }
}

// The parts of a sound body.
fn push_parts(parts: &mut Parts, t: u32, body: &[u8]) -> Result<(), AllocError> {
    let counter = parts.counter;
    match BodyKind::from(t) {
        BodyKind::UserDefined => read_user(body).map_or(Ok(()), |user| parts.push_user(user)),
        BodyKind::Sonar => {
            read_sonar(body, counter).map_or(Ok(()), |sonar| parts.push_sonar(sonar))
        }
        BodyKind::Profile => read_profile(body).map_or(Ok(()), |one| parts.push_one(one)),
        BodyKind::SonarAndProfile => {
            read_pair(body, counter).map_or(Ok(()), |two| parts.push_two(two))
        }
        BodyKind::MultiSonar => {
            read_multi(body, counter).map_or(Ok(()), |multi| parts.push_pings(multi))
        }
        BodyKind::Settings | BodyKind::Members => parts.text.push(' '),
    }
}

fn parts_line(heap: Global, t: u32, body: &[u8], counter: Counter) -> Result<String, AllocError> {
    if let Err(fault) = judge_body(t, counter, body) {
        return refusal_line(heap, &fault);
    }
    let mut parts = Parts {
        text: String::from_str(heap, "ok")?,
        at: 0,
        counter,
    };
    push_parts(&mut parts, t, body)?;
    Ok(parts.text)
}

pub fn judge_answer(heap: Global, words: &mut Words<'_>) -> Option<String> {
    let t = words.parsed()?;
    let body = words.bytes(heap)?;
    judge_line(heap, t, &body, words.counter()?).ok()
}

pub fn parts_answer(heap: Global, words: &mut Words<'_>) -> Option<String> {
    let t = words.parsed()?;
    let body = words.bytes(heap)?;
    parts_line(heap, t, &body, words.counter()?).ok()
}
