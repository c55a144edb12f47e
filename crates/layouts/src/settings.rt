// Settings of a sonar head, type 15: an extra header and the members that stand in its version.
ghost use Rattle.std.specs.Prelude.{◌≡◌, ◌-◌, ◌≤◌, length, drop, Ok, IfSome, IfOk};
ghost use Rattle.std.specs.Result.{result_map_both};
ghost use Rattle.layouts.specs.Examples.{Examples};
ghost use Rattle.layouts.specs.Letters.{total};
ghost use Rattle.layouts.specs.Members.{settings_letters};
ghost use Rattle.layouts.specs.Settings.{settings_length, altimeter_for, head_agrees, head_controller_version, hid_type, counter_of, version as version_in, version_for, settings_checks, settings_body, settings_of};

use crate::fault::LayoutFault;
use byteorder::{ByteOrder, LittleEndian};

// Whether pings carry an overload counter.
#[derive(Clone, Copy, Debug, PartialEq, Eq)]
pub enum Counter {
    With,
    Without,
}

// What sound settings say of their own layout, and of the pings that they govern.
#[derive(Clone, Copy, Debug, PartialEq, Eq)]
pub struct Settings {
    pub version: u8,
    pub altimeter: bool,
    pub counter: Counter,
}

// How long settings of a version are; there are versions 1 to 11, and altimeters differ in 3 to 5.
// A rule of the project keeps this a match on ranges of versions.
pub fn settings_length(version: u8, altimeter: bool) -> Option<usize>
    ensures value { result ≡ settings_length version altimeter }
    ensures least { IfSome result (λ n. 202 ≤ n) }
{
    match version {
        1..=2 => Some(202),
        3..=4 if altimeter => Some(204),
        3..=4 => Some(202),
        5 if altimeter => Some(205),
        5 => Some(203),
        6 => Some(205),
        7 => Some(209),
        8 => Some(210),
        9 => Some(219),
        10 => Some(220),
        11 => Some(222),
        _ => None,
    }
}

// A body as long as its Version says.
#[derive(Clone, Copy)]
struct Measured<'a> {
    body: &'a [u8],
    version: u8,
    ghost own: { version ≡ version_in body.now },
    ghost measured: { version_for (length body.now) version ≡ Ok version },
    ghost long: { 202 ≤ length body.now },
}

impl<'a> Measured<'a> {
    fn new(body: &'a [u8]) -> Result<Measured<'a>, LayoutFault>
        ensures value { result_map_both (λ m. m.version) (λ e. e) result ≡ version_for (length body.now) (version_in body.now) }
        ensures same { IfOk result (λ m. m.body.now ≡ body.now) }
    {
        if body.len() < 20 {
            return Err(LayoutFault::Length);
        }
        let version = body[13];
        let (Some(rest), Some(altimeter)) = (
            settings_length(version, false),
            settings_length(version, true),
        ) else {
            return Err(LayoutFault::Version);
        };
        if body.len() != rest && body.len() != altimeter {
            return Err(LayoutFault::Length);
        }
        Ok(Measured { body, version })
    }

    // The bytes from so many before the end on.
    fn back(&self, n: usize) -> &'a [u8]
        requires { n ≤ 202 }
        ensures { result.now ≡ drop (length self.now.body.now - n) self.now.body.now }
    {
        &self.body[self.body.len() - n..]
    }

    // In versions 3 to 5 the length tells an altimeter's settings.
    fn is_altimeter(&self) -> bool
        ensures { result ≡ altimeter_for (length self.now.body.now) self.now.version }
    {
        match self.version {
            3..=4 => self.body.len() == 204,
            5 => self.body.len() == 205,
            _ => false,
        }
    }

    // In versions 3 to 5 HidType is 0x1007 exactly for an altimeter.
    fn head_agrees(&self) -> bool
        ensures { result ≡ head_agrees (length self.now.body.now) self.now.version (hid_type self.now.body.now) }
    {
        match self.version {
            3..=5 => (LittleEndian::read_u32(self.back(94)) == 0x1007) == self.is_altimeter(),
            _ => true,
        }
    }

    fn counter(&self) -> Counter
        ensures { result ≡ counter_of self.now.body.now }
    {
        let hid_part_number2 = LittleEndian::read_u16(self.back(100));
        let hid_version1 = LittleEndian::read_u16(self.back(90));
        match hid_part_number2 {
            0x1001 | 0x1071 if hid_version1 >= 0x0220 => Counter::With,
            _ => Counter::Without,
        }
    }

    fn check(&self) -> Result<(), LayoutFault>
        ensures { result ≡ settings_checks (length self.now.body.now) self.now.version (head_controller_version self.now.body.now) (hid_type self.now.body.now) }
    {
        if self.body[self.body.len() - 30] != self.version {
            return Err(LayoutFault::HeadControllerVersion(self.body.len() - 30));
        }
        if !self.head_agrees() {
            return Err(LayoutFault::HidType(self.body.len() - 94));
        }
        Ok(())
    }
}

// Whether a settings body is sound.
// A function of its own, since callers judge without what is said.
pub fn judge_settings(body: &[u8]) -> Result<(), LayoutFault>
    ensures value { result ≡ settings_body body.now }
    ensures examples { Examples }
{
    Measured::new(body)?.check()
}

// What a sound settings body says.
pub fn read_settings(body: &[u8]) -> Result<Settings, LayoutFault>
    ensures value { result ≡ settings_of body.now }
    ensures whole { IfOk result (λ s. length body.now ≡ total (settings_letters s.version s.altimeter)) }
{
    let measured = Measured::new(body)?;
    measured.check()?;
    Ok(Settings {
        version: measured.version,
        altimeter: measured.is_altimeter(),
        counter: measured.counter(),
    })
}
