// The members of settings, and which of them stand.
ghost use Rattle.std.specs.Prelude.{◌≡◌, ◌≤◌, length};
ghost use Rattle.layouts.specs.Letters.{field_of};
ghost use Rattle.layouts.specs.Located.{letters_said};
ghost use Rattle.layouts.specs.Members.{stands, present};

use self::Stands::{From, HighRate, LowRate};
use crate::letters::Letter;
use crate::letters::Letter::{B, L, R, S, W};
use crate::settings::Settings;

// The members of settings: the twelve of the extra header, and those behind it.
const MEMBERS: [(Stands, Letter); 100] = [
    (From(1), W), // BytesInPacket
    (From(1), B), // DisplayMode
    (From(1), B), // ScanDirection
    (From(1), W), // StepSize
    (From(1), W), // StartAngle
    (From(1), W), // SectorHeading
    (From(1), B), // Upsample
    (From(1), B), // BitsPerSample
    (From(1), B), // ZoomFactor
    (From(1), B), // Version
    (From(1), L), // SamplingRate
    (From(1), W), // SamplingDelay
    (From(1), S), // ScanStopsLeft
    (From(1), S), // ScanStopsRight
    (From(1), S), // SectorLeft
    (From(1), S), // SectorRight
    (From(1), W), // ProfileNumReturns
    (From(1), W), // ProfileMinThreshold
    (From(1), W), // ProfileMaxThreshold
    (From(1), W), // ProfileMinRange
    (From(1), W), // ProfileMaxRange
    (From(1), W), // ProfileMinWidth
    (From(1), W), // ProfileMinGap
    (From(1), W), // ProfileReserved
    (From(1), L), // BaudRate
    (From(11), W), // SoundSpeedUser
    (From(1), R(16)), // FutureExpansion1
    (From(10), B), // AutoTvg
    (From(9), B), // TestTone
    (From(9), S), // MinCableGain
    (From(9), S), // MaxCableGain
    (From(9), B), // DualTransmitRatio
    (From(9), W), // TiltSectorHeading
    (From(9), B), // GainShiftFactor
    (From(8), B), // OversamplingFrequencyFactor
    (From(7), W), // AssociationFlag1
    (From(7), W), // AssociationFlag2
    (From(5), B), // HiResSampAcquisFactor
    (From(1), B), // HardwareSyncMode
    (From(1), B), // Bandwidth
    (From(1), W), // SectorHeading
    (From(1), W), // SectorWidth
    (HighRate, L), // HighFrequencySampRate
    (From(1), W), // StepSize
    (From(1), W), // HeadAngle
    (LowRate, W), // SampRate
    (From(1), W), // SampCount
    (From(1), W), // SampDelay
    (From(1), W), // Range
    (From(1), W), // Gain
    (From(1), W), // PulseLength
    (From(1), W), // MultiPingCount
    (From(1), B), // StepAck
    (From(1), B), // CommID
    (From(1), B), // Paused
    (From(1), B), // ImageProfMode
    (From(1), B), // TransmitterOn
    (From(1), B), // XDCRorientation
    (From(1), B), // DisplayMode
    (From(1), B), // ZoomFactor
    (From(1), B), // ScanDirection
    (From(1), B), // BitsPerSample
    (From(1), B), // UpSample
    (From(1), B), // BeamType
    (From(1), W), // HidPartNumber1
    (From(1), W), // HidPartNumber2
    (From(1), L), // HidSerialNumber
    (From(1), L), // HidType
    (From(1), W), // HidVersion1
    (From(1), W), // HidVersion2
    (From(1), L), // HidData1
    (From(1), L), // HidData2
    (From(1), W), // HidMaxBaudrateIn300bps
    (From(1), W), // HidMaxMessageDataBytes
    (From(1), W), // HidReserved
    (From(1), W), // HidTelemetryVersion
    (From(1), R(36)), // HeadContName
    (From(1), W), // ZoomOffset
    (From(1), W), // SoundSpeedDefault
    (From(1), B), // HeadControllerVersion
    (From(1), B), // SyncState
    (From(1), B), // SyncMask
    (From(1), B), // OperationMode
    (From(1), B), // TvgType
    (From(1), B), // TvgAFactor
    (From(1), W), // TvgBFactor
    (From(1), S), // TvgCFactor
    (From(1), B), // TvgLimit
    (From(1), S), // TiltAngle
    (From(1), W), // CableCalibration
    (From(1), B), // TiltMode
    (From(1), B), // TiltStepsize
    (From(1), S), // MaxTilt
    (From(1), S), // MinTilt
    (From(1), S), // TiltStopsLeft
    (From(1), S), // TiltStopsRight
    (From(1), B), // HeadJumperSetting
    (From(1), W), // HeadSoftwareVersion
    (From(1), B), // AvailableSensors
    (From(1), B), // TrawlSensorReadInterval
];

// When a member stands: from a version on, or as the one or the other sampling rate.
#[derive(Clone, Copy)]
enum Stands {
    From(u8),
    HighRate,
    LowRate,
}

impl Stands {
    fn stands(self, settings: Settings) -> bool
        ensures { result ≡ stands settings.version settings.altimeter self }
    {
        let version = settings.version;
        let high = version >= 6 || (version >= 3 && settings.altimeter);
        match self {
            Stands::From(first) => first <= version,
            Stands::HighRate => high,
            Stands::LowRate => !high,
        }
    }
}

// The place and the letter of a field of those members that stand.
fn field_of(members: &[(Stands, Letter)], settings: Settings, n: usize) -> Option<(usize, Letter)>
    requires { length members.now ≤ 100 }
    ensures { result ≡ field_of (present settings.version settings.altimeter members.now) n }
{
    // one walk counts fields and bytes: of a chain of filters no proof closed
    let mut at = 0;
    let mut left = n;
    for (stands, letter) in members {
        if !stands.stands(settings) {
            continue;
        }
        if left == 0 {
            return Some((at, *letter));
        }
        at += letter.size();
        left -= 1;
    }
    None
}

impl Settings {
    // The place and the letter of a field of settings.
    pub(crate) fn field(self, n: usize) -> Option<(usize, Letter)>
        ensures { result ≡ field_of (letters_said self) n }
    {
        field_of(&MEMBERS, self, n)
    }
}
