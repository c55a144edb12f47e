// Whether a body is sound.
ghost use Rattle.std.specs.Prelude.{◌≡◌};
ghost use Rattle.bodies.specs.Judge.{needs_settings, body_of, settled_of, tuple_of};

use crate::fault::{BodyFault, TupleFault, Wrong};
use crate::user::judge_user;
use layouts::catalogue::judge_fixed;
use layouts::kind::BodyKind;
use layouts::settings::{Counter, judge_settings};
use packets::multi::judge_multi;
use packets::pair::judge_pair;
use packets::profile::judge_profile;
use packets::sonar::judge_sonar;

// Only settings tell whether bodies of these types carry counters.
pub fn needs_settings(data_type: u32) -> bool
    ensures { result ≡ needs_settings data_type }
{
    matches!(
        BodyKind::from(data_type),
        BodyKind::Sonar | BodyKind::SonarAndProfile | BodyKind::MultiSonar
    )
}

// Whether a body of a type is sound, with or without a counter; a type without a layout never is.
pub fn judge_body(data_type: u32, counter: Counter, body: &[u8]) -> Result<(), BodyFault>
    ensures { result ≡ body_of data_type counter body.now }
{
    match BodyKind::from(data_type) {
        BodyKind::UserDefined => judge_user(body)?,
        BodyKind::Sonar => judge_sonar(body, counter)?,
        BodyKind::Profile => judge_profile(body)?,
        BodyKind::SonarAndProfile => judge_pair(body, counter)?,
        BodyKind::Settings => judge_settings(body)?,
        BodyKind::MultiSonar => judge_multi(body, counter)?,
        BodyKind::Members => judge_fixed(data_type, body)?,
    }
    Ok(())
}

fn judge_settled(data_type: u32, settled: Option<Counter>, body: &[u8]) -> Result<(), Wrong>
    ensures { result ≡ settled_of data_type settled body.now }
{
    let counter = settled.ok_or(Wrong::NoSettings)?;
    judge_body(data_type, counter, body)?;
    Ok(())
}

// Whether a tuple's body is sound, by what was settled; where nothing was, this comes before all else.
pub fn judge_tuple(data_type: u32, settled: Option<Counter>, body: &[u8]) -> Result<(), TupleFault>
    ensures { result ≡ tuple_of data_type settled body.now }
{
    judge_settled(data_type, settled, body).map_err(|wrong| (data_type, wrong))?;
    Ok(())
}
