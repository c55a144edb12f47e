// Where the fields of a body are.
ghost use Rattle.std.specs.Prelude.{◌≡◌, ◌+◌, ◌≤◌, length, IfSome, IfOk};
ghost use Rattle.layouts.specs.Letters.{size};
ghost use Rattle.layouts.specs.Located.{located_in};

use crate::catalogue::fixed_letters;
use crate::fault::LayoutFault;
use crate::kind::BodyKind;
use crate::letters::Letter;
use crate::settings::read_settings;

// Where field n begins, and its letter; only a sound body of members has fields.
// A struct in place of the pair would be no plainer: every caller takes it apart at once.
// Type and body are two: the type comes from a row, the body from a buffer.
pub fn locate(data_type: u32, body: &[u8], n: usize) -> Result<Option<(usize, Letter)>, LayoutFault>
    ensures value { result ≡ located_in data_type body.now n }
    ensures within { IfOk result (λ o. IfSome o (λ p. p.0 + size p.1 ≤ length body.now)) }
{
    match BodyKind::from(data_type) {
        BodyKind::Settings => Ok(read_settings(body)?.field(n)),
        _ => Ok(fixed_letters(data_type, body)?.field(n)),
    }
}
