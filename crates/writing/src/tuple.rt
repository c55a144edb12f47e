// A tuple taken apart.
ghost use Rattle.std.specs.Prelude.{◌≡◌, IfOk};
ghost use Rattle.std.specs.Result.{result_map_both};
ghost use Rattle.writing.specs.Written.{written};
ghost use Rattle.writing.specs.Opened.{parts_of, opened};

use crate::header::Header;
use crate::refusal::NotOneTuple;

#[derive(Clone, Copy, Debug)]
pub struct Tuple<'a> {
    pub header: Header,
    pub body: &'a [u8],
}

// Takes apart bytes that are one tuple and nothing else.
pub fn open(bytes: &[u8]) -> Result<Tuple<'_>, NotOneTuple>
    ensures value { result_map_both parts_of (λ e. e) result ≡ opened bytes.now }
    ensures law { IfOk result (λ t. written t.header t.body.now ≡ bytes.now) }
{
    let [
        0,
        0x80,
        a0,
        a1,
        b0,
        b1,
        c0,
        c1,
        t0,
        t1,
        t2,
        t3,
        n0,
        n1,
        body @ ..,
        m0,
        m1,
    ] = bytes
    else {
        return Err(NotOneTuple);
    };
    let size = u16::from_le_bytes([*n0, *n1]);
    if body.len() != size as usize || u16::from_le_bytes([*m0, *m1]) != size {
        return Err(NotOneTuple);
    }
    let header = Header {
        source_type: u16::from_le_bytes([*a0, *a1]),
        source_id: u16::from_le_bytes([*b0, *b1]),
        data_type: u16::from_le_bytes([*c0, *c1]),
        time: u32::from_le_bytes([*t0, *t1, *t2, *t3]),
    };
    Ok(Tuple { header, body })
}
