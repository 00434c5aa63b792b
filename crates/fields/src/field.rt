//! Fields: one tag byte, two length bytes and the body.
ghost use Rattle.std.specs.Prelude.{◌≡◌, ℕ, ◌+◌, ◌*◌, ◌<◌, ◌≤◌, length};
ghost use Rattle.fields.specs.Cuts.{CutField};
ghost use Rattle.format.specs.Parts.{pair};

/// Two bytes as one number, the high byte first.
pub fn pair(high: u8, low: u8) -> u16
    ensures { result ≡ 256 * high + low }
{
    u16::from_be_bytes([high, low])
}

/// A field: its tag byte and its body, and the bytes behind it.
#[derive(Clone, Copy)]
pub struct Field<'a> {
    pub tag: u8,
    pub body: &'a [u8],
    pub rest: &'a [u8],
}

/// The first field of the bytes, or none where its head or its body is cut short.
pub fn next_field(bytes: &[u8]) -> Option<Field<'_>>
    ensures { CutField bytes.now result }
{
    let [tag, high, low, more @ ..] = bytes else {
        return None;
    };
    let size = usize::from(pair(*high, *low));
    let (body, rest) = more.split_at_checked(size)?;
    Some(Field {
        tag: *tag,
        body,
        rest,
    })
}
