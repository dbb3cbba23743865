//! Zigzag numbers: 0, -1, 1, -2 and so on are 0, 1, 2, 3 and so on.

ghost use Rattle.std.specs.Prelude.{◌≡◌};
ghost use Rattle.varint.specs.Encoding.{zigzag};
ghost use Rattle.varint.specs.Reading.{unzigzag};

/// The zigzag number of a signed number.
#[inline]
pub fn zigzag_of(value: i64) -> u64
    ensures { result ≡ zigzag value }
{
    if value >= 0 {
        value as u64 * 2
    } else {
        (-(value + 1)) as u64 * 2 + 1
    }
}

/// The signed number of a zigzag number.
#[inline(always)]
pub fn number_of(code: u64) -> i64
    ensures { result ≡ unzigzag code }
{
    if code % 2 == 0 {
        (code / 2) as i64
    } else {
        -((code / 2) as i64) - 1
    }
}
