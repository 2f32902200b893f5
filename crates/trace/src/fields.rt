ghost use Rattle.std.specs.Prelude.{◌≡◌, ◌+◌, ◌*◌, ◌%◌, ◌^◌, ◌<◌};

/// The lowest bits of a word.
pub(crate) fn low<const BITS: u32>(word: u32) -> u32
    requires { BITS < 32 }
    ensures { result ≡ word % 2 ^ BITS }
{
    word % (1 << BITS)
}

/// The word of a kind and a seat, and of what stands below the seat.
pub(crate) fn word(kind: u32, seat: u8, low: u32) -> u32
    requires kind_bound { kind < 16 }
    requires low_bound { low < 2 ^ 20 }
    ensures { result ≡ kind * 2 ^ 28 + seat * 2 ^ 20 + low }
{
    (kind << 28) + (u32::from(seat) << 20) + low
}

/// The word of a kind and two seats.
pub(crate) fn seats_word(kind: u32, first: u8, second: u8) -> u32
    requires { kind < 16 }
    ensures { result ≡ kind * 2 ^ 28 + first * 2 ^ 20 + second * 2 ^ 12 }
{
    word(kind, first, u32::from(second) << 12)
}
