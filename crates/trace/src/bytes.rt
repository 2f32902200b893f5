ghost use Rattle.std.specs.Prelude.{◌≡◌, ◌<◌, ◌≤◌, length, drop, MatchOption};
ghost use Rattle.trace.specs.Bytes.{first_word, from_bytes};

/// The first word of the bytes, highest byte first, and the bytes after it; none where fewer than four are left.
pub fn next_word(bytes: &[u8]) -> Option<(u32, &[u8])>
    ensures { MatchOption result (length bytes.now < 4) (λ p. (4 ≤ length bytes.now) × (p.0 ≡ first_word bytes.now) × (p.1.now ≡ drop 4 bytes.now)) }
{
    match bytes {
        [a, b, c, d, rest @ ..] => Some((word(*a, *b, *c, *d), rest)),
        _ => None,
    }
}

fn word(a: u8, b: u8, c: u8, d: u8) -> u32
    ensures { result ≡ from_bytes a b c d }
{
    u32::from_be_bytes([a, b, c, d])
}
