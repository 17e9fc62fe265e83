//! How many keys stand above one.

ghost use Rattle.std.specs.Prelude.{◌≡◌, ◌^◌, ◌-◌, min};
ghost use Rattle.dump_text.specs.Room.{keys_within, keys_above};

/// How many keys have at most so many bytes, at most the greatest number. Takes no memory.
fn keys_within(len: usize) -> u64
    ensures { result ≡ min (keys_within len) (2 ^ 64 - 1) }
{
    if len == 0 {
        return 0;
    }
    if len >= 8 {
        return u64::MAX;
    }
    keys_within(len - 1).saturating_add(1).saturating_mul(256)
}

/// How many keys of at most so many bytes stand above one of them, at most the greatest number. Takes no memory.
pub(crate) fn keys_above(len: usize, key: &[u8]) -> u64
    ensures { result ≡ min (keys_above len key.now) (2 ^ 64 - 1) }
{
    match key {
        [] => keys_within(len),
        [first, behind @ ..] => {
            if len == 0 {
                return 0;
            }
            // Those with a greater first byte, and those with the same one.
            u64::from(255 - *first)
                .saturating_mul(keys_within(len - 1).saturating_add(1))
                .saturating_add(keys_above(len - 1, behind))
        }
    }
}
