//! The slots of keys.

ghost use Rattle.std.specs.Prelude.{◌≡◌, ◌<◌};
ghost use Rattle.head_codec.specs.Slot.{slot_of};

/// How many slots there are.
pub const SLOTS: usize = 4096;

/// The slot of a key, below 4,096: keys of different slots differ.
#[tactic(auto, unfolding(crate::specs::Slot::slot_of))]
pub fn slot_of(key: &[u8]) -> usize
    ensures slot { result ≡ slot_of key.now }
    ensures within { result < 4096 }
{
    let mut slot: usize = 0;
    let mut left = key;
    while let Some((byte, rest)) = left.split_first() {
        slot = (slot * 31 + *byte as usize) % SLOTS;
        left = rest;
    }
    slot
}
