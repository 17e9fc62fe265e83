ghost use Rattle.std.specs.Prelude.{◌≡◌, ◌≤◌, ◌<◌, ◌+◌, ◌-◌, length, take, drop, IsTrue};
ghost use Rattle.std.specs.Int.{w64, to_le_bytes};
ghost use Rattle.memory_cloud.specs.Ends.{SameEnd, SameBefore};

/// How many bytes of the end of a base are looked for.
const MARK: usize = 32;

/// How far around a place the end of a base is looked for, in bytes.
const REACH: usize = 8;

/// How many bytes two slices have in common at their front. Compares 512 bytes at a time, then 64, then 8, then one.
pub fn common_front(first: &[u8], second: &[u8]) -> usize
    ensures first { result ≤ length first.now }
    ensures second { result ≤ length second.now }
    ensures same { take result first.now ≡ take result second.now }
{
    let chunks = front_from(first, second, 0, 512);
    let blocks = front_from(first, second, chunks, 64);
    let words = front_from(first, second, blocks, 8);
    front_from(first, second, words, 1)
}

/// How many bytes two slices have in common at their back. Compares 512 bytes at a time, then 64, then 8, then one.
pub fn common_back(first: &[u8], second: &[u8]) -> usize
    ensures first { result ≤ length first.now }
    ensures second { result ≤ length second.now }
    ensures same { SameEnd first.now second.now result }
{
    let chunks = back_from(first, second, 0, 512);
    let blocks = back_from(first, second, chunks, 64);
    let words = back_from(first, second, blocks, 8);
    back_from(first, second, words, 1)
}

// Goes on from a front in common, by so many bytes at a time.
fn front_from(first: &[u8], second: &[u8], start: usize, size: usize) -> usize
    requires size { 0 < size }
    requires first { start ≤ length first.now }
    requires second { start ≤ length second.now }
    requires same { take start first.now ≡ take start second.now }
    ensures first { result ≤ length first.now }
    ensures second { result ≤ length second.now }
    ensures same { take result first.now ≡ take result second.now }
{
    let mut count = start;
    while same_ahead(first, second, count, size) {
        count += size;
    }
    count
}

// Whether so many bytes behind a place are there in both, and the same.
fn same_ahead(first: &[u8], second: &[u8], at: usize, size: usize) -> bool
    requires first { at ≤ length first.now }
    requires second { at ≤ length second.now }
    ensures first { IsTrue result → at + size ≤ length first.now }
    ensures second { IsTrue result → at + size ≤ length second.now }
    ensures same { IsTrue result → take size (drop at first.now) ≡ take size (drop at second.now) }
{
    if first.len() - at < size || second.len() - at < size {
        return false;
    }
    let (_, first) = first.split_at(at);
    let (_, second) = second.split_at(at);
    are_same(&first[..size], &second[..size])
}

// Whether two slices are the same. Eight bytes are compared as one number, with no call.
#[inline]
fn are_same(first: &[u8], second: &[u8]) -> bool
    ensures { IsTrue result → first.now ≡ second.now }
{
    if first.len() == 8 && second.len() == 8 {
        return word(first) == word(second);
    }
    first == second
}

// The number that eight bytes spell.
#[inline]
fn word(bytes: &[u8]) -> u64
    requires { length bytes.now ≡ 8 }
    ensures { to_le_bytes w64 result ≡ bytes.now }
{
    u64::from_le_bytes([
        bytes[0], bytes[1], bytes[2], bytes[3], bytes[4], bytes[5], bytes[6], bytes[7],
    ])
}

// Goes on from a back in common, by so many bytes at a time.
fn back_from(first: &[u8], second: &[u8], start: usize, size: usize) -> usize
    requires size { 0 < size }
    requires first { start ≤ length first.now }
    requires second { start ≤ length second.now }
    requires same { SameEnd first.now second.now start }
    ensures first { result ≤ length first.now }
    ensures second { result ≤ length second.now }
    ensures same { SameEnd first.now second.now result }
{
    let mut count = start;
    while same_behind(first, second, count, size) {
        count += size;
    }
    count
}

// Whether so many bytes before a back are there in both, and the same.
fn same_behind(first: &[u8], second: &[u8], back: usize, size: usize) -> bool
    requires first { back ≤ length first.now }
    requires second { back ≤ length second.now }
    ensures first { IsTrue result → back + size ≤ length first.now }
    ensures second { IsTrue result → back + size ≤ length second.now }
    ensures same { IsTrue result → SameBefore first.now second.now back size }
{
    let first_end = first.len() - back;
    let second_end = second.len() - back;
    if first_end < size || second_end < size {
        return false;
    }
    are_same(
        &first[first_end - size..first_end],
        &second[second_end - size..second_end],
    )
}

/// Where a base ends in bytes: before their last one, or else near a place. It is a guess, by the last bytes of the base, and the end of the bytes
/// where they are not found.
pub fn end_of(base: &[u8], bytes: &[u8], near: usize) -> usize
    ensures { result ≤ length bytes.now }
{
    let mark = &base[base.len() - base.len().min(MARK)..];
    let last = bytes.len().saturating_sub(1);
    if ends_at(bytes, last, mark) {
        return last;
    }
    for distance in 0..REACH {
        if ends_at(bytes, near.saturating_add(distance), mark) {
            return near.saturating_add(distance);
        }
        if ends_at(bytes, near.saturating_sub(distance), mark) {
            return near.saturating_sub(distance);
        }
    }
    bytes.len()
}

// Whether a mark ends at a place.
fn ends_at(bytes: &[u8], end: usize, mark: &[u8]) -> bool
    ensures { IsTrue result → end ≤ length bytes.now }
{
    end <= bytes.len() && bytes[..end].ends_with(mark)
}
