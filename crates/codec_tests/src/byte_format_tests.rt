use byte_format::{
    add, add_text8, add_text16, add_u8, add_u16, add_u64, compare, is_below, is_below_bound,
    is_same, mark_at, more_at, text8_at, text16_at, try_add, try_add_text8, try_add_text16,
    try_add_u8, try_add_u16, try_add_u64, u8_at, u16_at, u64_at,
};
use std::alloc::AllocError;
use std::process::Abort;

/// A mark, numbers of one, two and eight bytes, texts behind one and two bytes of length.
const FIELDS: [u8; 20] = [
    9, 1, 0, 2, 0, 0, 0, 0, 0, 0, 0, 3, 2, b'a', b'b', 0, 1, b'c', 0, 7,
];

/// In order: a front first, bytes with no sign, what differs on either side of four, eight and sixteen bytes.
const ASCENDING: [&[u8]; 16] = [
    b"",
    b"\0",
    b"abc",
    b"abcd",
    b"abcdefg",
    b"abcdefgh",
    b"abcdefgh\0",
    b"abcdefghabcdefg",
    b"abcdefghabcdefgh",
    b"abcdefghabcdefgi",
    b"abcdefgi",
    b"abcd\x7f",
    b"abcd\x80",
    b"abd",
    b"\x80",
    b"\xff",
];

/// The numbers behind the mark, and what is behind them.
fn numbers(bytes: &[u8]) -> Option<((u8, u16, u64), &[u8])> {
    let rest = mark_at(bytes, 9).ok()?;
    let (one, rest) = u8_at(rest, 1, 1).ok()?;
    let (two, rest) = u16_at(rest, 2, 2).ok()?;
    let (eight, rest) = u64_at(rest, 3, 3).ok()?;
    Some(((one, two, eight), rest))
}

/// The texts behind the numbers, and what is behind them.
fn texts(bytes: &[u8]) -> Option<((&[u8], &[u8]), &[u8])> {
    let (_, rest) = numbers(bytes)?;
    let (short, rest) = text8_at(rest, 2, 2).ok()?;
    let (long, rest) = text16_at(rest, 0, 1).ok()?;
    Some(((short, long), rest))
}

/// Whether the list goes on behind the texts, and what is behind its end.
fn end(bytes: &[u8]) -> Option<(bool, &[u8])> {
    let (_, rest) = texts(bytes)?;
    more_at(rest, true).ok()
}

#[test]
fn numbers_are_read(rt: HostRuntime) {
    match numbers(&FIELDS) {
        Some((numbers, _)) => assert!(rt; numbers == (1, 2, 3)),
        None => rt.panic("no numbers"),
    }
}

#[test]
fn texts_are_read(rt: HostRuntime) {
    match texts(&FIELDS) {
        Some(((short, long), _)) => {
            assert!(rt; short == b"ab".as_slice() && long == b"c".as_slice());
            assert!(rt; is_below(short, long) && is_below_bound(short, Some(long)));
            assert!(rt; is_same(long, long));
        }
        None => rt.panic("no texts"),
    }
}

#[test]
fn bytes_are_compared(rt: HostRuntime) {
    for (i, a) in ASCENDING.iter().enumerate() {
        for (j, b) in ASCENDING.iter().enumerate() {
            assert!(rt; compare(*a, *b) == i.cmp(&j));
            assert!(rt; is_below(*a, *b) == (i < j) && is_same(*a, *b) == (i == j));
        }
    }
}

#[test]
fn the_end_of_a_list_is_read(rt: HostRuntime) {
    let Some((more, rest)) = end(&FIELDS) else {
        rt.panic("no end")
    };
    assert!(rt; !more && rest == [7].as_slice());
    match u8_at(rest, 8, 9) {
        Ok(_) => rt.panic("a number below the range"),
        Err(stop) => assert!(rt; stop.offset(&FIELDS) == 19),
    }
}

/// Adds the fields up to the end of the list.
fn try_fields(out: &mut Vec<u8>) -> Result<(), AllocError> {
    try_add(out, &[9])?;
    try_add_u8(out, 1)?;
    try_add_u16(out, 2)?;
    try_add_u64(out, 3)?;
    try_add_text8(out, b"ab")?;
    try_add_text16(out, b"c")
}

#[test]
fn written(rt: HostRuntime) {
    let mut out = Vec::new(rt.alloc());
    assert!(rt; try_fields(&mut out).is_ok() && out.as_slice() == &FIELDS[..18]);
}

#[test]
fn written_where_there_is_room(rt: HostRuntime) {
    let Ok(mut spare) = Vec::with_capacity(rt.alloc(), 18) else {
        rt.panic("no room")
    };
    add(&mut spare, &[9]);
    add_u8(&mut spare, 1);
    add_u16(&mut spare, 2);
    add_u64(&mut spare, 3);
    add_text8(&mut spare, b"ab");
    add_text16(&mut spare, b"c");
    assert!(rt; spare.as_slice() == &FIELDS[..18]);
}
