use command_words::place::{Place, place_of};
use command_words::read::shape;
use command_words::shape::{Shape, WordsFault};
use std::alloc::Global;

/// Words of a shape, the name of the shape, its numbers, and its folder.
const SHAPES: [(&[&str], &str, &[u64], &str); 13] = [
    (&["replay"], "replay", &[], ""),
    (&["gen", "7", "10000"], "gen", &[7, 10000], ""),
    (&["gen", "0", "0"], "gen", &[0, 0], ""),
    (
        &["gen", "18446744073709551615", "1"],
        "gen",
        &[u64::MAX, 1],
        "",
    ),
    (&["shell", "1", "store"], "shell", &[1], "store"),
    (&["shell", "64", ""], "shell", &[64], ""),
    (&["shell", "2", "a-b"], "shell", &[2], "a-b"),
    (&["settle", "a b"], "settle", &[], "a b"),
    (&["settle", ""], "settle", &[], ""),
    (&["settle", "settle"], "settle", &[], "settle"),
    (&["dump", "a b"], "dump", &[], "a b"),
    (&["dump", "load"], "dump", &[], "load"),
    (&["load", ""], "load", &[], ""),
];

/// Words, the name of the place where they run, and its folder.
const PLACES: [(&[&str], &str, &str); 6] = [
    (&["replay"], "in memory", ""),
    (&["gen", "7", "1"], "in memory", ""),
    (&["shell", "1", "store"], "made", "store"),
    (&["settle", "store"], "standing", "store"),
    (&["dump", "a b"], "standing", "a b"),
    (&["load", ""], "made at the first call", ""),
];

/// Words of no shape.
const NO_SHAPES: [&[&str]; 32] = [
    &[],
    &[""],
    &["help"],
    &["Replay"],
    &["replay", ""],
    &["-x"],
    &["--help"],
    &["replay", "-x"],
    &["-x", "replay"],
    &["gen"],
    &["gen", "7"],
    &["gen", "7", "10001"],
    &["gen", "07", "1"],
    &["gen", "7", "01"],
    &["gen", "+7", "1"],
    &["gen", "", "1"],
    &["gen", "18446744073709551616", "1"],
    &["gen", "7", "1", "1"],
    &["shell", "1"],
    &["shell", "0", "store"],
    &["shell", "65", "store"],
    &["shell", "01", "store"],
    &["shell", "1", "-x"],
    &["settle"],
    &["settle", "-"],
    &["settle", "a", "b"],
    &["dump"],
    &["dump", "-"],
    &["dump", "1", "store"],
    &["load"],
    &["load", "-x"],
    &["load", "store", "dump"],
];

/// Adds words to a list of texts, and tells whether memory was there.
fn add_words(alloc: Global, list: &mut Vec<String>, words: &[&str]) -> bool {
    for word in words {
        let Ok(text) = String::from_str(alloc, word) else {
            return false;
        };
        if list.push(text).is_err() {
            return false;
        }
    }
    true
}

/// Whether a shape has this name, these numbers and this folder.
fn is_shape(shape: &Shape, name: &str, numbers: &[u64], folder: &str) -> bool {
    match shape {
        Shape::Replay => name == "replay",
        Shape::Gen { number, count } => {
            name == "gen" && numbers.first() == Some(number) && numbers.last() == Some(count)
        }
        Shape::Shell { client, dir } => {
            name == "shell" && numbers.first() == Some(&client.get()) && dir.as_str() == folder
        }
        Shape::Settle { dir } => name == "settle" && dir.as_str() == folder,
        Shape::Dump { dir } => name == "dump" && dir.as_str() == folder,
        Shape::Load { dir } => name == "load" && dir.as_str() == folder,
    }
}

/// Whether words are read as a shape of this name, these numbers and this folder.
fn are_read(alloc: Global, words: &[&str], name: &str, numbers: &[u64], folder: &str) -> bool {
    let mut list = Vec::new(alloc);
    if !add_words(alloc, &mut list, words) {
        return false;
    }
    match shape(alloc, list.as_slice()) {
        Ok(shape) => is_shape(&shape, name, numbers, folder),
        Err(_) => false,
    }
}

/// Whether a place has this name and this folder.
fn is_place(place: &Place, name: &str, folder: &str) -> bool {
    match place {
        Place::InMemory => name == "in memory",
        Place::Made { dir } => name == "made" && dir.as_str() == folder,
        Place::Standing { dir } => name == "standing" && dir.as_str() == folder,
        Place::MadeAtFirstCall { dir } => {
            name == "made at the first call" && dir.as_str() == folder
        }
    }
}

/// Whether words run at a place of this name and this folder.
fn are_placed(alloc: Global, words: &[&str], name: &str, folder: &str) -> bool {
    let mut list = Vec::new(alloc);
    if !add_words(alloc, &mut list, words) {
        return false;
    }
    match place_of(alloc, list.as_slice()) {
        Ok(place) => is_place(&place, name, folder),
        Err(_) => false,
    }
}

/// Whether words are of no shape, and run nowhere.
fn are_refused(alloc: Global, words: &[&str]) -> bool {
    let mut list = Vec::new(alloc);
    add_words(alloc, &mut list, words)
        && matches!(shape(alloc, list.as_slice()), Err(WordsFault::BadWords))
        && matches!(place_of(alloc, list.as_slice()), Err(WordsFault::BadWords))
}

#[test]
fn the_shapes_are_read(rt: HostRuntime) {
    for (words, name, numbers, folder) in &SHAPES {
        assert!(rt; are_read(rt.alloc(), words, name, numbers, folder));
    }
}

#[test]
fn the_places_are_told(rt: HostRuntime) {
    for (words, name, folder) in &PLACES {
        assert!(rt; are_placed(rt.alloc(), words, name, folder));
    }
}

#[test]
fn no_other_words_are_read(rt: HostRuntime) {
    for words in &NO_SHAPES {
        assert!(rt; are_refused(rt.alloc(), words));
    }
}
