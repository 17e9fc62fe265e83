ghost use Rattle.std.specs.Prelude.{◌≡◌};
ghost use Rattle.words.specs.Word.{Reads, number_of};
ghost use Rattle.reply_reading.specs.Naming.{client_of, tree_of, page_of, client_alone, tree_alone, page_alone, page_of_tree, lock_by, lock_of, object_by, object_of, pu_alone, queue_by, queue_of, place_behind, place_of};

use db_base::ids::{ClientId, MsgId, PageId, TreeId};
use db_base::names::{Lock, ObjName, Place, QueueName};
use words::fault::TextFault;
use words::number::number_of;
use words::parts::Parts;

/// The client of a number.
#[tactic(auto, unfolding(crate::specs::Naming::client_of))]
pub fn client_of(number: u64) -> Result<ClientId, TextFault>
    ensures { Reads result (client_of number) }
{
    match ClientId::new(number) {
        Ok(client) => Ok(client),
        Err(_) => Err(TextFault::NotInGrammar),
    }
}

/// The tree of a number.
#[tactic(auto, unfolding(crate::specs::Naming::tree_of))]
fn tree_of(number: u64) -> Result<TreeId, TextFault>
    ensures { Reads result (tree_of number) }
{
    match TreeId::new(number) {
        Ok(tree) => Ok(tree),
        Err(_) => Err(TextFault::NotInGrammar),
    }
}

/// The page of a number.
#[tactic(auto, unfolding(crate::specs::Naming::page_of))]
pub fn page_of(number: u64) -> Result<PageId, TextFault>
    ensures { Reads result (page_of number) }
{
    match PageId::new(number) {
        Ok(page) => Ok(page),
        Err(_) => Err(TextFault::NotInGrammar),
    }
}

/// A client and nothing else.
#[tactic(auto, unfolding(crate::specs::Naming::client_alone))]
fn client_alone(words: Parts<'_>) -> Result<ClientId, TextFault>
    ensures { Reads result (client_alone words.entry) }
{
    client_of(words.one_number()?)
}

/// A tree and nothing else.
#[tactic(auto, unfolding(crate::specs::Naming::tree_alone))]
pub fn tree_alone(words: Parts<'_>) -> Result<TreeId, TextFault>
    ensures { Reads result (tree_alone words.entry) }
{
    tree_of(words.one_number()?)
}

/// A page and nothing else.
#[tactic(auto, unfolding(crate::specs::Naming::page_alone))]
pub fn page_alone(words: Parts<'_>) -> Result<PageId, TextFault>
    ensures { Reads result (page_alone words.entry) }
{
    page_of(words.one_number()?)
}

/// A tree, a page and nothing else.
#[tactic(auto, unfolding(crate::specs::Naming::page_of_tree))]
fn page_of_tree(words: Parts<'_>) -> Result<(TreeId, PageId), TextFault>
    ensures { Reads result (page_of_tree words.entry) }
{
    let (tree, page) = words.two_numbers()?;
    let tree = tree_of(tree)?;
    let page = page_of(page)?;
    Ok((tree, page))
}

/// A lock by its kind.
#[tactic(auto, unfolding(crate::specs::Naming::lock_by))]
fn lock_by(kind: &[u8], parts: Parts<'_>) -> Result<Lock, TextFault>
    ensures { Reads result (lock_by kind.now parts.entry) }
{
    if kind == b"client".as_slice() {
        Ok(Lock::Client(client_alone(parts)?))
    } else if kind == b"tree".as_slice() {
        Ok(Lock::Tree(tree_alone(parts)?))
    } else if kind == b"page".as_slice() {
        let (tree, page) = page_of_tree(parts)?;
        Ok(Lock::Page(tree, page))
    } else {
        Err(TextFault::NotInGrammar)
    }
}

/// The lock that a word names: `client:C`, `tree:T`, `page:T:P`.
#[tactic(auto, unfolding(crate::specs::Naming::lock_of))]
pub fn lock_of(word: &[u8]) -> Result<Lock, TextFault>
    ensures { Reads result (lock_of word.now) }
{
    let (kind, parts) = Parts::of(b':', word).word()?;
    lock_by(kind, parts)
}

/// An object by its kind.
#[tactic(auto, unfolding(crate::specs::Naming::object_by))]
fn object_by(kind: &[u8], parts: Parts<'_>) -> Result<ObjName, TextFault>
    ensures { Reads result (object_by kind.now parts.entry) }
{
    if kind == b"head".as_slice() {
        Ok(ObjName::Head(client_alone(parts)?))
    } else if kind == b"tree".as_slice() {
        Ok(ObjName::Tree(tree_alone(parts)?))
    } else if kind == b"page".as_slice() {
        let (tree, page) = page_of_tree(parts)?;
        Ok(ObjName::Page(tree, page))
    } else {
        Err(TextFault::NotInGrammar)
    }
}

/// The object that a word names: `head:C`, `tree:T`, `page:T:P`.
#[tactic(auto, unfolding(crate::specs::Naming::object_of))]
fn object_of(word: &[u8]) -> Result<ObjName, TextFault>
    ensures { Reads result (object_of word.now) }
{
    let (kind, parts) = Parts::of(b':', word).word()?;
    object_by(kind, parts)
}

/// A tree, a page or 0 for the tree's own queue, and nothing else.
#[tactic(auto, unfolding(crate::specs::Naming::pu_alone, crate::specs::Naming::page_of))]
fn pu_alone(words: Parts<'_>) -> Result<QueueName, TextFault>
    ensures { Reads result (pu_alone words.entry) }
{
    let (tree, page) = words.two_numbers()?;
    let tree = tree_of(tree)?;
    match PageId::new(page) {
        Ok(page) => Ok(QueueName::PagePu(tree, page)),
        Err(_) => Ok(QueueName::TreePu(tree)),
    }
}

/// A queue by its kind.
#[tactic(auto, unfolding(crate::specs::Naming::queue_by))]
fn queue_by(kind: &[u8], parts: Parts<'_>) -> Result<QueueName, TextFault>
    ensures { Reads result (queue_by kind.now parts.entry) }
{
    if kind == b"atomic".as_slice() {
        Ok(QueueName::Atomic(client_alone(parts)?))
    } else if kind == b"pu".as_slice() {
        pu_alone(parts)
    } else {
        Err(TextFault::NotInGrammar)
    }
}

/// The queue that a word names: `atomic:C`, `pu:T:P`, with page 0 for the tree's own.
#[tactic(auto, unfolding(crate::specs::Naming::queue_of))]
fn queue_of(word: &[u8]) -> Result<QueueName, TextFault>
    ensures { Reads result (queue_of word.now) }
{
    let (kind, parts) = Parts::of(b':', word).word()?;
    queue_by(kind, parts)
}

/// A number alone.
fn position(word: &[u8]) -> Result<u64, TextFault>
    ensures { Reads result (number_of word.now) }
{
    number_of(word).ok_or(TextFault::NotInGrammar)
}

/// The place behind a name: an object where nothing is left, or a message of a queue at a position.
#[tactic(auto, unfolding(crate::specs::Naming::place_behind))]
fn place_behind(name: &[u8], left: Parts<'_>) -> Result<Place, TextFault>
    ensures { Reads result (place_behind name.now left.entry) }
{
    let mut left = left;
    match left.next() {
        None => Ok(Place::Object(object_of(name)?)),
        Some(id) => {
            let queue = queue_of(name)?;
            let id = position(id)?;
            left.end()?;
            Ok(Place::Message(queue, MsgId::new(id)))
        }
    }
}

/// The place that a word names: an object, or a queue with `#` and a message's position behind it.
#[tactic(auto, unfolding(crate::specs::Naming::place_of))]
pub fn place_of(word: &[u8]) -> Result<Place, TextFault>
    ensures { Reads result (place_of word.now) }
{
    let (name, left) = Parts::of(b'#', word).word()?;
    place_behind(name, left)
}
