ghost use Rattle.std.specs.Prelude.{◌≡◌, [], ◌∷◌, IfOk};
ghost use Rattle.std.specs.Fmt.{decimal};
ghost use Rattle.std.specs.String.{string_bytes};
ghost use Rattle.words.specs.Line.{text_of};
ghost use Rattle.reply_text.specs.Name.{one_part, two_parts, lock_word, object_word, queue_word, place_word};

use db_base::names::{Lock, ObjName, Place, QueueName};
use std::alloc::{AllocError, Global};

/// A kind and a number.
fn one_part(alloc: Global, kind: &str, number: u64) -> Result<String, AllocError>
    ensures { IfOk result (λ word. string_bytes word ≡ one_part kind.now number) }
{
    format!(in alloc; "{kind}:{number}")
}

/// A kind and two numbers.
fn two_parts(alloc: Global, kind: &str, first: u64, second: u64) -> Result<String, AllocError>
    ensures { IfOk result (λ word. string_bytes word ≡ two_parts kind.now first second) }
{
    format!(in alloc; "{kind}:{first}:{second}")
}

/// What a lease locks, as a word: `client:C`, `tree:T`, `page:T:P`.
pub fn lock_word(alloc: Global, lock: &Lock) -> Result<String, AllocError>
    ensures { IfOk result (λ word. string_bytes word ≡ lock_word lock.now) }
{
    match lock {
        Lock::Client(client) => one_part(alloc, "client", client.get()),
        Lock::Tree(tree) => one_part(alloc, "tree", tree.get()),
        Lock::Page(tree, page) => two_parts(alloc, "page", tree.get(), page.get()),
    }
}

/// An object as a word: `head:C`, `tree:T`, `page:T:P`.
pub fn object_word(alloc: Global, name: &ObjName) -> Result<String, AllocError>
    ensures { IfOk result (λ word. string_bytes word ≡ object_word name.now) }
{
    match name {
        ObjName::Head(client) => one_part(alloc, "head", client.get()),
        ObjName::Tree(tree) => one_part(alloc, "tree", tree.get()),
        ObjName::Page(tree, page) => two_parts(alloc, "page", tree.get(), page.get()),
    }
}

/// A queue as a word: `atomic:C`, `pu:T:P`, with page 0 for the tree's own.
pub fn queue_word(alloc: Global, queue: &QueueName) -> Result<String, AllocError>
    ensures { IfOk result (λ word. string_bytes word ≡ queue_word queue.now) }
{
    match queue {
        QueueName::Atomic(client) => one_part(alloc, "atomic", client.get()),
        QueueName::TreePu(tree) => two_parts(alloc, "pu", tree.get(), 0),
        QueueName::PagePu(tree, page) => two_parts(alloc, "pu", tree.get(), page.get()),
    }
}

/// A place as a word: an object's, or a queue's with `#` and the message's position behind it.
pub fn place_word(alloc: Global, place: &Place) -> Result<String, AllocError>
    ensures { IfOk result (λ word. string_bytes word ≡ place_word place.now) }
{
    match place {
        Place::Object(name) => object_word(alloc, name),
        Place::Message(queue, id) => {
            let queue = queue_word(alloc, queue)?;
            let position = id.get();
            format!(in alloc; "{queue}#{position}")
        }
    }
}
