ghost use Rattle.std.specs.Prelude.{◌≡◌, ◌≢◌, ◌∷◌, ◌<◌, ◌^◌, [], ℕ, List, length, IfOk, Some, None};
ghost use Rattle.db_base.specs.Ids.{IsClient, IsTree, IsPage};
ghost use Rattle.db_base.specs.declared.names.ObjName.{ObjName};
ghost use Rattle.words.specs.Word.{hexadecimal, AreBytes};
ghost use Rattle.folder_names.specs.Names.{file_text, only, place_bytes, place_text, IsObject, IfNotOurs, IsNoPlace, IsNoPageOf};

use crate::fault::NameFault;
use db_base::blob::Blob;
use db_base::ids::{ClientId, PageId, TreeId};
use db_base::names::ObjName;
use std::alloc::Global;
use words::bytes::bytes_of;
use words::fault::TextFault;

/// The bytes that a word spells.
pub(crate) fn decoded(alloc: Global, word: &[u8]) -> Result<Blob, NameFault>
    ensures ok { IfOk result (λ bytes. word.now ≡ hexadecimal bytes) }
    ensures bytes { IfOk result AreBytes }
    ensures none { IfNotOurs result ((bytes : List ℕ) → AreBytes bytes → word.now ≢ hexadecimal bytes) }
{
    match bytes_of(alloc, word) {
        Ok(bytes) => Ok(bytes),
        Err(TextFault::NotInGrammar) => Err(NameFault::NotOurs),
        Err(TextFault::Memory) => Err(NameFault::Memory),
    }
}

/// The one byte, where there is no other.
fn only(bytes: &[u8]) -> Option<u8>
    ensures { result ≡ only bytes.now }
{
    match bytes {
        [number] => Some(*number),
        _ => None,
    }
}

/// The tree and page that bytes spell.
#[tactic(auto, unfolding(crate::specs::Names::place_bytes))]
pub(crate) fn place(bytes: &[u8]) -> Option<(u8, u64)>
    ensures some { (tree page : ℕ) → result ≡ Some (tree, page) → bytes.now ≡ place_bytes tree page }
    ensures fits { (tree page : ℕ) → result ≡ Some (tree, page) → page < 2 ^ 64 }
    ensures none { result ≡ None → length bytes.now ≢ 9 }
{
    match bytes {
        [tree, a, b, c, d, e, f, g, h] => {
            let page = u64::from_be_bytes([*a, *b, *c, *d, *e, *f, *g, *h]);
            Some((*tree, page))
        }
        _ => None,
    }
}

/// The one number that a word spells.
fn number_in(alloc: Global, word: &[u8]) -> Result<u8, NameFault>
    ensures ok { IfOk result (λ n. word.now ≡ hexadecimal (n ∷ [])) }
    ensures byte { IfOk result (λ n. n < 256) }
    ensures none { IfNotOurs result ((n : ℕ) → n < 256 → word.now ≢ hexadecimal (n ∷ [])) }
{
    match decoded(alloc, word) {
        Ok(bytes) => match only(bytes.as_slice()) {
            Some(number) => Ok(number),
            None => Err(NameFault::NotOurs),
        },
        Err(fault) => Err(fault),
    }
}

/// The client that a word spells.
pub(crate) fn client_in(alloc: Global, word: &[u8]) -> Result<ClientId, NameFault>
    ensures ok { IfOk result (λ client. word.now ≡ hexadecimal (client ∷ [])) }
    ensures none { IfNotOurs result ((n : ℕ) → IsClient n → word.now ≢ hexadecimal (n ∷ [])) }
{
    match number_in(alloc, word) {
        Ok(number) => match ClientId::new(u64::from(number)) {
            Ok(client) => Ok(client),
            Err(_) => Err(NameFault::NotOurs),
        },
        Err(fault) => Err(fault),
    }
}

/// The tree that a word spells.
fn tree_in(alloc: Global, word: &[u8]) -> Result<TreeId, NameFault>
    ensures ok { IfOk result (λ tree. word.now ≡ hexadecimal (tree ∷ [])) }
    ensures none { IfNotOurs result ((n : ℕ) → IsTree n → word.now ≢ hexadecimal (n ∷ [])) }
{
    match number_in(alloc, word) {
        Ok(number) => match TreeId::new(u64::from(number)) {
            Ok(tree) => Ok(tree),
            Err(_) => Err(NameFault::NotOurs),
        },
        Err(fault) => Err(fault),
    }
}

/// The tree and page that a word spells.
fn place_in(alloc: Global, word: &[u8]) -> Result<(TreeId, PageId), NameFault>
    ensures ok { IfOk result (λ p. word.now ≡ place_text p.0 p.1) }
    ensures none { IfNotOurs result (IsNoPlace word.now) }
{
    match decoded(alloc, word) {
        Ok(bytes) => match place(bytes.as_slice()) {
            Some((tree, page)) => numbered(tree, page),
            None => Err(NameFault::NotOurs),
        },
        Err(fault) => Err(fault),
    }
}

/// The tree and page of these numbers.
fn numbered(tree: u8, page: u64) -> Result<(TreeId, PageId), NameFault>
    ensures ok { IfOk result (λ p. (p.0 ≡ tree) × (p.1 ≡ page)) }
    ensures none { IfNotOurs result (IsTree tree → IsPage page → ⊥) }
{
    match (TreeId::new(u64::from(tree)), PageId::new(page)) {
        (Ok(tree), Ok(page)) => Ok((tree, page)),
        _ => Err(NameFault::NotOurs),
    }
}

/// The object whose file has this name; NotOurs exactly where no object's file has it.
pub fn object_of(alloc: Global, text: &str) -> Result<ObjName, NameFault>
    ensures ok { IfOk result (λ name. text.now ≡ file_text name) }
    ensures none { IfNotOurs result ((name : ObjName) → IsObject name → text.now ≢ file_text name) }
{
    match text.as_bytes() {
        [b'h', b'e', b'a', b'd', b'-', word @ ..] => match client_in(alloc, word) {
            Ok(client) => Ok(ObjName::Head(client)),
            Err(fault) => Err(fault),
        },
        [b't', b'r', b'e', b'e', b'-', word @ ..] => match tree_in(alloc, word) {
            Ok(tree) => Ok(ObjName::Tree(tree)),
            Err(fault) => Err(fault),
        },
        [b'p', b'a', b'g', b'e', b'-', word @ ..] => match place_in(alloc, word) {
            Ok((tree, page)) => Ok(ObjName::Page(tree, page)),
            Err(fault) => Err(fault),
        },
        _ => Err(NameFault::NotOurs),
    }
}

/// The page that an object is, where it is one of this tree.
fn page_in(tree: TreeId, name: ObjName) -> Option<PageId>
    ensures some { (page : ℕ) → result ≡ Some page → name ≡ ObjName.Page tree page }
    ensures none { result ≡ None → IsNoPageOf tree (file_text name) }
{
    match name {
        ObjName::Head(_) => None,
        ObjName::Tree(_) => None,
        ObjName::Page(of, page) => {
            if of.get() == tree.get() {
                Some(page)
            } else {
                None
            }
        }
    }
}

/// The page of a tree whose file has this name; NotOurs exactly where no page of the tree has it.
pub fn page_of(alloc: Global, tree: TreeId, text: &str) -> Result<PageId, NameFault>
    ensures ok { IfOk result (λ page. text.now ≡ file_text (ObjName.Page tree page)) }
    ensures none { IfNotOurs result (IsNoPageOf tree text.now) }
{
    match object_of(alloc, text) {
        Ok(name) => match page_in(tree, name) {
            Some(page) => Ok(page),
            None => Err(NameFault::NotOurs),
        },
        Err(fault) => Err(fault),
    }
}
