//! What a load looks at before it opens a session.

ghost use Rattle.std.specs.Prelude.{◌≡◌, ◌⊎◌, [], ◌∷◌, map};
ghost use Rattle.db_base.specs.Limits.{last_client, last_tree};
ghost use Rattle.db_base.specs.declared.names.ObjName.TheVariants.{Head};
ghost use Rattle.reply_text.specs.Name.{object_word};
ghost use Rattle.load_plan.specs.FirstLook.{LooksAt, first_names, numbers, tree_names};

use cloud_trait::cloud::Bench;
use cloud_trait::fault::CloudFault;
use db_base::ids::{ClientId, PageId, TreeId};
use db_base::names::ObjName;
use db_base::text::Text;
use reply_text::name::object_word;
use std::alloc::Global;

/// Why the looks ended before the last.
#[derive(Debug, Drop)]
pub enum LookStop {
    /// An object is there: its name.
    NotEmpty(Text),
    /// A look failed.
    Failed,
    /// Memory ran out.
    Memory,
}

/// Looks at all heads, and then for each tree at its object and at its page 1, up to the first that is there.
pub fn look_first<C: Bench>(alloc: Global, cloud: &mut C) -> Result<(), LookStop>
    ensures { LooksAt first_names result (C.seen cloud.old) (C.seen cloud.new) }
{
    look_at_heads(alloc, cloud)?;
    look_at_trees(alloc, cloud)
}

/// Looks at all heads.
fn look_at_heads<C: Bench>(alloc: Global, cloud: &mut C) -> Result<(), LookStop>
    ensures { LooksAt (map Head (numbers 1 last_client)) result (C.seen cloud.old) (C.seen cloud.new) }
{
    for number in 0..64u64 {
        let Ok(client) = ClientId::new(number + 1) else {
            unreachable!();
        };
        look(alloc, cloud, ObjName::Head(client))?;
    }
    Ok(())
}

/// Looks at the object and at the page 1 of each tree.
fn look_at_trees<C: Bench>(alloc: Global, cloud: &mut C) -> Result<(), LookStop>
    ensures { LooksAt (tree_names (numbers 1 last_tree)) result (C.seen cloud.old) (C.seen cloud.new) }
{
    for number in 0..16u64 {
        let Ok(tree) = TreeId::new(number + 1) else {
            unreachable!();
        };
        look(alloc, cloud, ObjName::Tree(tree))?;
        look(alloc, cloud, ObjName::Page(tree, PageId::first()))?;
    }
    Ok(())
}

/// Looks at an object, which is to be none.
fn look<C: Bench>(alloc: Global, cloud: &mut C, name: ObjName) -> Result<(), LookStop>
    ensures { LooksAt (name ∷ []) result (C.seen cloud.old) (C.seen cloud.new) }
{
    match cloud.peek(name) {
        Ok(None) => Ok(()),
        Ok(Some(_)) => Err(not_empty(alloc, &name)),
        Err(CloudFault::Failed) => Err(LookStop::Failed),
        Err(CloudFault::Memory) => Err(LookStop::Memory),
    }
}

/// An object of this name is there.
fn not_empty(alloc: Global, name: &ObjName) -> LookStop
    ensures { (result ≡ LookStop.NotEmpty (object_word name.now)) ⊎ (result ≡ LookStop.Memory) }
{
    let Ok(word) = object_word(alloc, name) else {
        return LookStop::Memory;
    };
    match Text::new(alloc, word.as_str()) {
        Ok(text) => LookStop::NotEmpty(text),
        Err(_) => LookStop::Memory,
    }
}
