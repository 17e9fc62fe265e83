ghost use Rattle.std.specs.Prelude.{◌≡◌, ◌≢◌, IfOk, IfErr};
ghost use Rattle.folder_names.specs.declared.parts.Part.{Part};
ghost use Rattle.folder_names.specs.Parts.{part_text, IsPart};
ghost use Rattle.folder_names.specs.Names.{IfNotOurs};

use crate::fault::NameFault;
use crate::files::folder_of;
use crate::queues::queue_of;
use db_base::names::QueueName;
use db_base::text::Text;
use std::alloc::Global;

/// A part of a store's folder in which names change.
#[derive(Clone, Copy, Debug, PartialEq, Eq)]
pub enum Part {
    /// The objects.
    Objects,
    /// The folders of queues.
    Queues,
    /// The messages of a queue.
    Queue(QueueName),
}

/// The path of a part, as `objects`, `queues` and `queues/atomic-03`. Refused for memory alone.
pub fn path_of(alloc: Global, part: Part) -> Result<Text, NameFault>
    ensures ok { IfOk result (λ text. text ≡ part_text part) }
    ensures memory { IfErr result (λ e. e ≡ NameFault.Memory) }
{
    match part {
        Part::Objects => text_of(alloc, "objects"),
        Part::Queues => text_of(alloc, "queues"),
        Part::Queue(queue) => {
            let folder = folder_of(alloc, queue)?;
            let mut path = String::from_str(alloc, "queues/")?;
            path.push_str(folder.as_str())?;
            text_of(alloc, path.as_str())
        }
    }
}

/// A copy of a text.
fn text_of(alloc: Global, text: &str) -> Result<Text, NameFault>
    ensures ok { IfOk result (λ copy. copy ≡ text.now) }
    ensures memory { IfErr result (λ e. e ≡ NameFault.Memory) }
{
    match Text::new(alloc, text) {
        Ok(text) => Ok(text),
        Err(_) => Err(NameFault::Memory),
    }
}

/// The part that has this path; NotOurs exactly where none has it.
pub fn part_of(alloc: Global, path: &[u8]) -> Result<Part, NameFault>
    ensures ok { IfOk result (λ part. path.now ≡ part_text part) }
    ensures none { IfNotOurs result ((part : Part) → IsPart part → path.now ≢ part_text part) }
{
    match path {
        b"objects" => Ok(Part::Objects),
        b"queues" => Ok(Part::Queues),
        [b'q', b'u', b'e', b'u', b'e', b's', b'/', folder @ ..] => match queue_of(alloc, folder) {
            Ok(queue) => Ok(Part::Queue(queue)),
            Err(fault) => Err(fault),
        },
        _ => Err(NameFault::NotOurs),
    }
}
