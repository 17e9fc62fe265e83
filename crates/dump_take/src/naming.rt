//! The words of names that are not quiet.

ghost use Rattle.std.specs.Prelude.{◌≡◌};
ghost use Rattle.std.specs.String.{string_bytes};
ghost use Rattle.reply_text.specs.Name.{object_word, queue_word};
ghost use Rattle.dump_take.specs.Parts.{Names};

use crate::stop::DumpStop;
use db_base::names::{ObjName, QueueName};
use db_base::text::Text;
use db_base::trouble::Trouble;
use reply_text::name::{object_word, queue_word};
use std::alloc::Global;

/// A name is not quiet. Memory where there is none for its word.
fn not_quiet(alloc: Global, word: &str) -> DumpStop
    ensures { Names word.now result }
{
    match Text::new(alloc, word) {
        Ok(name) => DumpStop::NotQuiet(name),
        Err(_) => DumpStop::Trouble(Trouble::Memory),
    }
}

/// An object is not quiet.
pub(crate) fn not_quiet_object(alloc: Global, name: ObjName) -> DumpStop
    ensures { Names (object_word name) result }
{
    match object_word(alloc, &name) {
        Ok(word) => not_quiet(alloc, word.as_str()),
        Err(_) => DumpStop::Trouble(Trouble::Memory),
    }
}

/// A queue is not quiet.
pub(crate) fn not_quiet_queue(alloc: Global, queue: QueueName) -> DumpStop
    ensures { Names (queue_word queue) result }
{
    match queue_word(alloc, &queue) {
        Ok(word) => not_quiet(alloc, word.as_str()),
        Err(_) => DumpStop::Trouble(Trouble::Memory),
    }
}
