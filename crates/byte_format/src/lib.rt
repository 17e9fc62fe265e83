//! Formats of bytes: combinators that specify a codec as a table, readers and writers of their fields.
#![tactic(auto)]

mod high_key;
mod list;
mod mark;
mod maybe;
mod number;
mod order;
mod owned;
mod spare;
mod stop;
mod text;
mod writing;

pub use high_key::high_key_at;
pub use list::{Rules, skip_list};
pub use mark::{mark_at, more_at};
pub use maybe::maybe_text8_at;
pub use number::{u8_at, u16_at, u64_at};
pub use order::{compare, is_below, is_below_bound, is_same};
pub use owned::{OwnedRules, owned_list};
pub use spare::{add, add_text8, add_text16, add_u8, add_u16, add_u64};
pub use stop::{ReadFault, Stop};
pub use text::{text8_at, text16_at};
pub use writing::{try_add, try_add_text8, try_add_text16, try_add_u8, try_add_u16, try_add_u64};
