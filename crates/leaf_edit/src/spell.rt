//! The parts of a leaf's spelling, appended: into room that is there, or, by the names with `try`, into room that is made.

ghost use Rattle.std.specs.Prelude.{◌++◌, ◌≡◌, ◌+◌, ◌≤◌, IfSome, OnOk, length, vec_len};
ghost use Rattle.std.specs.Option.{option_copied};
ghost use Rattle.std.specs.Vec.{vec_capacity};
ghost use Rattle.byte_format.specs.Adds.{Adds};
ghost use Rattle.db_base.specs.Key.{IsAttr};
ghost use Rattle.db_base.specs.Limits.{longest_key};
ghost use Rattle.leaf_view.specs.Shown.{shown};
ghost use Rattle.leaf_edit.specs.Merging.{IsSized};
ghost use Rattle.leaf_edit.specs.Sizes.{attr_size, entry_size, fields_size, high_size};
ghost use Rattle.leaf_edit.specs.Spelled.{attr_bytes, done_bytes, entry_bytes, fields_bytes, high_bytes};

use byte_format::{add_text8, add_text16, add_u8, add_u64};
use leaf_view::{Done, LeafView};
use std::alloc::AllocError;

/// How many bytes an entry of the table has, with the byte that says that it is there.
pub(crate) const DONE_LEN: usize = 18;

/// The format in which leaves are written.
const FORMAT: u8 = 2;

/// The number of the page to the right, 0 where there is none.
pub(crate) fn right_of(leaf: &LeafView<'_>) -> u64
    ensures { result ≡ leaf.now.right }
{
    match leaf.right() {
        Some(page) => page.get(),
        None => 0,
    }
}

/// How many bytes the high key has, with its length before it, where there is one.
fn high_len(high: Option<&[u8]>) -> usize
    requires { IfSome (option_copied high) (λ key. length key ≤ longest_key) }
    ensures { result ≡ high_size (option_copied high.entry) }
{
    match high {
        Some(key) => 1 + key.len(),
        None => 0,
    }
}

/// How many bytes stand before the lists of a leaf.
pub(crate) fn fields_len(low: &[u8], high: Option<&[u8]>) -> usize
    requires low { length low.now ≤ longest_key }
    requires high { IfSome (option_copied high) (λ key. length key ≤ longest_key) }
    ensures size { result ≡ fields_size low.now (option_copied high.entry) }
    ensures short { result ≤ 148 }
{
    19 + low.len() + high_len(high)
}

/// Appends the high key, where there is one.
fn add_high(out: &mut Vec<u8>, high: Option<&[u8]>)
    requires short { IfSome (option_copied high) (λ key. length key ≤ longest_key) }
    requires room { vec_len out.old + high_size (option_copied high) ≤ vec_capacity out.old }
    ensures { Adds out.old out.new (high_bytes (option_copied high.entry)) }
{
    match high {
        Some(key) => add_text8(out, key),
        None => (),
    }
}

/// Appends what stands before the lists of a leaf.
pub(crate) fn add_fields(
    out: &mut Vec<u8>,
    version: u64,
    low: &[u8],
    right: u64,
    high: Option<&[u8]>,
)
    requires low { length low.now ≤ longest_key }
    requires high { IfSome (option_copied high) (λ key. length key ≤ longest_key) }
    requires room { vec_len out.old + fields_size low.now (option_copied high) ≤ vec_capacity out.old }
    ensures { Adds out.old out.new (fields_bytes version low.now right (option_copied high.entry)) }
{
    add_u8(out, 76);
    add_u8(out, FORMAT);
    add_u64(out, version);
    add_text8(out, low);
    add_u64(out, right);
    add_high(out, high);
}

/// Appends an entry of the table, with the byte that says that it is there.
pub(crate) fn add_done(out: &mut Vec<u8>, entry: &Done)
    requires { vec_len out.old + 18 ≤ vec_capacity out.old }
    ensures { Adds out.old out.new (done_bytes entry.now) }
{
    add_u8(out, 1);
    add_u64(out, entry.queue);
    add_u8(out, entry.client.get() as u8);
    add_u64(out, entry.number);
}

/// How many bytes an attribute has, with its length before it, where there is one.
fn attr_len(attr: Option<&[u8]>) -> usize
    requires { IfSome (option_copied attr) IsAttr }
    ensures size { result ≡ attr_size (option_copied attr.entry) }
    ensures short { result ≤ 33 }
{
    match attr {
        Some(attr) => 1 + attr.len(),
        None => 0,
    }
}

/// How many bytes a record has, with the byte that says that it is there.
pub(crate) fn entry_len(key: &[u8], payload: &[u8], attr: Option<&[u8]>) -> usize
    requires { IsSized (shown (key, payload, attr)) }
    ensures { result ≡ entry_size (shown (key.entry, payload.entry, attr.entry)) }
{
    5 + key.len() + payload.len() + attr_len(attr)
}

/// Appends an attribute, where there is one, behind the byte that says whether it is there.
fn add_attr(out: &mut Vec<u8>, attr: Option<&[u8]>)
    requires short { IfSome (option_copied attr) IsAttr }
    requires room { vec_len out.old + (1 + attr_size (option_copied attr)) ≤ vec_capacity out.old }
    ensures { Adds out.old out.new (attr_bytes (option_copied attr.entry)) }
{
    match attr {
        Some(attr) => {
            add_u8(out, 1);
            add_text8(out, attr);
        }
        None => add_u8(out, 0),
    }
}

/// Appends a record, with the byte that says that it is there.
pub(crate) fn add_entry(out: &mut Vec<u8>, key: &[u8], payload: &[u8], attr: Option<&[u8]>)
    requires sized { IsSized (shown (key, payload, attr)) }
    requires room { vec_len out.old + entry_size (shown (key, payload, attr)) ≤ vec_capacity out.old }
    ensures { Adds out.old out.new (entry_bytes (shown (key.entry, payload.entry, attr.entry))) }
{
    add_u8(out, 1);
    add_text8(out, key);
    add_text16(out, payload);
    add_attr(out, attr);
}

/// Appends what stands before the lists of a leaf.
pub(crate) fn try_add_fields(
    out: &mut Vec<u8>,
    version: u64,
    low: &[u8],
    right: u64,
    high: Option<&[u8]>,
) -> Result<(), AllocError>
    requires low { length low.now ≤ longest_key }
    requires high { IfSome (option_copied high) (λ key. length key ≤ longest_key) }
    ensures { OnOk result (out.new.items ≡ out.old.items ++ fields_bytes version low.now right (option_copied high.entry)) }
{
    out.reserve(fields_len(low, high))?;
    add_fields(out, version, low, right, high);
    Ok(())
}

/// Appends an entry of the table, with the byte that says that it is there.
pub(crate) fn try_add_done(out: &mut Vec<u8>, entry: &Done) -> Result<(), AllocError>
    ensures { OnOk result (out.new.items ≡ out.old.items ++ done_bytes entry.now) }
{
    out.reserve(DONE_LEN)?;
    add_done(out, entry);
    Ok(())
}

/// Appends a record, with the byte that says that it is there.
pub(crate) fn try_add_entry(
    out: &mut Vec<u8>,
    key: &[u8],
    payload: &[u8],
    attr: Option<&[u8]>,
) -> Result<(), AllocError>
    requires { IsSized (shown (key, payload, attr)) }
    ensures { OnOk result (out.new.items ≡ out.old.items ++ entry_bytes (shown (key.entry, payload.entry, attr.entry))) }
{
    out.reserve(entry_len(key, payload, attr))?;
    add_entry(out, key, payload, attr);
    Ok(())
}
