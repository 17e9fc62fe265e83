ghost use Rattle.std.specs.Prelude.{◌≡◌, ◌++◌, IfOk, IfErr, OnOk, length};
ghost use Rattle.std.specs.String.{string_bytes};
ghost use Rattle.dump_text.specs.Dump.{IsDumpable};
ghost use Rattle.dump_text.specs.Text.{tree_line, record_line, record_lines, tree_text, dump_text};

use crate::dump::{Dump, DumpedTree};
use crate::fault::DumpFault;
use db_base::blob::Blob;
use db_base::ids::TreeId;
use report_types::stored::Stored;
use std::alloc::{AllocError, Global};
use words::bytes::hexadecimal;

/// The line of a tree with so many records.
fn tree_line(alloc: Global, tree: TreeId, count: usize) -> Result<String, AllocError>
    ensures { IfOk result (λ line. string_bytes line ≡ tree_line tree count) }
{
    let tree = tree.get();
    let line = format!(in alloc; "tree {tree} {count}\n")?;
    Ok(line)
}

/// The line of a record.
fn record_line(alloc: Global, stored: &Stored) -> Result<String, AllocError>
    ensures { IfOk result (λ line. string_bytes line ≡ record_line stored.now) }
{
    let key = hexadecimal(alloc, stored.key.as_slice())?;
    let payload = hexadecimal(alloc, stored.payload.as_slice())?;
    match &stored.attr {
        None => {
            let line = format!(in alloc; "{key} {payload}\n")?;
            Ok(line)
        }
        Some(attr) => {
            let attr = hexadecimal(alloc, attr.as_slice())?;
            let line = format!(in alloc; "{key} {payload} {attr}\n")?;
            Ok(line)
        }
    }
}

/// Adds the lines of records.
fn add_records(alloc: Global, text: &mut String, records: &[Stored]) -> Result<(), AllocError>
    ensures { OnOk result (string_bytes text.new ≡ string_bytes text.old ++ record_lines records.now) }
{
    let mut left = records;
    while let Some((stored, rest)) = left.split_first() {
        let line = record_line(alloc, stored)?;
        text.push_str(line.as_str())?;
        left = rest;
    }
    Ok(())
}

/// Adds the lines of a tree.
fn add_tree(alloc: Global, text: &mut String, dumped: &DumpedTree) -> Result<(), AllocError>
    ensures { OnOk result (string_bytes text.new ≡ string_bytes text.old ++ tree_text dumped.now) }
{
    let line = tree_line(alloc, dumped.tree, dumped.records.len())?;
    text.push_str(line.as_str())?;
    add_records(alloc, text, dumped.records.as_slice())
}

/// Adds the lines of trees.
fn add_trees(alloc: Global, text: &mut String, trees: &[DumpedTree]) -> Result<(), AllocError>
    ensures { OnOk result (string_bytes text.new ≡ string_bytes text.old ++ dump_text trees.now) }
{
    let mut left = trees;
    while let Some((dumped, rest)) = left.split_first() {
        add_tree(alloc, text, dumped)?;
        left = rest;
    }
    Ok(())
}

impl Dump {
    /// The one text that spells the dump. Memory is the one refusal.
    pub fn write(&self, alloc: Global) -> Result<Blob, DumpFault>
        requires { IsDumpable self.now.trees }
        ensures ok { IfOk result (λ text. text ≡ dump_text self.now.trees) }
        ensures memory { IfErr result (λ e. e ≡ DumpFault.Memory) }
    {
        let mut text = String::new(alloc);
        add_trees(alloc, &mut text, self.trees.as_slice())?;
        Ok(Blob::of(text.into_bytes()))
    }
}
