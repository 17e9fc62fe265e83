ghost use Rattle.std.specs.Prelude.{◌≡◌, ℕ, List, IfOk};
ghost use Rattle.dump_text.specs.declared.dump.DumpedTree.{DumpedTree};
ghost use Rattle.dump_text.specs.BadLine.{IsBadLine};
ghost use Rattle.dump_text.specs.Reading.{IsReadTo};
ghost use Rattle.dump_text.specs.Text.{IsDump};

use crate::dump::Dump;
use crate::fault::DumpFault;
use crate::lines::split_line;
use crate::reading::Reading;
use std::alloc::Global;

impl Dump {
    /// The dump that a text spells; BadLine exactly where it spells none, with the first line with which it is no beginning of a dump.
    pub fn read(alloc: Global, text: &[u8]) -> Result<Dump, DumpFault>
        // What is read is spelled so.
        ensures found { IfOk result (λ d. IsDump text.now d.trees) }
        // What is spelled so is read, unless memory runs out.
        ensures only { (trees : List DumpedTree) → IsDump text.now trees → IsReadTo result trees }
        // A bad line is the first one.
        ensures bad { (n : ℕ) → result ≡ Err (DumpFault.BadLine n) → IsBadLine text.now n }
    {
        let mut reading = Reading::new(alloc);
        let mut left = text;
        let mut lines: u64 = 0;
        while let Some((line, behind)) = split_line(left) {
            reading = reading.with_line(alloc, line, lines + 1)?;
            left = behind;
            lines += 1;
        }
        if !left.is_empty() {
            return Err(DumpFault::BadLine(lines + 1));
        }
        reading.whole(lines + 1)
    }
}
