ghost use Rattle.std.specs.Prelude.{◌≡◌, ℕ, ◌<◌, List, ◌∷◌, ◌++◌, length, nat_eq, position};
ghost use Rattle.db_io.specs.Lines.{first_line, behind_line, lines_of};

/// Where the first line feed of a text is.
fn line_feed(text: &[u8]) -> Option<usize>
    ensures { result ≡ position (λ byte. nat_eq byte 10) text.now }
{
    text.iter().position(|byte| *byte == b'\n')
}

/// How many bytes the first line of a text has, with its line feed where it has one.
fn line_len(text: &[u8]) -> usize
    ensures { result ≡ length (first_line text.now) }
{
    match line_feed(text) {
        Some(index) => index + 1,
        None => text.len(),
    }
}

/// The first line of a text that is not empty, with its line feed where it has one, and the bytes behind it.
pub fn next_line(text: &[u8]) -> (&[u8], &[u8])
    requires { 0 < length text.now }
    ensures line { result.0.now ≡ first_line text.now }
    ensures rest { result.1.now ≡ behind_line text.now }
    ensures whole { text.now ≡ result.0.now ++ result.1.now }
    ensures lines { lines_of text.now ≡ result.0.now ∷ lines_of result.1.now }
    ensures shorter { length result.1.now < length text.now }
{
    text.split_at(line_len(text))
}
