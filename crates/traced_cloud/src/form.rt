/// How a trace is spelled.
#[derive(Clone, Copy, Debug, PartialEq, Eq)]
pub enum Form {
    /// As lines of words.
    Text,
    /// As one JSON object a line (RFC 8259).
    Json,
}
