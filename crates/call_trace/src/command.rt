//! The words of the command line: `replay`, and for JSON `--json` behind it.

ghost use Rattle.std.specs.Prelude.{◌≡◌, map, string_bytes};
ghost use Rattle.call_trace.specs.Words.{form_of};

use traced_cloud::form::Form;

/// How the trace is to be spelled; none where the words are none of the two.
pub(crate) fn form_of(words: &[String]) -> Option<Form>
    ensures { result ≡ form_of (map string_bytes words.now) }
{
    match words {
        [replay] if replay.as_bytes() == b"replay".as_slice() => Some(Form::Text),
        [replay, json]
            if replay.as_bytes() == b"replay".as_slice()
                && json.as_bytes() == b"--json".as_slice() => Some(Form::Json),
        _ => None,
    }
}
