//! Answers in the buffers of callers.
ghost use Rattle.std.specs.Prelude.{◌≡◌, drop, length};
ghost use Rattle.fentdolmen.specs.Calls.{written};

/// Copies as much of a text, from a place on, to the beginning of a buffer as fits, and returns the length of all of the text.
pub fn copy_from(text: &[u8], from: usize, into: &mut [u8]) -> usize
    ensures copied { into.new ≡ written text.now from into.old }
    ensures whole { result ≡ length text.now }
{
    let behind = behind(text, from);
    let count = if behind.len() < into.len() {
        behind.len()
    } else {
        into.len()
    };
    let (front, _) = into.split_at_mut(count);
    front.copy_from_slice(&behind[..count]);
    text.len()
}

/// Returns what is behind a place: nothing, if the text ends before.
fn behind(text: &[u8], from: usize) -> &[u8]
    ensures { result.now ≡ drop from text.now }
{
    if from < text.len() {
        &text[from..]
    } else {
        &[]
    }
}
