// Which texts are notes.
ghost use Rattle.std.specs.Prelude.{◌≡◌};
ghost use Rattle.version_notes.specs.Notes.{is_note, is_printed};

use crate::limits::LONGEST_NOTE;

/// Whether a text is a note: it has at most 1,024 bytes, and none below 20 hexadecimal.
pub fn is_note(text: &str) -> bool
    ensures { result ≡ is_note text.now }
{
    text.len() <= LONGEST_NOTE && is_printed(text.as_bytes())
}

/// Whether no byte is below 20 hexadecimal.
pub fn is_printed(bytes: &[u8]) -> bool
    ensures { result ≡ is_printed bytes.now }
{
    bytes.iter().all(|byte| *byte >= b' ')
}
