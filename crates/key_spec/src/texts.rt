// Sets of texts.
ghost use Rattle.std.specs.Prelude.{◌≡◌, [], ◌∷◌, not, IfOk, OnOk, string_bytes};
ghost use Rattle.std.specs.BTreeSet.{contains_text};
ghost use Rattle.key_spec.specs.Texts.{Holds, Adds};

use std::alloc::{AllocError, Global};
use std::collections::BTreeSet;

/// No texts yet.
pub(crate) fn no_texts(alloc: Global) -> BTreeSet<String>
    ensures { Holds result [] }
{
    BTreeSet::new(alloc)
}

/// Takes a text in, and says whether it is new.
pub(crate) fn add_text(texts: &mut BTreeSet<String>, text: String) -> Result<bool, AllocError>
    ensures new { IfOk result (λ new. new ≡ not (contains_text texts.old (string_bytes text))) }
    ensures added { OnOk result (Adds texts.old texts.new (string_bytes text ∷ [])) }
{
    let new = texts.insert(text)?;
    Ok(new)
}

/// Whether the text is among them.
pub(crate) fn has_text(texts: &BTreeSet<String>, text: &str) -> bool
    ensures { result ≡ contains_text texts.now text.now }
{
    texts.contains(text)
}
