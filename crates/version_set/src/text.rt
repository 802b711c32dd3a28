// The printed form.
ghost use Rattle.std.specs.Prelude.{◌≡◌, ◌++◌, IfOk, OnOk, codes};
ghost use Rattle.std.specs.List.{flat_map};
ghost use Rattle.std.specs.String.{string_bytes};
ghost use Rattle.version_set.specs.Text.{pair_text, set_text};

use itoa::Buffer;
use std::alloc::{AllocError, Global};

/// The intervals with `,` between each two, or `none`.
pub fn text_of(alloc: Global, pairs: &[(u32, u32)]) -> Result<String, AllocError>
    ensures { IfOk result (λ text. string_bytes text ≡ set_text pairs.now) }
{
    let [first, others @ ..] = pairs else {
        return String::from_str(alloc, "none");
    };
    let mut text = String::new(alloc);
    put_pair(&mut text, *first)?;
    put_others(&mut text, others)?;
    Ok(text)
}

/// Appends intervals, each behind a `,`.
fn put_others(text: &mut String, others: &[(u32, u32)]) -> Result<(), AllocError>
    ensures { OnOk result (string_bytes text.new
        ≡ string_bytes text.old ++ flat_map (λ p. codes "," ++ pair_text p) others.now) }
{
    for pair in others {
        text.push(',')?;
        put_pair(text, *pair)?;
    }
    Ok(())
}

/// Appends an interval, as `3` or as `1-2`.
fn put_pair(text: &mut String, pair: (u32, u32)) -> Result<(), AllocError>
    ensures { OnOk result (string_bytes text.new ≡ string_bytes text.old ++ pair_text pair) }
{
    let (from, to) = pair;
    let mut buffer = Buffer::new();
    text.push_str(buffer.format(from))?;
    if from != to {
        text.push('-')?;
        text.push_str(buffer.format(to))?;
    }
    Ok(())
}
