// What a leaf holds, out of its bytes.
ghost use Rattle.std.specs.Prelude.{◌≡◌};
ghost use Rattle.xa_fields.specs.Reading.{whole};
ghost use Rattle.record_parts.specs.Reading.{value_at};
ghost use Rattle.file_get.specs.LeafBodies.{body_found};

use jsonml_tree::LentScalar;
use record_parts::lend_scalar;
use xa_fields::take_u8;

/// What a leaf holds: the bytes of a content, which are judged when they are printed, or a scalar.
#[derive(Clone, Copy)]
pub(crate) enum Body<'a> {
    Content(&'a [u8]),
    Scalar(LentScalar<'a>),
}

/// What the leaf holds whose value all of these bytes are.
pub(crate) fn body_of(bytes: &[u8]) -> Option<Body<'_>>
    ensures { body_found result ≡ whole value_at bytes.now }
{
    let (kind, at) = take_u8(bytes, 0)?;
    match kind {
        0 => {
            let (value, behind) = lend_scalar(bytes, at)?;
            if behind < bytes.len() {
                return None;
            }
            Some(Body::Scalar(value))
        }
        1 => Some(Body::Content(&bytes[at..])),
        _ => None,
    }
}
