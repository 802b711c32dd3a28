// The bodies of leaves.
ghost use Rattle.record_parts.specs.Whole.{IsValueBytes};

use jsonml_tree::{LentContent, LentScalar};
use keyed_tree::{Body, LentVal};
use record_parts::{
    BodyView, SpellFault, lend_body, parts_are_of_shape_and_fit, parts_are_read_as_spelled,
    put_lent_value,
};
use std::alloc::{AllocError, Global};

/// A body as its encoding.
#[derive(Drop)]
pub struct Spelled {
    bytes: Vec<u8>,
    ghost valid: { IsValueBytes bytes.items },
}

/// A body of a leaf, as its encoding.
///
/// A body that has no encoding is kept as it is, but no file holds one.
#[derive(Drop)]
pub enum KeptBody {
    Own(Box<Body>),
    Spelled(Spelled),
}

impl Spelled {
    ghost use Rattle.std.specs.Prelude.{◌≡◌, IfOk, IfSome, IsNone, false};
    ghost use Rattle.std.specs.Ordering.{is_eq};
    ghost use Rattle.keyed_tree.specs.LentView.{lent_val_view};
    ghost use Rattle.keyed_tree.specs.Order.{key_cmp};
    ghost use Rattle.xa_fields.specs.Reading.{whole};
    ghost use Rattle.record_parts.specs.Checks.{value_fits};
    ghost use Rattle.record_parts.specs.Reading.{value_at};
    ghost use Rattle.record_parts.specs.ShownViews.{shown_body, value_in};
    ghost use Rattle.spelled_archive.specs.View.{spelled_view};

    /// The body that a document lends, if it has an encoding. Each byte is written once.
    pub fn of(alloc: Global, body: LentVal<'_, '_>) -> Result<Option<Spelled>, AllocError>
        ensures some { IfOk result (λ o. IfSome o (λ s. spelled_view s ≡ lent_val_view body.entry)) }
        ensures none { IfOk result (λ o. IsNone o → value_fits (lent_val_view body.entry) ≡ false) }
    {
        // Laws, for the proofs of `some` and of what `of_bytes` requires.
        parts_are_of_shape_and_fit();
        parts_are_read_as_spelled();
        let mut bytes = Vec::with_capacity(alloc, room_of(body))?;
        match put_lent_value(&mut bytes, body) {
            Ok(()) => Ok(Some(Spelled::of_bytes(bytes))),
            Err(SpellFault::TooLong) => Ok(None),
            Err(SpellFault::Memory) => Err(AllocError),
        }
    }

    // The body whose encoding these bytes are.
    fn of_bytes(bytes: Vec<u8>) -> Spelled
        requires { IsValueBytes bytes.items }
        ensures { spelled_view result ≡ value_in (whole value_at bytes.items) }
    {
        Spelled { bytes }
    }

    /// The body that it spells, lent.
    pub fn lend(&self) -> BodyView<'_>
        ensures { shown_body result ≡ spelled_view self.now }
    {
        lend_body(&self.bytes)
    }

    /// Whether it spells a body that a document lends. It takes no memory and builds no body.
    pub fn same_lent(&self, other: LentVal<'_, '_>) -> bool
        ensures { result ≡ is_eq (key_cmp (spelled_view self.now) (lent_val_view other.entry)) }
    {
        self.lend().same_lent(other)
    }
}

impl KeptBody {
    ghost use Rattle.std.specs.Prelude.{◌≡◌, IfOk};
    ghost use Rattle.keyed_tree.specs.LentView.{lent_val_view};
    ghost use Rattle.spelled_archive.specs.View.{kept_view};

    /// A body that a document lends, as it is kept.
    pub fn of(alloc: Global, body: LentVal<'_, '_>) -> Result<KeptBody, AllocError>
        ensures { IfOk result (λ k. kept_view k ≡ lent_val_view body.entry) }
    {
        match Spelled::of(alloc, body)? {
            Some(spelled) => Ok(KeptBody::Spelled(spelled)),
            None => {
                let own = body.own(alloc)?;
                Ok(KeptBody::Own(Box::new(alloc, own)?))
            }
        }
    }
}

// How many bytes a body of one text takes. Room for a row is taken where it is spelled.
fn room_of(body: LentVal<'_, '_>) -> usize {
    match body {
        LentVal::Scalar(LentScalar::Text(text)) => text.len().saturating_add(6),
        LentVal::Content(LentContent::Text(text)) => text.len().saturating_add(14),
        _ => 10,
    }
}
