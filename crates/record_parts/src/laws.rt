// What follows from the definitions.
ghost use Rattle.std.specs.Prelude.{◌↔◌, ℕ, ◌≤◌, List, IsTrue};
ghost use Rattle.keyed_tree.specs.Data.{PlainKey, PlainLabel};
ghost use Rattle.archive_tree.specs.Data.{Stamp};
ghost use Rattle.version_set.specs.Pairs.{IsCanonical, last_of};
ghost use Rattle.timestamp_tree.specs.Bytes.{set_bytes};
ghost use Rattle.timestamp_tree.specs.Reading.{set_at};
ghost use Rattle.xa_fields.specs.Laws.{Reads};
ghost use Rattle.record_parts.specs.Bounds.{IsContent, IsLabel, IsSet, IsStamp, IsValue, most};
ghost use Rattle.record_parts.specs.Checks.{label_fits, stamp_fits, value_fits};
ghost use Rattle.record_parts.specs.Reading.{content_at, label_at, stamp_at, value_at};
ghost use Rattle.record_parts.specs.Shapes.{FitsLabel, FitsValue, IsShapedLabel, IsShapedValue};
ghost use Rattle.record_parts.specs.Spelling.{content_bytes, label_bytes, stamp_bytes, value_bytes};

/// What is read of some bytes is spelled so, and what is spelled so is read.
pub fn parts_are_read_as_spelled()
    ensures labels { Reads label_at label_bytes IsLabel }
    ensures values { Reads value_at value_bytes IsValue }
    ensures stamps { Reads stamp_at stamp_bytes IsStamp }
    ensures sets { Reads (set_at most) set_bytes IsSet }
    ensures contents { (limit : ℕ) → Reads (content_at limit) content_bytes (IsContent limit) }
{}

/// What has an encoding has its shape, and its lengths and counts fit; and the tests tell it. The
/// last number of a set decides whether its numbers fit.
pub fn parts_are_of_shape_and_fit()
    ensures values { (k : PlainKey) → IsValue k ↔ (IsShapedValue k × FitsValue k) }
    ensures labels { (l : PlainLabel) → IsLabel l ↔ (IsShapedLabel l × FitsLabel l) }
    ensures sets { (s : List (ℕ × ℕ)) → IsSet s ↔ (IsCanonical s × (last_of s ≤ most)) }
    ensures value_tests { (k : PlainKey) → IsTrue (value_fits k) ↔ IsValue k }
    ensures label_tests { (l : PlainLabel) → IsTrue (label_fits l) ↔ IsLabel l }
    ensures stamp_tests { (s : Stamp) → IsTrue (stamp_fits s) ↔ IsStamp s }
{}
