// What stands in front of an archive.
ghost use Rattle.std.proofs.Props.{props};
ghost use Rattle.std.specs.Prelude.{◌≡◌, ◌+◌, ◌-◌, ◌<◌, ◌^◌, IfSome};
ghost use Rattle.record_cursor.specs.View.{header_view, IsHeader};

use record_cursor::Header;
use version_notes::Parts;

/// What stands in front of an archive: its header, and before that what its end tells, where its
/// notes are.
#[derive(Drop)]
pub struct Front {
    pub parts: Parts,
    pub header: Header,
    pub ghost heads: { IsHeader (header_view header) },
    pub ghost core: { (header_view header).length ≡ parts.core },
    pub ghost room: { IfSome parts.notes (λ n. parts.core + n < 2 ^ 64 - 16) } by { Prim.hlevel props },
}
