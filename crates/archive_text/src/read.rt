// The archive of a text.
ghost use Rattle.std.specs.Prelude.{◌≡◌, ◌≤◌, ◌↔◌, ◌∷◌, ◌++◌, ℕ, List, length, map, drop, IfOk, IfErr, IfSome, IfNone, IsTrue, string_bytes};
ghost use Rattle.std.specs.List.{AllByRecursion, list_all};
ghost use Rattle.key_spec.specs.Data.{PlainRule};
ghost use Rattle.key_spec.specs.View.{spec_view};
ghost use Rattle.keyed_tree.specs.Data.{PlainKeyed};
ghost use Rattle.archive_tree.specs.ArchiveView.{archive_view};
ghost use Rattle.archive_tree.specs.Data.{PlainArchive};
ghost use Rattle.archive_tree.specs.Stands.{ArchiveOf};
ghost use Rattle.jsonml_tree.specs.declared.limits.TheConstants.{GREATEST_DEPTH};
ghost use Rattle.record_parts.specs.declared.limits.TheConstants.{MOST_VERSIONS};
ghost use Rattle.record_format.specs.Files.{FileOf};
ghost use Rattle.archive_file.specs.KeyedBy.{AreKeyedBy};
ghost use Rattle.archive_file.specs.Sound.{SoundAs};
ghost use Rattle.version_notes.specs.Notes.{IsNote, is_note, notes_part};
ghost use Rattle.noted_file.specs.Contents.{Contents};
ghost use Rattle.noted_file.specs.Full.{FullAs};
ghost use Rattle.jsonml_lines.specs.Lines.{PlainLine};
ghost use Rattle.archive_text.specs.Export.{count_line, end_line, export_text, nodes_lines, ExportOf};
ghost use Rattle.archive_text.specs.Faults.{IfBad};
ghost use Rattle.archive_text.specs.Reading.{AreKeptAs, AreLines, ArePartsOf, AreReadable, Finds, HaveFile};

use crate::cells::number_at;
use crate::expected::Expected;
use crate::export::put_export;
use crate::fault::{ReadFault, TextFault};
use crate::keys::read_spec;
use crate::laws::texts_can_be_read;
use crate::lines::read_line;
use crate::notes::read_notes;
use crate::tree::read_row;
use archive_file::{EncodeFault, encode_file, is_keyed};
use archive_tree::Archive;
use key_spec::Spec;
use record_format::{DEEPEST, MOST_VERSIONS};
use std::alloc::{AllocError, Global};
use version_notes::is_note;

/// What a text keeps: an archive under a specification, with a note for each version.
#[derive(Drop)]
pub struct Kept {
    pub spec: Spec,
    pub archive: Archive,
    pub notes: Vec<String>,
}

/// The archive with notes whose text the bytes are, or Bad where they are no such text.
///
/// It does what `read_with_file` does, and lets the file go.
pub fn read_text(alloc: Global, bytes: &[u8]) -> Result<Kept, ReadFault>
    requires short { length bytes.now ≤ 67108864 }
    ensures text { IfOk result (λ k. bytes.now ≡ export_text (spec_view k.spec)
        (archive_view k.archive) (map string_bytes k.notes.items)) }
    ensures bad { IfErr result (λ e. IfBad e ((c : Contents) (file : List ℕ)
        → FullAs c file → ¬ (ExportOf c bytes.now))) }

    // A text has one reading.
    ensures only { (c : Contents) (file : List ℕ) → FullAs c file → ExportOf c bytes.now
        → IfOk result (λ k. (spec_view k.spec ≡ c.rules)
        × ArchiveOf c.versions (archive_view k.archive)
        × (map string_bytes k.notes.items ≡ c.notes)) }

    // It can be written as a file.
    ensures file { IfOk result (λ k. (vs : List PlainKeyed) → ArchiveOf vs (archive_view k.archive)
        → HaveFile (record {
          rules = spec_view k.spec;
          versions = vs;
          notes = map string_bytes k.notes.items;
        })) }
    ensures few { IfOk result (λ k. (archive_view k.archive).n ≤ MOST_VERSIONS) }
    ensures keyed { IfOk result (λ k. (vs : List PlainKeyed)
        → ArchiveOf vs (archive_view k.archive) → AreKeyedBy (spec_view k.spec) vs) }
    ensures notes { IfOk result (λ k. AllByRecursion IsNote (map string_bytes k.notes.items)
        × (length k.notes.items ≡ (archive_view k.archive).n)) }
{
    match read_with_file(alloc, bytes) {
        Ok((kept, _)) => Ok(kept),
        Err(fault) => Err(fault),
    }
}

/// The archive with notes whose text the bytes are, and its file without them, or Bad where the bytes are no such text.
///
/// It reads the lines without asking how they are written, judges the archive that they spell, and writes its text again: the
/// bytes have to be just that. So what it takes is no more than what `write_text` writes. That text is compared as it is made,
/// and not held.
pub fn read_with_file(alloc: Global, bytes: &[u8]) -> Result<(Kept, Vec<u8>), ReadFault>
    requires short { length bytes.now ≤ 67108864 }
    ensures text { IfOk result (λ r. bytes.now ≡ export_text (spec_view r.0.spec)
        (archive_view r.0.archive) (map string_bytes r.0.notes.items)) }
    ensures bad { IfErr result (λ e. IfBad e ((c : Contents) (file : List ℕ)
        → FullAs c file → ¬ (ExportOf c bytes.now))) }

    // A text has one reading.
    ensures only { (c : Contents) (file : List ℕ) → FullAs c file → ExportOf c bytes.now
        → IfOk result (λ r. (spec_view r.0.spec ≡ c.rules)
        × ArchiveOf c.versions (archive_view r.0.archive)
        × (map string_bytes r.0.notes.items ≡ c.notes)) }

    // The notes come behind the file.
    ensures file { IfOk result (λ r. (vs : List PlainKeyed)
        → ArchiveOf vs (archive_view r.0.archive)
        → FullAs (record {
          rules = spec_view r.0.spec;
          versions = vs;
          notes = map string_bytes r.0.notes.items;
        })
        (r.1.items ++ notes_part (map string_bytes r.0.notes.items))) }
    ensures few { IfOk result (λ r. (archive_view r.0.archive).n ≤ MOST_VERSIONS) }
    ensures keyed { IfOk result (λ r. (vs : List PlainKeyed)
        → ArchiveOf vs (archive_view r.0.archive) → AreKeyedBy (spec_view r.0.spec) vs) }
    ensures notes { IfOk result (λ r. AllByRecursion IsNote (map string_bytes r.0.notes.items)
        × (length r.0.notes.items ≡ (archive_view r.0.archive).n)) }
{
    texts_can_be_read();
    read_kept(alloc, bytes)
}

/// What the lines spell and its file, where it can be kept and the bytes are its text.
fn read_kept(alloc: Global, bytes: &[u8]) -> Result<(Kept, Vec<u8>), ReadFault>
    ensures kept { IfOk result (λ r. AreKeptAs (spec_view r.0.spec) (archive_view r.0.archive)
        (map string_bytes r.0.notes.items) r.1.items) }
    ensures text { IfOk result (λ r. bytes.now ≡ export_text (spec_view r.0.spec)
        (archive_view r.0.archive) (map string_bytes r.0.notes.items)) }
    ensures found { (c : Contents) (a : PlainArchive) (file : List ℕ)
        → ArchiveOf c.versions a → FullAs c file → ArePartsOf c.rules a c.notes bytes.now
        → Finds result (λ r. (spec_view r.0.spec ≡ c.rules) × (archive_view r.0.archive ≡ a)
        × (map string_bytes r.0.notes.items ≡ c.notes)) }
{
    let kept = read_parts(alloc, bytes)?;
    match kept_file(alloc, &kept.spec, &kept.archive, &kept.notes, bytes)? {
        Some(file) => Ok((kept, file)),
        None => Err(ReadFault::Bad),
    }
}

/// What the lines spell, if they are those of an archive. Whether they are is left to be seen.
fn read_parts(alloc: Global, bytes: &[u8]) -> Result<Kept, ReadFault>
    ensures { (rules : List PlainRule) (vs : List PlainKeyed) (a : PlainArchive)
        (notes : List (List ℕ)) → ArchiveOf vs a → ArePartsOf rules a notes bytes.now
        → Finds result (λ k. (spec_view k.spec ≡ rules) × (archive_view k.archive ≡ a)
        × (map string_bytes k.notes.items ≡ notes)) }
{
    let (n, behind_count) = read_count(alloc, bytes)?;
    let (spec, behind_keys) = read_spec(alloc, bytes, behind_count)?;
    let (notes, behind_notes) = read_notes(alloc, bytes, behind_keys, n)?;
    let archive = read_archive(alloc, bytes, behind_notes, n)?;
    Ok(Kept {
        spec,
        archive,
        notes,
    })
}

fn read_count(alloc: Global, bytes: &[u8]) -> Result<(u32, usize), ReadFault>
    ensures found { (n : ℕ) (ls : List PlainLine) → n ≤ MOST_VERSIONS
        → AreLines (count_line n ∷ ls) bytes.now
        → Finds result (λ r. (r.0 ≡ n) × AreLines ls (drop r.1 bytes.now)) }
    ensures within { IfOk result (λ r. r.1 ≤ length bytes.now) }
{
    let (line, next) = read_line(alloc, bytes, 0)?;
    Ok((number_at(&line.cells, 0, MOST_VERSIONS), next))
}

/// The archive of so many versions whose nodes stand from the offset on.
fn read_archive(alloc: Global, bytes: &[u8], at: usize, n: u32) -> Result<Archive, ReadFault>
    requires { at ≤ length bytes.now }
    ensures { (vs : List PlainKeyed) (a : PlainArchive) (rest : List PlainLine) → a.n ≡ n
        → ArchiveOf vs a → AreReadable GREATEST_DEPTH a.kids
        → AreLines (nodes_lines a.kids ++ end_line ∷ rest) (drop at bytes.now)
        → Finds result (λ r. archive_view r ≡ a) }
{
    let (kids, _) = read_row(alloc, bytes, at, DEEPEST)?;
    match Archive::of_parts(alloc, n, kids)? {
        Some(archive) => Ok(archive),
        None => Err(ReadFault::Bad),
    }
}

/// The file of an archive, where it can be kept with the notes and the bytes are its text.
fn kept_file(
    alloc: Global,
    spec: &Spec,
    archive: &Archive,
    notes: &[String],
    bytes: &[u8],
) -> Result<Option<Vec<u8>>, AllocError>
    ensures kept { IfOk result (λ o. IfSome o (λ v. AreKeptAs (spec_view spec.now)
        (archive_view archive.now) (map string_bytes notes.now) v.items)) }
    ensures text { IfOk result (λ o. IfSome o (λ _. bytes.now ≡ export_text (spec_view spec.now)
        (archive_view archive.now) (map string_bytes notes.now))) }
    ensures complete { (vs : List PlainKeyed) (file : List ℕ)
        → ArchiveOf vs (archive_view archive.now)
        → FullAs (record {
          rules = spec_view spec.now;
          versions = vs;
          notes = map string_bytes notes.now;
        }) file
        → bytes.now ≡ export_text (spec_view spec.now) (archive_view archive.now)
        (map string_bytes notes.now)
        → IfOk result (λ o. IfNone o ⊥) }
{
    if !is_text(alloc, spec, archive, notes, bytes)? {
        return Ok(None);
    }
    file_with_notes(alloc, spec, archive, notes)
}

/// The file of an archive, where it can be kept with the notes.
fn file_with_notes(
    alloc: Global,
    spec: &Spec,
    archive: &Archive,
    notes: &[String],
) -> Result<Option<Vec<u8>>, AllocError>
    ensures kept { IfOk result (λ o. IfSome o (λ v. AreKeptAs (spec_view spec.now)
        (archive_view archive.now) (map string_bytes notes.now) v.items)) }
    ensures complete { (vs : List PlainKeyed) (file : List ℕ)
        → ArchiveOf vs (archive_view archive.now)
        → FullAs (record {
          rules = spec_view spec.now;
          versions = vs;
          notes = map string_bytes notes.now;
        }) file
        → IfOk result (λ o. IfNone o ⊥) }
{
    let n = archive.n();
    if n > MOST_VERSIONS {
        return Ok(None);
    }
    if notes.len() != n as usize {
        return Ok(None);
    }
    if !are_notes(notes) {
        return Ok(None);
    }
    sound_file(alloc, spec, archive)
}

/// Whether each is a note.
fn are_notes(notes: &[String]) -> bool
    ensures { result ≡ list_all is_note (map string_bytes notes.now) }
{
    for note in notes {
        if !is_note(note.as_str()) {
            return false;
        }
    }
    true
}

/// The archive file of the versions, where they are keyed by the specification and have one.
fn sound_file(alloc: Global, spec: &Spec, archive: &Archive) -> Result<Option<Vec<u8>>, AllocError>
    requires { (archive_view archive.now).n ≤ MOST_VERSIONS }
    ensures sound { IfOk result (λ o. IfSome o (λ v. (vs : List PlainKeyed)
        → ArchiveOf vs (archive_view archive.now) → SoundAs (spec_view spec.now) vs v.items)) }
    ensures none { IfOk result (λ o. IfNone o ((vs : List PlainKeyed) (core : List ℕ)
        → ArchiveOf vs (archive_view archive.now) → ¬ (SoundAs (spec_view spec.now) vs core))) }
{
    let _rules = spec.rules();
    if !is_keyed(alloc, spec, archive)? {
        return Ok(None);
    }
    file_of(alloc, spec, archive)
}

/// The archive file, if there is one.
fn file_of(alloc: Global, spec: &Spec, archive: &Archive) -> Result<Option<Vec<u8>>, AllocError>
    requires few { (archive_view archive.now).n ≤ MOST_VERSIONS }
    requires keyed { (vs : List PlainKeyed)
        → ArchiveOf vs (archive_view archive.now) → AreKeyedBy (spec_view spec.now) vs }
    ensures file { IfOk result (λ o. IfSome o (λ v. (vs : List PlainKeyed)
        → ArchiveOf vs (archive_view archive.now) → FileOf (spec_view spec.now) vs v.items)) }
    ensures none { IfOk result (λ o. IfNone o ((vs : List PlainKeyed) (bytes : List ℕ)
        → ArchiveOf vs (archive_view archive.now) → ¬ (FileOf (spec_view spec.now) vs bytes))) }
{
    match encode_file(alloc, spec, archive) {
        Ok(file) => Ok(Some(file)),
        Err(EncodeFault::TooLong) => Ok(None),
        Err(EncodeFault::Memory) => Err(AllocError),
    }
}

fn is_text(
    alloc: Global,
    spec: &Spec,
    archive: &Archive,
    notes: &[String],
    bytes: &[u8],
) -> Result<bool, AllocError>
    ensures { IfOk result (λ b. IsTrue b ↔ (bytes.now ≡ export_text (spec_view spec.now)
        (archive_view archive.now) (map string_bytes notes.now))) }
{
    let mut expected = Expected::new(bytes);
    match put_export(alloc, &mut expected, spec, archive, notes) {
        Ok(()) => Ok(expected.is_whole()),
        Err(TextFault::Sink) => Ok(false),
        Err(TextFault::Memory) => Err(AllocError),
    }
}
