// Writing the records of a file.
ghost use Rattle.std.specs.Prelude.{◌≡◌, ◌≢◌, ◌+◌, ◌≤◌, ◌<◌, ◌^◌, [], length, None, Err, IfErr, IfOk, OnOk};
ghost use Rattle.record_format.specs.Files.{longest};
ghost use Rattle.record_writer.specs.Nested.{IsNested, IsNested-prop};
ghost use Rattle.record_writer.specs.Rows.{above_leaf, held};

use crate::end::{plan_end, spell_end, spell_tail};
use crate::fault::WriteFault;
use crate::given::{BodyFrom, LabelFrom};
use crate::plan::TreeNode;
use crate::rows::{Inner, Leaf, Row};
use crate::spell::{
    body_length, end_after, end_of, spell_alternative, spell_leaf_end, spell_opening,
};
use key_spec::Spec;
use record_format::{INNER, LEAF, put_header};
use std::alloc::{AllocError, Global};
use std::mem;
use version_set::VersionSet;
use xa_outside::Folder;

/// Appends an archive file to the draft of a folder, record by record, each in one piece.
///
/// Nodes come in preorder, children by ascending labels: `inner` begins an inner node, `end_inner`
/// closes the one that was begun last; `leaf` begins a leaf, `alt` adds one of its alternatives, at
/// least one and in the order of their first versions, `end_leaf` closes it; `finish` comes last. A
/// writer keeps an entry of each finished child of the nodes that stand begun and its place in a list
/// of sets, in which no two neighbours are the same, and the bytes and the plan of one record. After
/// a call that failed it is of no use.
#[derive(Drop)]
pub struct Writer {
    alloc: Global,
    /// How many bytes were appended.
    written: u64,
    /// The row of the last begun inner node, or of the virtual root.
    row: Row,
    /// The inner nodes that stand begun, the last at the end.
    inners: Vec<Inner>,
    leaf: Option<Leaf>,
    /// Closed rows whose memory is used again.
    kept: Vec<Row>,
    /// The nodes of the timestamp tree that is written next.
    nodes: Vec<TreeNode>,
    /// The bytes of the record that is appended next.
    record: Vec<u8>,
    ghost short: { written ≤ longest },
    ghost placed: { above_leaf leaf ≤ length row.sets.items },
    ghost nested: { IsNested (held written row inners.items leaf) } by { IsNested-prop (held written row inners.items leaf) },
}

impl Writer {
    ghost use Rattle.version_set.specs.View.{pairs_of};
    ghost use Rattle.key_spec.specs.Canonical.{canonical};
    ghost use Rattle.key_spec.specs.View.{spec_view};
    ghost use Rattle.archive_tree.specs.View.{stamp_view};
    ghost use Rattle.record_format.specs.Files.{header_bytes};
    ghost use Rattle.record_format.specs.Data.{end_rec};
    ghost use Rattle.record_format.specs.Spelling.{dir_bytes, rec_bytes};
    ghost use Rattle.record_writer.specs.Data.{call_inner, call_leaf, call_alt, call_end_leaf, call_end_inner, call_finish};
    ghost use Rattle.record_writer.specs.Calls.{appended, after, started, inner_begun, inner_ended, leaf_ended, Fits};
    ghost use Rattle.record_writer.specs.Faults.{TooLongUnless, Appends, Prepares, IsSent};
    ghost use Rattle.record_writer.specs.Given.{given_label, given_body, IsShapedLabelFrom, IsShapedBodyFrom};
    ghost use Rattle.record_writer.specs.View.{writer_view, IsLaid, IsReady};
    ghost use Rattle.record_writer.specs.declared.fault.WriteFault.TheVariants.{TooLong};

    /// Appends the header of a file of so many versions. A header is never too long.
    pub fn start<F: Folder>(
        alloc: Global,
        folder: &mut F,
        spec: &Spec,
        versions: u32,
    ) -> Result<Writer, WriteFault>
        ensures folder { Appends F.files F.draft F.numbers F.faults folder.old folder.new
            (header_bytes (spec_view spec.now) versions) result }
        ensures started { IfOk result (λ w.
            writer_view w ≡ started (spec_view spec.now) versions) }
        ensures short { OnOk result (length (canonical (spec_view spec.now)) ≤ 1048576) }
        ensures never_too_long { result ≢ Err TooLong }
    {
        let writer = Writer::behind_header(alloc, spec, versions)?;
        writer.send(folder, Ok(()))?;
        Ok(writer)
    }

    /// Begins an inner node with its label, its stored timestamp and its effective set, which is
    /// copied.
    pub fn inner<F: Folder>(
        &mut self,
        folder: &mut F,
        label: LabelFrom<'_, '_>,
        stamp: &Option<VersionSet>,
        set: &VersionSet,
    ) -> Result<(), WriteFault>
        requires no_leaf { (writer_view self.old).leaf ≡ None }
        requires label { IsShapedLabelFrom label }
        ensures folder { Appends F.files F.draft F.numbers F.faults folder.old folder.new
            (appended (writer_view self.old)
            (call_inner (given_label label.entry) (stamp_view stamp.now) (pairs_of set.now)))
            result }
        ensures after { OnOk result (writer_view self.new ≡ after (writer_view self.old)
            (call_inner (given_label label.entry) (stamp_view stamp.now) (pairs_of set.now))) }
        ensures too_long { TooLongUnless (Fits (writer_view self.old)
            (call_inner (given_label label.entry) (stamp_view stamp.now) (pairs_of set.now)))
            result }
    {
        let prepared = self.begin_inner(&label, stamp, set);
        self.send(folder, prepared)
    }

    /// Begins a leaf with its label, its stored timestamp and its effective set, which is copied.
    pub fn leaf<F: Folder>(
        &mut self,
        folder: &mut F,
        label: LabelFrom<'_, '_>,
        stamp: &Option<VersionSet>,
        set: &VersionSet,
    ) -> Result<(), WriteFault>
        requires no_leaf { (writer_view self.old).leaf ≡ None }
        requires label { IsShapedLabelFrom label }
        ensures folder { Appends F.files F.draft F.numbers F.faults folder.old folder.new
            (appended (writer_view self.old)
            (call_leaf (given_label label.entry) (stamp_view stamp.now) (pairs_of set.now)))
            result }
        ensures after { OnOk result (writer_view self.new ≡ after (writer_view self.old)
            (call_leaf (given_label label.entry) (stamp_view stamp.now) (pairs_of set.now))) }
        ensures too_long { TooLongUnless (Fits (writer_view self.old)
            (call_leaf (given_label label.entry) (stamp_view stamp.now) (pairs_of set.now)))
            result }
    {
        let prepared = self.begin_leaf(&label, stamp, set);
        self.send(folder, prepared)
    }

    /// Appends an alternative of the leaf that stands begun.
    pub fn alt<F: Folder>(
        &mut self,
        folder: &mut F,
        stamp: &Option<VersionSet>,
        body: BodyFrom<'_, '_>,
    ) -> Result<(), WriteFault>
        requires leaf { (writer_view self.old).leaf ≢ None }
        requires body { IsShapedBodyFrom body }
        ensures folder { Appends F.files F.draft F.numbers F.faults folder.old folder.new
            (appended (writer_view self.old)
            (call_alt (stamp_view stamp.now) (given_body body.entry))) result }
        ensures after { OnOk result (writer_view self.new ≡ after (writer_view self.old)
            (call_alt (stamp_view stamp.now) (given_body body.entry))) }
        ensures too_long { TooLongUnless (Fits (writer_view self.old)
            (call_alt (stamp_view stamp.now) (given_body body.entry))) result }
    {
        let prepared = self.add_alternative(stamp, &body);
        self.send(folder, prepared)
    }

    /// Closes the leaf that stands begun. It becomes a child of the row that it stands in.
    pub fn end_leaf<F: Folder>(&mut self, folder: &mut F) -> Result<(), WriteFault>
        requires leaf { (writer_view self.old).leaf ≢ None }
        ensures folder { Appends F.files F.draft F.numbers F.faults folder.old folder.new
            (appended (writer_view self.old) call_end_leaf) result }
        ensures after { OnOk result (writer_view self.new
            ≡ after (writer_view self.old) call_end_leaf) }
        ensures too_long { TooLongUnless (Fits (writer_view self.old) call_end_leaf) result }
    {
        let prepared = self.close_leaf();
        self.send(folder, prepared)
    }

    /// Closes the inner node that was begun last. It becomes a child of the row that it stands in.
    ///
    /// The timestamp tree over its children's sets is planned here: so many steps as there are pairs
    /// in the sets, for each of its levels. Nothing is spelled of a record that would be too long.
    pub fn end_inner<F: Folder>(&mut self, folder: &mut F) -> Result<(), WriteFault>
        requires no_leaf { (writer_view self.old).leaf ≡ None }
        requires inner { (writer_view self.old).inners ≢ [] }
        ensures folder { Appends F.files F.draft F.numbers F.faults folder.old folder.new
            (appended (writer_view self.old) call_end_inner) result }
        ensures after { OnOk result (writer_view self.new
            ≡ after (writer_view self.old) call_end_inner) }
        ensures too_long { TooLongUnless (Fits (writer_view self.old) call_end_inner) result }
    {
        let prepared = self.close_inner();
        self.send(folder, prepared)
    }

    /// Closes the virtual root, and appends the tail of the file.
    pub fn finish<F: Folder>(self, folder: &mut F) -> Result<(), WriteFault>
        requires no_leaf { (writer_view self).leaf ≡ None }
        requires no_inner { (writer_view self).inners ≡ [] }
        ensures folder { Appends F.files F.draft F.numbers F.faults folder.old folder.new
            (appended (writer_view self) call_finish) result }
        ensures too_long { TooLongUnless (Fits (writer_view self) call_finish) result }
    {
        let mut writer = self;
        let prepared = writer.close_root();
        writer.send(folder, prepared)
    }

    // A writer that has spelled the header.
    fn behind_header(alloc: Global, spec: &Spec, versions: u32) -> Result<Writer, AllocError>
        ensures spelled { IfOk result (λ w.
            w.record.items ≡ header_bytes (spec_view spec.now) versions) }
        ensures started { IfOk result (λ w.
            writer_view w ≡ started (spec_view spec.now) versions) }
        ensures short { OnOk result (length (canonical (spec_view spec.now)) ≤ 1048576) }
    {
        let mut record = Vec::new(alloc);
        put_header(alloc, &mut record, spec, versions)?;
        let written = record.len() as u64;
        let mut row = Row::new(alloc, written);
        row.place(&VersionSet::upto(alloc, versions))?;
        Ok(Writer {
            alloc,
            written,
            row,
            inners: Vec::new(alloc),
            leaf: None,
            kept: Vec::new(alloc),
            nodes: Vec::new(alloc),
            record,
        })
    }

    // Appends what was spelled, where it was.
    fn send<F: Folder>(
        &self,
        folder: &mut F,
        prepared: Result<(), WriteFault>,
    ) -> Result<(), WriteFault>
        requires { IfErr prepared (λ e. e ≢ WriteFault.Folder) }
        ensures folder { Appends F.files F.draft F.numbers F.faults folder.old folder.new
            self.now.record.items result }
        ensures outcome { IsSent prepared result }
    {
        match prepared {
            Ok(()) => self.append(folder),
            Err(fault) => Err(fault),
        }
    }

    // Appends what was spelled.
    fn append<F: Folder>(&self, folder: &mut F) -> Result<(), WriteFault>
        ensures folder { Appends F.files F.draft F.numbers F.faults folder.old folder.new
            self.now.record.items result }
        ensures of_folder { IfErr result (λ e. e ≡ WriteFault.Folder) }
    {
        match folder.append(&self.record) {
            Ok(()) => Ok(()),
            Err(_) => Err(WriteFault::Folder),
        }
    }

    fn begin_inner(
        &mut self,
        label: &LabelFrom<'_, '_>,
        stamp: &Option<VersionSet>,
        set: &VersionSet,
    ) -> Result<(), WriteFault>
        requires no_leaf { (writer_view self.old).leaf ≡ None }
        requires label { IsShapedLabelFrom label.now }
        ensures { Prepares (Fits (writer_view self.old)
            (call_inner (given_label label.now) (stamp_view stamp.now) (pairs_of set.now)))
            (λ _. IsReady (writer_view self.old)
            (call_inner (given_label label.now) (stamp_view stamp.now) (pairs_of set.now)) self.new)
            result }
    {
        spell_opening(&mut self.record, INNER, label, stamp)?;
        let end = end_of(self.written, &self.record)?;
        self.push_inner(set, end)?;
        Ok(())
    }

    fn begin_leaf(
        &mut self,
        label: &LabelFrom<'_, '_>,
        stamp: &Option<VersionSet>,
        set: &VersionSet,
    ) -> Result<(), WriteFault>
        requires no_leaf { (writer_view self.old).leaf ≡ None }
        requires label { IsShapedLabelFrom label.now }
        ensures { Prepares (Fits (writer_view self.old)
            (call_leaf (given_label label.now) (stamp_view stamp.now) (pairs_of set.now)))
            (λ _. IsReady (writer_view self.old)
            (call_leaf (given_label label.now) (stamp_view stamp.now) (pairs_of set.now)) self.new)
            result }
    {
        spell_opening(&mut self.record, LEAF, label, stamp)?;
        let end = end_of(self.written, &self.record)?;
        let set = self.row.place(set)?;
        self.leaf = Some(Leaf {
            begin: self.written,
            set,
        });
        self.written = end;
        Ok(())
    }

    fn add_alternative(
        &mut self,
        stamp: &Option<VersionSet>,
        body: &BodyFrom<'_, '_>,
    ) -> Result<(), WriteFault>
        requires { IsShapedBodyFrom body.now }
        ensures { Prepares (Fits (writer_view self.old)
            (call_alt (stamp_view stamp.now) (given_body body.now)))
            (λ _. IsReady (writer_view self.old)
            (call_alt (stamp_view stamp.now) (given_body body.now)) self.new) result }
    {
        spell_alternative(&mut self.record, stamp, body)?;
        self.written = end_of(self.written, &self.record)?;
        Ok(())
    }

    fn close_leaf(&mut self) -> Result<(), WriteFault>
        ensures { Prepares (Fits (writer_view self.old) call_end_leaf)
            (λ _. IsReady (writer_view self.old) call_end_leaf self.new) result }
    {
        spell_leaf_end(&mut self.record)?;
        let end = end_of(self.written, &self.record)?;
        self.pop_leaf(end)?;
        Ok(())
    }

    // The leaf that stands begun ends here, and is a child of its row.
    fn pop_leaf(&mut self, end: u64) -> Result<(), AllocError>
        requires behind { self.old.written ≤ end }
        requires short { end ≤ longest }
        ensures ended { OnOk result (writer_view self.new
            ≡ leaf_ended (writer_view self.old) (writer_view self.old).leaf end) }
        ensures record { self.new.record.items ≡ self.old.record.items }
    {
        self.written = end;
        match self.leaf.take() {
            Some(leaf) => self.row.add(leaf.begin, end, 0, leaf.set),
            None => Ok(()),
        }
    }

    fn close_inner(&mut self) -> Result<(), WriteFault>
        requires { (writer_view self.old).leaf ≡ None }
        ensures { Prepares (Fits (writer_view self.old) call_end_inner)
            (λ _. IsReady (writer_view self.old) call_end_inner self.new) result }
    {
        let end = self.lay(0)?;
        spell_end(&mut self.record, &self.row, &mut self.nodes)?;
        let dir = body_length(&self.record);
        self.pop_inner(end, dir)?;
        Ok(())
    }

    fn close_root(&mut self) -> Result<(), WriteFault>
        requires { (writer_view self.old).leaf ≡ None }
        ensures { Prepares (Fits (writer_view self.old) call_finish)
            (λ _. IsReady (writer_view self.old) call_finish self.new) result }
    {
        let end = self.lay(8)?;
        spell_tail(&mut self.record, &self.row, &mut self.nodes)?;
        self.written = end;
        Ok(())
    }

    // Where the record ends that closes the row, with so many bytes behind it. Nothing is spelled.
    fn lay(&mut self, tail: u64) -> Result<u64, WriteFault>
        requires no_leaf { (writer_view self.old).leaf ≡ None }
        requires tail { tail ≤ 8 }
        ensures { Prepares ((length (writer_view self.old).row.dir.entries < 2 ^ 32)
            × (self.old.written + (length (rec_bytes (end_rec (writer_view self.old).row.dir))
            + tail) ≤ longest))
            (λ end. IsLaid (writer_view self.old) self.new × (end ≡ self.old.written
            + (length (rec_bytes (end_rec (writer_view self.old).row.dir)) + tail))) result }
    {
        let size = plan_end(&mut self.row, &mut self.nodes)?;
        end_after(self.written + tail, size)
    }

    // The inner node begins where the writer stands, and its row behind the record that ends here.
    fn push_inner(&mut self, set: &VersionSet, end: u64) -> Result<(), AllocError>
        requires no_leaf { (writer_view self.old).leaf ≡ None }
        requires behind { self.old.written ≤ end }
        requires short { end ≤ longest }
        ensures begun { OnOk result (writer_view self.new
            ≡ inner_begun (writer_view self.old) (pairs_of set.now) end) }
        ensures record { self.new.record.items ≡ self.old.record.items }
    {
        let place = self.row.place(set)?;
        self.inners.reserve(1)?;
        let mut fresh = Row::take(self.alloc, &mut self.kept, end);
        fresh.place(set)?;
        let row = mem::replace(&mut self.row, fresh);
        let begin = self.written;
        self.written = end;
        self.inners.push_reserved(Inner {
            begin,
            set: place,
            row,
        });
        Ok(())
    }

    // The inner node that was begun last ends here, and is a child with an END of this length.
    fn pop_inner(&mut self, end: u64, dir: u64) -> Result<(), AllocError>
        requires no_leaf { (writer_view self.old).leaf ≡ None }
        requires behind { self.old.written ≤ end }
        requires short { end ≤ longest }
        requires dir { dir ≡ length (dir_bytes (writer_view self.old).row.dir) }
        ensures ended { OnOk result (writer_view self.new
            ≡ inner_ended (writer_view self.old) (writer_view self.old).inners end) }
        ensures record { self.new.record.items ≡ self.old.record.items }
    {
        self.written = end;
        match self.inners.pop() {
            Some(inner) => {
                let closed = mem::replace(&mut self.row, inner.row);
                closed.keep(&mut self.kept);
                self.row.add(inner.begin, end, dir, inner.set)
            }
            None => Ok(()),
        }
    }
}
