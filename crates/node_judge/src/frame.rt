// What is kept of an open row, and of a leaf that is opened in it.
ghost use Rattle.std.specs.Prelude.{◌≡◌};
ghost use Rattle.key_spec.specs.ContextView.{context_path};
ghost use Rattle.node_judge.specs.InPlace.{is_below_root};

use crate::body::{is_content_within, is_scalar, meets_all};
use crate::label::KeptLabel;
use crate::stamp::is_stamp_well;
use crate::wait::{Wait, hand_all, hand_onto, hands_nothing, waits_of};
use archive_tree::effective;
use jsonml_tree::GREATEST_DEPTH;
use key_spec::{Context, Rule, Spec};
use record_parts::{BodyView, LabelView, NameView};
use std::alloc::{AllocError, Global};
use version_set::VersionSet;

/// What is kept of an open row: its place, the set of its parent, what its parent waits for and no
/// kid has met yet, and the last kid's label.
///
/// Rules, sets and key values are lent: by the specification, by the stamps and labels of the nodes
/// that are open above it.
#[derive(Drop)]
pub struct Frame<'a> {
    place: Context<'a>,
    below_root: bool,
    set: &'a VersionSet,
    left: u32,
    waits: Vec<Wait<'a>>,
    last: KeptLabel,
    ghost placed: { below_root ≡ is_below_root (context_path place) },
}

/// What is kept of an open leaf: whether it is an element's, its set, how many elements may nest in
/// its row, and what it waits for.
#[derive(Drop)]
pub struct Leaf<'a> {
    is_element: bool,
    pub(crate) set: &'a VersionSet,
    left: u32,
    waits: Vec<Wait<'a>>,
}

impl Leaf<'_> {
    ghost use Rattle.std.specs.Prelude.{◌≡◌, IfOk};
    ghost use Rattle.record_parts.specs.ShownViews.{shown_body};
    ghost use Rattle.node_judge.specs.FrameView.{leaf_view};
    ghost use Rattle.node_judge.specs.Rows.{is_body_of};

    /// Whether a body is right in the leaf: a content that is not too deep, or an attribute's
    /// scalar; and it has what the leaf waits for. It takes memory only for a content so long that
    /// it might be too deep.
    pub(crate) fn is_body(&self, alloc: Global, body: &BodyView<'_>) -> Result<bool, AllocError>
        ensures { IfOk result
            (λ b. b ≡ is_body_of (leaf_view self.now) (shown_body body.now)) }
    {
        if !meets_all(&self.waits, body) {
            return Ok(false);
        }
        if !self.is_element {
            return Ok(is_scalar(body));
        }
        is_content_within(alloc, body, self.left)
    }
}

impl<'a> Frame<'a> {
    ghost use Rattle.std.specs.Prelude.{◌<◌, ◌-◌, ◌++◌, false, true, map, None, IfOk, IsTrue, OnOk};
    ghost use Rattle.std.specs.Option.{option_map, unwrap_or};
    ghost use Rattle.jsonml_tree.specs.declared.limits.TheConstants.{GREATEST_DEPTH};
    ghost use Rattle.keyed_tree.specs.Data.{tag};
    ghost use Rattle.keyed_tree.specs.Proper.{is_tag};
    ghost use Rattle.key_spec.specs.ContextView.{context_rules};
    ghost use Rattle.key_spec.specs.View.{rule_view, spec_view};
    ghost use Rattle.version_set.specs.View.{pairs_of};
    ghost use Rattle.archive_tree.specs.View.{stamp_view};
    ghost use Rattle.record_parts.specs.ShownViews.{shown_label, shown_body};
    ghost use Rattle.node_judge.specs.Awaited.{all_handed, awaited_by};
    ghost use Rattle.node_judge.specs.FrameView.{frame_view, leaf_view};
    ghost use Rattle.node_judge.specs.Rows.{root_frame, inner_opened, leaf_opened};
    ghost use Rattle.node_judge.specs.Rows.{behind_kid, is_met_all};
    ghost use Rattle.node_judge.specs.Steps.{comes, element_opened, element_view};
    ghost use Rattle.node_judge.specs.View.{wait_view};

    /// The row of the virtual root, whose versions are the set, before its first kid.
    pub fn root(alloc: Global, spec: &'a Spec, set: &'a VersionSet) -> Frame<'a>
        ensures { frame_view result
            ≡ root_frame (spec_view spec.now) (pairs_of set.now) GREATEST_DEPTH }
    {
        Frame {
            place: spec.root(),
            below_root: false,
            set,
            left: GREATEST_DEPTH,
            waits: Vec::new(alloc),
            last: KeptLabel::none(alloc),
        }
    }

    /// The row of an inner node with this label, these key values of it and this timestamp, if such
    /// a node may come next. It takes memory for what the node waits for alone.
    pub fn open_inner(
        &self,
        alloc: Global,
        label: &LabelView<'_>,
        keys: &[BodyView<'a>],
        stamp: &'a Option<VersionSet>,
    ) -> Result<Option<Frame<'a>>, AllocError>
        requires { map shown_body keys.now ≡ (shown_label label.now).keys }
        ensures { IfOk result (λ o. option_map frame_view o
            ≡ inner_opened (frame_view self.now) (shown_label label.now) (stamp_view stamp.now)) }
    {
        let NameView::Tag(tag) = label.name() else {
            return Ok(None);
        };
        if !self.may_come(label, stamp) {
            return Ok(None);
        }
        match self.element(alloc, false, tag, label, keys)? {
            Some((place, waits)) => Ok(Some(self.row_below(alloc, place, waits, stamp))),
            None => Ok(None),
        }
    }

    /// The leaf with this label, these key values of it and this timestamp, if such a leaf may come
    /// next. It takes memory for what the leaf waits for alone.
    pub fn open_leaf(
        &self,
        alloc: Global,
        label: &LabelView<'_>,
        keys: &[BodyView<'a>],
        stamp: &'a Option<VersionSet>,
    ) -> Result<Option<Leaf<'a>>, AllocError>
        requires { map shown_body keys.now ≡ (shown_label label.now).keys }
        ensures { IfOk result (λ o. option_map leaf_view o
            ≡ leaf_opened (frame_view self.now) (shown_label label.now) (stamp_view stamp.now)) }
    {
        if !self.may_come(label, stamp) {
            return Ok(None);
        }
        match label.name() {
            NameView::Tag(tag) => self.element_leaf(alloc, tag, label, keys, stamp),
            NameView::Attr(_) => self.attribute_leaf(alloc, label, keys, stamp),
        }
    }

    /// Goes behind a kid with this label. What it was handed is waited for no longer.
    pub fn pass(&mut self, label: &LabelView<'_>) -> Result<(), AllocError>
        ensures { OnOk result
            (frame_view self.new ≡ behind_kid (frame_view self.old) (shown_label label.now)) }
    {
        self.waits.retain(|wait| wait.hand(label).is_none());
        self.last.set(label)
    }

    /// The set of its parent.
    pub fn set(&self) -> &'a VersionSet
        ensures { pairs_of result.now ≡ (frame_view self.now).set }
    {
        self.set
    }

    /// Whether the row may end: nothing is waited for any more.
    pub fn is_met(&self) -> bool
        ensures { result ≡ is_met_all (frame_view self.now) }
    {
        self.waits.is_empty()
    }

    // Whether the label and the timestamp are right for the node that comes next.
    fn may_come(&self, label: &LabelView<'_>, stamp: &Option<VersionSet>) -> bool
        ensures { result
            ≡ comes (frame_view self.now) (shown_label label.now) (stamp_view stamp.now) }
    {
        self.last.is_below(label)
            && is_stamp_well(stamp, self.set)
            && (stamp.is_none() || hands_nothing(&self.waits, label))
    }

    // The place below an element with this tag, and what it waits for.
    fn element(
        &self,
        alloc: Global,
        is_leaf: bool,
        text: &str,
        label: &LabelView<'_>,
        keys: &[BodyView<'a>],
    ) -> Result<Option<(Context<'a>, Vec<Wait<'a>>)>, AllocError>
        requires name { (shown_label label.now).name ≡ tag text.now }
        requires keys { map shown_body keys.now ≡ (shown_label label.now).keys }
        ensures { IfOk result (λ o. option_map element_view o
            ≡ element_opened (frame_view self.now) is_leaf (shown_label label.now)) }
    {
        let Some((rule, place)) = self.place.rule(text) else {
            return Ok(None);
        };
        if self.left == 0 || place.is_frontier() != is_leaf {
            return Ok(None);
        }
        match self.element_waits(alloc, rule, label, keys)? {
            Some(waits) => Ok(Some((place, waits))),
            None => Ok(None),
        }
    }

    // What an element with this rule waits for, if it has as many key values as its rule has paths.
    fn element_waits(
        &self,
        alloc: Global,
        rule: &'a Rule,
        label: &LabelView<'_>,
        keys: &[BodyView<'a>],
    ) -> Result<Option<Vec<Wait<'a>>>, AllocError>
        ensures { IfOk result (λ o. option_map (λ v. map wait_view v.items) o
            ≡ option_map (λ ws. ws ++ all_handed (shown_label label.now)
            (map wait_view self.now.waits.items))
            (awaited_by (rule_view rule.now).paths (map shown_body keys.now))) }
    {
        let Some(mut waits) = waits_of(alloc, &rule.paths, keys)? else {
            return Ok(None);
        };
        hand_onto(&mut waits, &self.waits, label)?;
        Ok(Some(waits))
    }

    fn element_leaf(
        &self,
        alloc: Global,
        text: &str,
        label: &LabelView<'_>,
        keys: &[BodyView<'a>],
        stamp: &'a Option<VersionSet>,
    ) -> Result<Option<Leaf<'a>>, AllocError>
        requires name { (shown_label label.now).name ≡ tag text.now }
        requires keys { map shown_body keys.now ≡ (shown_label label.now).keys }
        requires comes { IsTrue (comes (frame_view self.now) (shown_label label.now)
            (stamp_view stamp.now)) }
        ensures { IfOk result (λ o. option_map leaf_view o
            ≡ leaf_opened (frame_view self.now) (shown_label label.now) (stamp_view stamp.now)) }
    {
        match self.element(alloc, true, text, label, keys)? {
            Some((_, waits)) => Ok(Some(self.leaf(true, waits, stamp))),
            None => Ok(None),
        }
    }

    fn attribute_leaf(
        &self,
        alloc: Global,
        label: &LabelView<'_>,
        keys: &[BodyView<'a>],
        stamp: &'a Option<VersionSet>,
    ) -> Result<Option<Leaf<'a>>, AllocError>
        requires name { is_tag (shown_label label.now).name ≡ false }
        requires keys { map shown_body keys.now ≡ (shown_label label.now).keys }
        requires comes { IsTrue (comes (frame_view self.now) (shown_label label.now)
            (stamp_view stamp.now)) }
        ensures { IfOk result (λ o. option_map leaf_view o
            ≡ leaf_opened (frame_view self.now) (shown_label label.now) (stamp_view stamp.now)) }
    {
        if !keys.is_empty() {
            return Ok(None);
        }
        if !self.below_root {
            return Ok(None);
        }
        let waits = hand_all(alloc, &self.waits, label)?;
        Ok(Some(self.leaf(false, waits, stamp)))
    }

    fn leaf(
        &self,
        is_element: bool,
        waits: Vec<Wait<'a>>,
        stamp: &'a Option<VersionSet>,
    ) -> Leaf<'a>
        ensures { leaf_view result ≡ record {
          element = is_element;
          set = unwrap_or (stamp_view stamp.now) (pairs_of self.now.set.now);
          left = self.now.left;
          waits = map wait_view waits.entry.items;
        } }
    {
        Leaf {
            is_element,
            set: effective(stamp, self.set),
            left: self.left,
            waits,
        }
    }

    fn row_below(
        &self,
        alloc: Global,
        place: Context<'a>,
        waits: Vec<Wait<'a>>,
        stamp: &'a Option<VersionSet>,
    ) -> Frame<'a>
        requires room { 0 < self.now.left }
        requires below { is_below_root (context_path place) ≡ true }
        ensures { frame_view result ≡ record {
          rules = context_rules place.entry;
          path = context_path place.entry;
          set = unwrap_or (stamp_view stamp.now) (pairs_of self.now.set.now);
          left = self.now.left - 1;
          waits = map wait_view waits.entry.items;
          last = None;
        } }
    {
        Frame {
            place,
            below_root: true,
            set: effective(stamp, self.set),
            left: self.left - 1,
            waits,
            last: KeptLabel::none(alloc),
        }
    }
}
