ghost use Rattle.std.specs.Prelude.{◌≡◌, ◌≤◌, ◌↔◌, [], None};
ghost use Rattle.jsonml_tree.specs.Data.{PlainContent, PlainScalar, PlainTree, tree_depth};
ghost use Rattle.jsonml_tree.specs.declared.limits.TheConstants.{GREATEST_DEPTH};
ghost use Rattle.jsonml_text.specs.Document.{too_deep_at};
ghost use Rattle.jsonml_text.specs.RoundTrip.{TextReadsBack, DocumentReadsBack, ScalarReadsBack, ContentReadsBack};

/// A tree has an element that stands too deep exactly where its depth is above the greatest.
pub fn levels_end_with_the_depth()
    ensures { (t : PlainTree) → (too_deep_at [] t ≡ None) ↔ (tree_depth t ≤ GREATEST_DEPTH) }
{}

/// What is printed for a document reads back as it, with or without a line feed behind it, and so does a scalar on its
/// own.
pub fn printed_documents_read_back()
    ensures text { (t : PlainTree) → TextReadsBack t }
    ensures document { (t : PlainTree) → DocumentReadsBack t }
    ensures scalar { (s : PlainScalar) → ScalarReadsBack s }
{}

/// What is printed for a content as an array reads back as it.
pub fn contents_read_back()
    ensures { (c : PlainContent) → ContentReadsBack c }
{}
