// What follows from the definitions.
ghost use Rattle.std.specs.Prelude.{◌≡◌, ◌↔◌, ℕ, ◌≤◌, ◌<◌, ◌^◌, List, ◌++◌, length, None};
ghost use Rattle.key_spec.specs.Canonical.{canonical};
ghost use Rattle.key_spec.specs.Data.{PlainRule};
ghost use Rattle.archive_tree.specs.Data.{PlainAlt, PlainNode, PlainNodes, PlainArchive};
ghost use Rattle.record_format.specs.Files.{header_bytes, file_bytes, HasFile};
ghost use Rattle.record_format.specs.Shapes.{IsShaped};
ghost use Rattle.record_writer.specs.Data.{PlainWriter, WriterCall, call_end_inner, call_finish};
ghost use Rattle.record_writer.specs.Calls.{appended, all_appended, after_all, started, AllFit};
ghost use Rattle.record_writer.specs.Walks.{alt_calls, node_calls, row_calls, walk_of};

/// What the calls append that walk an archive is its file, and they all fit exactly where there is
/// one.
pub fn walks_spell_files()
    ensures file { (rules : List PlainRule) (a : PlainArchive)
        → header_bytes rules a.n ++ all_appended (started rules a.n) (walk_of a)
        ≡ file_bytes rules a }
    ensures fits { (rules : List PlainRule) (a : PlainArchive)
        → length (canonical rules) < 2 ^ 32 → IsShaped a
        → HasFile rules a ↔ AllFit (started rules a.n) (walk_of a) }
    ensures appended { (w : PlainWriter) (cs ds : List WriterCall)
        → all_appended w (cs ++ ds) ≡ all_appended w cs ++ all_appended (after_all w cs) ds }
    ensures after { (w : PlainWriter) (cs ds : List WriterCall)
        → after_all w (cs ++ ds) ≡ after_all (after_all w cs) ds }
    ensures fits_both { (w : PlainWriter) (cs ds : List WriterCall)
        → AllFit w (cs ++ ds) ↔ (AllFit w cs × AllFit (after_all w cs) ds) }
    ensures lengths { (w : PlainWriter)
        → (9 ≤ length (appended w call_end_inner)) × (21 ≤ length (appended w call_finish)) }
{}

/// The calls that walk nodes close each that they begin, and those that walk alternatives begin
/// none.
pub fn walks_close_what_they_begin()
    ensures rows { (w : PlainWriter) (set : List (ℕ × ℕ)) (ks : PlainNodes) → w.leaf ≡ None
        → ((after_all w (row_calls set ks)).leaf ≡ None)
        × ((after_all w (row_calls set ks)).inners ≡ w.inners) }
    ensures nodes { (w : PlainWriter) (set : List (ℕ × ℕ)) (k : PlainNode) → w.leaf ≡ None
        → ((after_all w (node_calls set k)).leaf ≡ None)
        × ((after_all w (node_calls set k)).inners ≡ w.inners) }
    ensures alternatives { (w : PlainWriter) (xs : List PlainAlt)
        → ((after_all w (alt_calls xs)).leaf ≡ w.leaf)
        × ((after_all w (alt_calls xs)).inners ≡ w.inners)
        × ((after_all w (alt_calls xs)).row ≡ w.row) }
{}
