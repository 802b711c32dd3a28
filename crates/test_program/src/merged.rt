//! The file that adding documents leaves is that of all their versions merged at once.
ghost use Rattle.std.specs.Prelude.{◌≤◌, IfOk, length};
ghost use Rattle.key_spec.specs.View.{spec_view};
ghost use Rattle.keyed_tree.specs.View.{keyed_view};
ghost use Rattle.archive_file.specs.KeyedBy.{IsKeyedBy};

use given_outside::{Ends, QUIET, ends_of, folder, texts};
use jsonml_text::read_document;
use key_annotate::keyed;
use key_spec::Spec;
use keyed_tree::Keyed;
use std::alloc::Global;
use std::test::Fail;
use xa_outside::MemFolder;
use xarch_run::{file_of_versions, run};

const COMPANY: &[u8] =
    b"(/, (db, {}))\n(/db, (dept, {name}))\n(/db/dept, (emp, {fn, ln}))\n(/db/dept/emp, (sal, {}))\n(/db/dept/emp, (tel, {.}))\n";

/// An employee, and the same with another salary.
const JOHN: &[u8] =
    b"[\"db\",[\"dept\",[\"emp\",[\"fn\",\"John\"],[\"ln\",\"Doe\"],[\"sal\",\"90K\"],[\"tel\",\"123-4567\"]],[\"name\",\"finance\"]]]\n";

const JOHN_RAISED: &[u8] =
    b"[\"db\",[\"dept\",[\"emp\",[\"fn\",\"John\"],[\"ln\",\"Doe\"],[\"sal\",\"95K\"],[\"tel\",\"123-4567\"]],[\"name\",\"finance\"]]]\n";

/// The keyed tree of a document.
fn keyed_document(alloc: Global, spec: &Spec, doc: &[u8]) -> Result<Keyed, Fail>
    requires { length doc.now ≤ 1000 }
    ensures { IfOk result (λ k. IsKeyedBy (spec_view spec.now) (keyed_view k)) }
{
    let doc = read_document(alloc, doc)?;
    Ok(keyed(alloc, spec, &doc)?)
}

/// The file of the archive of these three versions, made at once.
fn file_of_three(alloc: Global) -> Result<Vec<u8>, Fail> {
    let spec = Spec::parse(alloc, COMPANY)?;
    let first = keyed_document(alloc, &spec, JOHN)?;
    let second = keyed_document(alloc, &spec, JOHN_RAISED)?;
    let third = keyed_document(alloc, &spec, JOHN)?;
    let versions = vec![in alloc; first, second, third]?;
    Ok(file_of_versions(alloc, &spec, &versions)?)
}

fn is_done(alloc: Global, folder: &mut MemFolder, words: &[&str]) -> Result<bool, Fail> {
    let words = texts(alloc, words)?;
    let Ends {
        mut input,
        mut out,
        mut err,
    } = ends_of(alloc, &QUIET)?;
    Ok(run(alloc, &words, folder, &mut input, &mut out, &mut err) == 0)
}

#[test]
fn merging_all_documents_gives_the_file_that_adding_them_left(rt: HostRuntime) -> Result<(), Fail> {
    let alloc = rt.alloc();
    let files: [(&str, &[u8]); 3] = [("spec", COMPANY), ("john", JOHN), ("raised", JOHN_RAISED)];
    let mut folder = folder(alloc, &[], &files)?;
    let is_begun = is_done(alloc, &mut folder, &["init", "A", "spec"])?;
    let has_first = is_done(alloc, &mut folder, &["add", "A", "john"])?;
    let has_second = is_done(alloc, &mut folder, &["add", "A", "raised"])?;
    let has_third = is_done(alloc, &mut folder, &["add", "A", "john"])?;
    assert!(rt; is_begun && has_first && has_second && has_third);
    let merged = file_of_three(alloc)?;
    assert!(rt; folder.file("A") == Some(merged.as_slice()));
    Ok(())
}
