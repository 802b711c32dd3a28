//! What a run comes to in which a call fails.
use crate::calls::Object;
use crate::shown::{alike, behind};
use crate::tried::{Trial, Tried, count_changed};
use xa_outside::MemFolder;

/// What runs with a failed call are held against: the run in which none fails, and the stages of a batch.
#[derive(Clone, Copy)]
pub(crate) struct Held<'a> {
    pub(crate) trial: &'a Trial<'a>,
    pub(crate) whole: &'a Tried,
    pub(crate) stages: &'a [Tried],
}

fn has_files(held: &Held, tried: &Tried, folder: &MemFolder) -> bool {
    count_changed(&tried.folder, folder, held.trial.names) == 0
}

/// Whether the run came to the same as where nothing fails, but for what was said.
fn is_alike(held: &Held, tried: &Tried) -> bool {
    tried.status == held.whole.status
        && tried.written() == held.whole.written()
        && has_files(held, tried, &held.whole.folder)
}

/// Whether the run came to the same as where nothing fails.
pub(crate) fn is_whole(held: &Held, tried: &Tried) -> bool {
    is_alike(held, tried) && tried.said() == held.whole.said()
}

/// Whether a part of what has to be said is missing, and no more.
fn is_said_in_part(said: &[u8], whole: &[u8]) -> bool {
    let behind = said.get(alike(said, whole)..).unwrap_or(&[]);
    said.len() < whole.len() && whole.ends_with(behind)
}

/// The status and the line of a failed call of the object.
fn fault_of(object: Object) -> (u8, &'static [u8]) {
    match object {
        Object::Folder(_) => (13, b"xarch: folder fault\n"),
        Object::Output => (14, b"xarch: output fault\n"),
        Object::Input => (15, b"xarch: input fault\n"),
        Object::Errors => (0, b""),
    }
}

/// Whether the run ended for the object: it said these lines and then that of the fault, and has these files.
fn is_ended(held: &Held, tried: &Tried, object: Object, lines: &[u8], folder: &MemFolder) -> bool {
    let (status, line) = fault_of(object);
    tried.status == status
        && behind(tried.said(), lines) == Some(line)
        && has_files(held, tried, folder)
}

/// Whether a command was refused for the object, changed no file and wrote a front of its output.
fn is_refused(held: &Held, tried: &Tried, object: Object) -> bool {
    is_ended(held, tried, object, &[], held.trial.folder)
        && held.whole.written().starts_with(tried.written())
}

/// Whether a batch ended for the object where it was at this stage.
fn is_ended_at(held: &Held, tried: &Tried, object: Object, stage: &Tried) -> bool {
    is_ended(held, tried, object, stage.said(), &stage.folder)
}

/// Whether these bytes are a front of a line's output, and the status of the folder's fault.
fn is_folders_front(came: &[u8], line: &[u8]) -> bool {
    match came.strip_suffix(b"status 13\n") {
        Some(front) => line.starts_with(front) && !line.is_empty(),
        None => false,
    }
}

/// Whether these bytes are a front of a line's output, and not all of it.
fn is_cut_short(came: &[u8], line: &[u8]) -> bool {
    line.starts_with(came) && came.len() < line.len()
}

/// Whether a batch ended for its output in this line, which was run to its end or not at all.
fn is_cut_in(held: &Held, tried: &Tried, stage: &Tried, next: &Tried, line: &[u8]) -> bool {
    is_ended_at(held, tried, Object::Output, next)
        || (!line.starts_with(b"status ") && is_ended_at(held, tried, Object::Output, stage))
}

/// Whether a batch ended for the object at the line behind the stage. The last stage is the next one itself.
fn is_stopped_in(held: &Held, tried: &Tried, object: Object, stage: &Tried, next: &Tried) -> bool {
    let front = stage.written();
    let Some(came) = behind(tried.written(), front) else {
        return false;
    };
    let line = behind(next.written(), front).unwrap_or(&[]);
    match object {
        Object::Folder(_) => {
            is_folders_front(came, line) && is_ended_at(held, tried, object, stage)
        }
        Object::Output => is_cut_short(came, line) && is_cut_in(held, tried, stage, next, line),
        _ => came.is_empty() && is_ended_at(held, tried, object, stage),
    }
}

/// Whether a batch ended for the object at one of its lines, and those before it did what they should.
fn is_stopped(held: &Held, tried: &Tried, object: Object) -> bool {
    for (index, stage) in held.stages.iter().enumerate() {
        let next = held.stages.get(index.saturating_add(1)).unwrap_or(stage);
        if is_stopped_in(held, tried, object, stage, next) {
            return true;
        }
    }
    false
}

/// Whether a run with a failed call came to what it should. A batch has its stages.
pub(crate) fn is_cut(held: &Held, tried: &Tried, object: Object) -> bool {
    match object {
        Object::Errors => {
            is_alike(held, tried) && is_said_in_part(tried.said(), held.whole.said())
        }
        _ if held.stages.is_empty() => is_refused(held, tried, object),
        _ => is_stopped(held, tried, object),
    }
}
