/// What the first word of a line asks for.
#[derive(Clone, Copy)]
pub(crate) enum Verb {
    Again,
    Alike,
    Always,
    And,
    Archive,
    Case,
    Change,
    Copy,
    Cut,
    Drop,
    EachCallFails,
    Fail,
    Flip,
    Has,
    HasNo,
    HasRead,
    Input,
    Is,
    IsOr,
    Length,
    Let,
    Out,
    OutAny,
    OutBegins,
    OutHolds,
    OutPrefix,
    OutSame,
    Put,
    ReadsAtMost,
    Run,
    Times,
    Watch,
    Wrong,
}

const VERBS: &[(&str, Verb)] = &[
    ("again", Verb::Again),
    ("alike", Verb::Alike),
    ("always", Verb::Always),
    ("and", Verb::And),
    ("archive", Verb::Archive),
    ("case", Verb::Case),
    ("change", Verb::Change),
    ("copy", Verb::Copy),
    ("cut", Verb::Cut),
    ("drop", Verb::Drop),
    ("each-call-fails", Verb::EachCallFails),
    ("fail", Verb::Fail),
    ("flip", Verb::Flip),
    ("has", Verb::Has),
    ("has-no", Verb::HasNo),
    ("has-read", Verb::HasRead),
    ("input", Verb::Input),
    ("is", Verb::Is),
    ("is-or", Verb::IsOr),
    ("length", Verb::Length),
    ("let", Verb::Let),
    ("out", Verb::Out),
    ("out-any", Verb::OutAny),
    ("out-begins", Verb::OutBegins),
    ("out-holds", Verb::OutHolds),
    ("out-prefix", Verb::OutPrefix),
    ("out-same", Verb::OutSame),
    ("put", Verb::Put),
    ("reads-at-most", Verb::ReadsAtMost),
    ("run", Verb::Run),
    ("times", Verb::Times),
    ("watch", Verb::Watch),
    ("wrong", Verb::Wrong),
];

fn verb_named(text: &str) -> Option<Verb> {
    for (name, verb) in VERBS {
        if *name == text {
            return Some(*verb);
        }
    }
    None
}

/// What a line asks for, if its first word says so, and what stands behind that word.
pub(crate) fn verb_of(text: &str) -> (Option<Verb>, &str) {
    let (first, rest) = text.split_once(' ').unwrap_or((text, ""));
    (verb_named(first), rest)
}
