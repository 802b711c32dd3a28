ghost use Rattle.std.specs.Prelude.{◌≡◌, ◌≤◌, option_map, IfSome, map};
ghost use Rattle.xarch_words.specs.Commands.{IsSpelled, command_of, command_of_five, command_of_four};
ghost use Rattle.xarch_words.specs.Commands.{command_of_one, command_of_three, command_of_two, cut_of};
ghost use Rattle.xarch_words.specs.Commands.{demo_of, get, noted, number_of, question_of, table_of};
ghost use Rattle.xarch_words.specs.Commands.{tablekeys_of};
ghost use Rattle.xarch_words.specs.View.{command_view, words_view};

use crate::keys::are_keys;
use itoa::Buffer;
use key_spec::is_name;
use version_notes::is_printed;

/// One command, with the names that its words give.
#[derive(Clone, Copy, Debug, PartialEq, Eq)]
pub enum Command<'a> {
    /// Writes a document in key order.
    Norm {
        spec: &'a str,
        doc: &'a str,
    },
    /// Makes an archive of no versions.
    Init {
        archive: &'a str,
        spec: &'a str,
    },
    /// Adds a document to an archive as its next version, with a note.
    Add {
        archive: &'a str,
        doc: &'a str,
        /// Without a byte below 20 hexadecimal.
        note: Option<&'a str>,
    },
    /// Gives an archive the keys of another specification.
    Rekey {
        archive: &'a str,
        spec: &'a str,
    },
    /// Writes a version of an archive in key order. Versions count from 1.
    Get {
        archive: &'a str,
        version: u32,
    },
    /// Writes the versions that hold the element at a path.
    History {
        archive: &'a str,
        path: &'a str,
    },
    /// Writes each content that the element or attribute at a path has had, with its versions.
    Log {
        archive: &'a str,
        path: &'a str,
    },
    /// Tells whether a file is a sound archive, and of how many versions.
    Check {
        archive: &'a str,
    },
    /// Writes how much an archive holds.
    Stats {
        archive: &'a str,
    },
    /// Writes the number of each version of an archive, and its note.
    Versions {
        archive: &'a str,
    },
    /// Writes an archive as text.
    Export {
        archive: &'a str,
    },
    /// Makes the archive of a text.
    Import {
        text: &'a str,
        new: &'a str,
    },
    /// Makes an archive of some versions of another, which are counted from 1 there.
    Cut {
        archive: &'a str,
        new: &'a str,
        first: u32,
        /// Not before the first.
        last: u32,
    },
    /// Makes an archive of the versions of one archive, and behind them those of another.
    Join {
        one: &'a str,
        two: &'a str,
        new: &'a str,
    },
    /// Makes a document of a table of comma-separated fields.
    Table {
        csv: &'a str,
        /// A name.
        tag: &'a str,
        /// From 1 to 16 names, all different, with a comma between any two.
        keys: &'a str,
        doc: &'a str,
    },
    /// Makes the specification for the document of a table.
    TableKeys {
        /// A name.
        tag: &'a str,
        /// From 1 to 16 names, all different, with a comma between any two.
        keys: &'a str,
        spec: &'a str,
    },
    /// Runs the commands that the input spells.
    Batch,
    /// Makes an archive of so many generated documents.
    Demo {
        seed: u32,
        count: u32,
        archive: &'a str,
    },
}

/// The command that the words spell, or None where they are no command. It takes no memory.
pub fn read_words(words: &[String]) -> Option<Command<'_>>
    ensures command { option_map command_view result ≡ command_of (words_view words.now) }
    ensures spelled { IfSome result (λ command. IsSpelled (command_view command)) }
{
    match words {
        [word] => one_word(word),
        [word, archive] => two_words(word, archive),
        [word, first, second] => three_words(word, first, second),
        [word, first, second, third] => four_words(word, first, second, third),
        [word, first, second, third, fourth] => five_words(word, first, second, third, fourth),
        _ => None,
    }
}

fn one_word<'a>(word: &str) -> Option<Command<'a>>
    ensures { option_map command_view result ≡ command_of_one word.now }
{
    match word {
        "batch" => Some(Command::Batch),
        _ => None,
    }
}

fn two_words<'a>(word: &str, archive: &'a str) -> Option<Command<'a>>
    ensures { option_map command_view result ≡ command_of_two word.now archive.now }
{
    match word {
        "check" => Some(Command::Check { archive }),
        "stats" => Some(Command::Stats { archive }),
        "versions" => Some(Command::Versions { archive }),
        "export" => Some(Command::Export { archive }),
        _ => None,
    }
}

#[tactic(auto, unfolding(crate::specs::Commands::command_of_three))]
fn three_words<'a>(word: &str, first: &'a str, second: &'a str) -> Option<Command<'a>>
    ensures { option_map command_view result ≡ command_of_three word.now first.now second.now }
{
    match word {
        "norm" => Some(Command::Norm {
            spec: first,
            doc: second,
        }),
        "init" => Some(Command::Init {
            archive: first,
            spec: second,
        }),
        "add" => Some(Command::Add {
            archive: first,
            doc: second,
            note: None,
        }),
        "rekey" => Some(Command::Rekey {
            archive: first,
            spec: second,
        }),
        "import" => Some(Command::Import {
            text: first,
            new: second,
        }),
        _ => question(word, first, second),
    }
}

/// What is asked of an archive.
#[tactic(auto, unfolding(crate::specs::Commands::question_of))]
fn question<'a>(word: &str, archive: &'a str, what: &'a str) -> Option<Command<'a>>
    ensures { option_map command_view result ≡ question_of word.now archive.now what.now }
{
    match word {
        "get" => version_of(archive, what),
        "history" => Some(Command::History {
            archive,
            path: what,
        }),
        "log" => Some(Command::Log {
            archive,
            path: what,
        }),
        _ => None,
    }
}

fn version_of<'a>(archive: &'a str, word: &str) -> Option<Command<'a>>
    ensures { option_map command_view result ≡ option_map (get archive.now) (number_of word.now) }
{
    let version = read_number(word)?;
    Some(Command::Get { archive, version })
}

fn four_words<'a>(
    word: &str,
    first: &'a str,
    second: &'a str,
    third: &'a str,
) -> Option<Command<'a>>
    ensures { option_map command_view result
        ≡ command_of_four word.now first.now second.now third.now }
{
    match word {
        "add" => add_noted(first, second, third),
        "demo" => demo_from(first, second, third),
        "tablekeys" => tablekeys_from(first, second, third),
        "join" => Some(Command::Join {
            one: first,
            two: second,
            new: third,
        }),
        _ => None,
    }
}

#[tactic(auto, unfolding(crate::specs::Commands::command_of_five))]
fn five_words<'a>(
    word: &str,
    first: &'a str,
    second: &'a str,
    third: &'a str,
    fourth: &'a str,
) -> Option<Command<'a>>
    ensures { option_map command_view result
        ≡ command_of_five word.now first.now second.now third.now fourth.now }
{
    match word {
        "cut" => cut_from(first, second, third, fourth),
        "table" => table_from(first, second, third, fourth),
        _ => None,
    }
}

fn add_noted<'a>(archive: &'a str, doc: &'a str, note: &'a str) -> Option<Command<'a>>
    ensures { option_map command_view result ≡ noted archive.now doc.now note.now }
{
    if is_printed(note.as_bytes()) {
        Some(Command::Add {
            archive,
            doc,
            note: Some(note),
        })
    } else {
        None
    }
}

fn demo_from<'a>(seed: &str, count: &str, archive: &'a str) -> Option<Command<'a>>
    ensures { option_map command_view result ≡ demo_of seed.now count.now archive.now }
{
    let seed = read_number(seed)?;
    let count = read_number(count)?;
    Some(Command::Demo {
        seed,
        count,
        archive,
    })
}

fn cut_from<'a>(archive: &'a str, new: &'a str, first: &str, last: &str) -> Option<Command<'a>>
    ensures { option_map command_view result ≡ cut_of archive.now new.now first.now last.now }
{
    let first = read_number(first)?;
    let last = read_number(last)?;
    if first <= last {
        Some(Command::Cut {
            archive,
            new,
            first,
            last,
        })
    } else {
        None
    }
}

fn table_from<'a>(csv: &'a str, tag: &'a str, keys: &'a str, doc: &'a str) -> Option<Command<'a>>
    ensures { option_map command_view result ≡ table_of csv.now tag.now keys.now doc.now }
{
    if is_name(tag) && are_keys(keys) {
        Some(Command::Table {
            csv,
            tag,
            keys,
            doc,
        })
    } else {
        None
    }
}

fn tablekeys_from<'a>(tag: &'a str, keys: &'a str, spec: &'a str) -> Option<Command<'a>>
    ensures { option_map command_view result ≡ tablekeys_of tag.now keys.now spec.now }
{
    if is_name(tag) && are_keys(keys) {
        Some(Command::TableKeys { tag, keys, spec })
    } else {
        None
    }
}

/// The number that a word spells as this program would print it, if it has 32 bits.
#[tactic(auto, unfolding(crate::specs::Commands::number_of))]
fn read_number(word: &str) -> Option<u32>
    ensures { result ≡ number_of word.now }
{
    let Ok(number) = word.parse::<u32>() else {
        return None;
    };
    let mut buffer = Buffer::new();
    if buffer.format(number) == word {
        Some(number)
    } else {
        None
    }
}
