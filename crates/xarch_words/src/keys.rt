// The names of key columns in a word.
ghost use Rattle.std.specs.Prelude.{◌≡◌, ◌≤◌, map};
ghost use Rattle.csv_tables.specs.Records.{has_field};
ghost use Rattle.xarch_words.specs.Commands.{are_keys};

use key_spec::is_name;

/// The most key columns.
const MOST: usize = 16;

/// Whether a word is from 1 to 16 names, all different, with a comma between any two. It takes no
/// memory.
#[tactic(auto, unfolding(crate::specs::Commands::are_keys))]
pub(crate) fn are_keys(word: &str) -> bool
    ensures { result ≡ are_keys word.now }
{
    let mut names = [""; MOST];
    let mut count = 0;
    for name in word.split(',') {
        if count == MOST {
            return false;
        }
        if !is_name(name) {
            return false;
        }
        if is_among(&names[..count], name) {
            return false;
        }
        names[count] = name;
        count += 1;
    }
    true
}

/// Whether one of the texts is this.
fn is_among(texts: &[&str], text: &str) -> bool
    ensures { result ≡ has_field (map (λ t. t.now) texts.now) text.now }
{
    for other in texts {
        if text == *other {
            return true;
        }
    }
    false
}
