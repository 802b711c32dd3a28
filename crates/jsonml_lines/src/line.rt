use keyed_tree::KeyVal;

/// A line: a word and the cells behind it.
#[derive(Drop)]
pub struct Line {
    pub word: String,
    pub cells: Vec<KeyVal>,
}
