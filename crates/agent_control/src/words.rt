ghost use Rattle.std.specs.Prelude.{◌≡◌, ◌<◌, IsTrue, length, map, string_bytes};
ghost use Rattle.serde_json.specs.View.{items_view, view};
ghost use Rattle.agent_control.specs.Answer.{GivesOrRequestFault};
ghost use Rattle.agent_control.specs.Requests.{is_command, is_command_with};
ghost use Rattle.agent_control.specs.Words.{or_not_words, texts_of, word_at, words_in_tree, words_of};

use crate::fault::RequestFault;
use crate::tree::tree;
use serde_json::Value;
use std::alloc::Global;
use std::marker::Model;

/// The words of a line, which contracts see as lists of bytes.
#[derive(Drop)]
pub(crate) struct Words {
    words: Vec<String>,
}

impl Model for Words {
    ghost use Rattle.std.specs.Prelude.{List, ℕ, map, string_bytes};

    ghost Value = { List (List ℕ) };

    ghost view = { λ w. map string_bytes w.words.items };
}

impl Words {
    /// The words of a line.
    #[tactic(auto, unfolding(crate::specs::Words::words_of))]
    pub(crate) fn read(alloc: Global, line: &[u8]) -> Result<Words, RequestFault>
        ensures { GivesOrRequestFault (λ words. words) result (words_of line.now) }
    {
        let tree = tree(alloc, line)?;
        Words::of(alloc, &tree)
    }

    // The words of a tree.
    #[tactic(auto, unfolding(crate::specs::Words::words_in_tree))]
    fn of(alloc: Global, tree: &Value) -> Result<Words, RequestFault>
        ensures { GivesOrRequestFault (λ words. words) result (or_not_words (words_in_tree (view tree.now))) }
    {
        let Value::Array(items) = tree else {
            return Err(RequestFault::NotWords);
        };
        let words = texts(alloc, items)?;
        if words.is_empty() {
            return Err(RequestFault::NotWords);
        }
        Ok(Words { words })
    }

    /// Whether there are so many, the first of which is this one.
    #[tactic(auto, unfolding(crate::specs::Requests::is_command))]
    pub(crate) fn are(&self, command: &str, count: usize) -> bool
        requires { 0 < count }
        ensures value { result ≡ is_command command.now count self.now }
        ensures count { IsTrue result → length self.now ≡ count }
    {
        self.words.len() == count && self.at(0) == command
    }

    /// Whether they are these two.
    #[tactic(auto, unfolding(crate::specs::Requests::is_command_with))]
    pub(crate) fn are_two(&self, command: &str, more: &str) -> bool
        ensures { result ≡ is_command_with command.now more.now self.now }
    {
        self.are(command, 2) && self.at(1) == more
    }

    /// The word at an index.
    pub(crate) fn at(&self, index: usize) -> &str
        requires { index < length self.now }
        ensures { result.now ≡ word_at self.now index }
    {
        self.words[index].as_str()
    }
}

// The texts that items are.
fn texts(alloc: Global, items: &[Value]) -> Result<Vec<String>, RequestFault>
    ensures { GivesOrRequestFault (λ words. map string_bytes words.items) result (or_not_words (texts_of (items_view items.now))) }
{
    let mut words = Vec::new(alloc);
    for item in items {
        let Value::String(text) = item else {
            return Err(RequestFault::NotWords);
        };
        words.push(text.clone()?)?;
    }
    Ok(words)
}
