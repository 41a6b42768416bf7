//! The words of the command line.
ghost use Rattle.std.specs.Prelude.{◌≡◌, ◌↔◌, IsTrue};
ghost use Rattle.mz_shell.specs.Runs.{script_words};

use mz_value::Text;
use std::marker::Model;

/// The words behind the program's name, in order.
#[derive(Drop)]
pub struct Words {
    words: Vec<Text>,
}

impl Model for Words {
    ghost use Rattle.std.specs.Prelude.{List, ℕ};

    ghost Value = { List (List ℕ) };

    ghost view = { λ w. w.words.items };
}

impl Words {
    /// These words. Takes no memory.
    pub fn from_vec(words: Vec<Text>) -> Words
        ensures { result ≡ words.items }
    {
        Words { words }
    }

    /// Whether they are the one word `script`. Takes no memory.
    pub fn ask_for_script(&self) -> bool
        ensures { IsTrue result ↔ (self.now ≡ script_words) }
    {
        match self.words.as_slice() {
            [word] => word.as_str() == "script",
            _ => false,
        }
    }
}
