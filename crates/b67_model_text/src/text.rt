//! Short texts of ASCII, seen by contracts as the lists of their bytes.

ghost use Rattle.std.specs.Prelude.{◌≡◌, ◌≤◌, IsTrue, length};
ghost use Rattle.std.specs.List.{list_all};
ghost use Rattle.std.specs.Char.{is_ascii};

use arrayvec::ArrayString;
use std::marker::Model;

/// The text of a card, at most 80 characters.
#[derive(Drop)]
pub struct Text {
    characters: ArrayString<80>,
}

impl Model for Text {
    ghost use Rattle.std.specs.Prelude.{List, ℕ};

    ghost Value = { List ℕ };

    ghost view = { λ t. t.characters.bytes };
}

impl Text {
    /// The text of these characters.
    pub fn new(bytes: &[u8]) -> Self
        requires short { length bytes.now ≤ 80 }
        requires ascii { IsTrue (list_all is_ascii bytes.now) }
        ensures { result ≡ bytes.now }
    {
        let mut characters = ArrayString::new();
        for byte in bytes {
            let _ = characters.try_push(char::from(*byte));
        }
        Text { characters }
    }

    /// The characters.
    pub fn as_str(&self) -> &str
        ensures { result.now ≡ self.now }
    {
        self.characters.as_str()
    }
}

/// The name of a job, at most 16 characters.
#[derive(Drop)]
pub struct Name {
    characters: ArrayString<16>,
}

impl Model for Name {
    ghost use Rattle.std.specs.Prelude.{List, ℕ};

    ghost Value = { List ℕ };

    ghost view = { λ n. n.characters.bytes };
}

impl Name {
    /// The name of these characters.
    pub fn new(bytes: &[u8]) -> Self
        requires short { length bytes.now ≤ 16 }
        requires ascii { IsTrue (list_all is_ascii bytes.now) }
        ensures { result ≡ bytes.now }
    {
        let mut characters = ArrayString::new();
        for byte in bytes {
            let _ = characters.try_push(char::from(*byte));
        }
        Name { characters }
    }

    /// The characters.
    pub fn as_str(&self) -> &str
        ensures { result.now ≡ self.now }
    {
        self.characters.as_str()
    }
}
