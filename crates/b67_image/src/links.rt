//! Links of sectors at the front of bytes.

ghost use Rattle.std.specs.Prelude.{◌≡◌, [], ◌∷◌, ◌++◌, OnOk, OnErr};
ghost use Rattle.std.specs.Int.{w32};
ghost use Rattle.b67_image.specs.Giving.{GivesItem, read_number, read_many};

use crate::flaw::Flaw;
use crate::numbers::read_four;
use std::alloc::{AllocError, Global};
use std::marker::Model;

/// A list of links.
#[derive(Drop)]
pub struct Links {
    items: Vec<u32>,
}

impl Model for Links {
    ghost use Rattle.std.specs.Prelude.{List, ℕ};

    ghost Value = { List ℕ };

    ghost view = { λ l. l.items.items };
}

impl Links {
    /// No links.
    fn new(alloc: Global) -> Self
        ensures { result ≡ [] }
    {
        Links {
            items: Vec::new(alloc),
        }
    }

    /// Appends a link. If memory is wanting nothing changes.
    fn push(&mut self, x: u32) -> Result<(), AllocError>
        ensures ok { OnOk result (self.new ≡ self.old ++ x ∷ []) }
        ensures err { OnErr result (self.new ≡ self.old) }
    {
        self.items.push(x)?;
        Ok(())
    }

    /// The links.
    pub fn as_slice(&self) -> &[u32]
        ensures { result.now ≡ self.now }
    {
        self.items.as_slice()
    }
}

/// So many links, and what lies behind.
pub fn many_links(alloc: Global, count: u32, bytes: &[u8]) -> Result<(Links, &[u8]), Flaw>
    ensures { GivesItem (λ x. (x.0, x.1.now)) result (read_many (read_number w32) count bytes.now) }
{
    let mut links = Links::new(alloc);
    let mut rest = bytes;
    'each: for _ in 0..count {
        let (link, after) = read_four(rest)?;
        links.push(link)?;
        rest = after;
    }
    Ok((links, rest))
}
