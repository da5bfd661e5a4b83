// The reads of a folder.
ghost use Rattle.std.specs.Prelude.{◌≡◌, ◌≤◌, ◌∷◌, ◌++◌, false, [], OnOk};
ghost use Rattle.mon_run.specs.Outside.{asking, given_by};

use crate::outside::folder::Asked;
use http_server::Log;
use mon_value::{RoomListOf, Text};
use std::alloc::{AllocError, Global};

/// The reads that a folder was asked for, in order, and what they gave. Only proofs read the latter, so it takes no
/// memory.
#[derive(Drop)]
pub(crate) struct Reads {
    pub asked: RoomListOf<Asked>,
    pub gave: Log<Text, Vec<u8>>,
}

impl Reads {
    /// No reads.
    pub fn new(alloc: Global) -> Reads
        ensures asked { result.asked.items ≡ [] }
        ensures gave { result.gave.items ≡ [] }
    {
        Reads {
            asked: RoomListOf::new(alloc),
            gave: Log::new(),
        }
    }

    /// Makes room for one more.
    pub fn reserve_one(&mut self) -> Result<(), AllocError>
        ensures room { OnOk result (1 ≤ self.new.asked.spare) }
        ensures asked { self.new.asked.items ≡ self.old.asked.items }
        ensures gave { self.new.gave.items ≡ self.old.gave.items }
    {
        self.asked.reserve_one()
    }

    /// Adds a read of a file, which gave this.
    pub fn gave(&mut self, name: Text, content: &Vec<u8>)
        requires room { 1 ≤ self.old.asked.spare }
        ensures asked { self.new.asked.items ≡ self.old.asked.items ++ asking name false ∷ [] }
        ensures gave { given_by self.new.gave.items
            ≡ given_by self.old.gave.items ++ (name, content.now.items) ∷ [] }
    {
        let gave = self.gave.and(&name, content);
        self.gave = gave;
        self.asked.push(Asked {
            name,
            failed: false,
        });
    }

    /// Adds a read that gave nothing.
    pub fn gave_nothing(&mut self, name: Text, failed: bool)
        requires room { 1 ≤ self.old.asked.spare }
        ensures asked { self.new.asked.items ≡ self.old.asked.items ++ asking name failed ∷ [] }
        ensures gave { self.new.gave.items ≡ self.old.gave.items }
    {
        self.asked.push(Asked { name, failed });
    }
}
