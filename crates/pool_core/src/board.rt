//! The leaves that a commit is made on.
ghost use Rattle.std.specs.Prelude.{◌≡◌, ◌<◌, ◌∷◌, ◌++◌, [], length};

use label_store::Member;
use mp_base::Guid;
use std::marker::Model;

/// The most leaves of a top.
pub(crate) const MOST: usize = 32;

/// The members of a commit in tree order, at most 32. It holds no memory.
#[derive(Drop)]
pub(crate) struct Board {
    members: [Member; MOST],
    len: usize,
}

impl Model for Board {
    ghost use Rattle.std.specs.Prelude.{◌≡◌, ◌≤◌, List, length, take};
    ghost use Rattle.label_store.specs.declared.member.Member.{Member};

    ghost Value = { List Member };

    ghost view = { λ board. take board.len board.members };

    ghost invariant = { λ board. (board.len ≤ 32) × (length board.members ≡ 32) };
}

impl Board {
    pub(crate) fn new() -> Board
        ensures { result ≡ [] }
    {
        let nobody = Member {
            dev: 0,
            guid: Guid(0),
        };
        Board {
            members: [nobody; MOST],
            len: 0,
        }
    }

    pub(crate) fn push(&mut self, member: Member)
        requires { length self.old < 32 }
        ensures { self.new ≡ self.old ++ member ∷ [] }
    {
        self.members[self.len] = member;
        self.len += 1;
    }

    pub(crate) fn as_slice(&self) -> &[Member]
        ensures { result.now ≡ self.now }
    {
        &self.members[..self.len]
    }
}
