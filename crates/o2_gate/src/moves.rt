// What came to processes by a call, or went from them.
ghost use Rattle.std.specs.Prelude.{◌≡◌, ℕ, ◌<◌, ◌≤◌, ◌+◌, ◌++◌, ◌∷◌, [], length, IfOk};

use o2_base::NoMemory;
use std::alloc::Global;
use std::marker::Model;

/// So many holds, of each of so many indexes in a row, that came to a process by a call, or went from it.
#[derive(Clone, Copy, Debug, PartialEq, Eq)]
pub struct Block {
    pub process: u16,
    /// The first index.
    pub index: u16,
    /// How many indexes.
    pub count: u16,
    /// How many holds of each.
    pub holds: u32,
    /// Whether they came.
    pub came: bool,
}

/// The most blocks: one for each process.
const MOST: usize = 64;

/// All that came or went by a call, in the order of its lines, 64 blocks at most. Contracts see the list of the blocks.
#[derive(Debug, Drop)]
pub struct Moves {
    blocks: Vec<Block>,
    count: usize,
}

impl Model for Moves {
    ghost use Rattle.std.specs.Prelude.{◌≡◌, ◌≤◌, List, length, take};
    ghost use Rattle.o2_gate.specs.declared.moves.Block.{Block};

    ghost Value = { List Block };

    ghost view = { λ m. take m.count m.blocks.items };

    ghost invariant = { λ m. (length m.blocks.items ≡ 64) × (m.count ≤ 64) };
}

impl Moves {
    /// Nothing. The room for all blocks is taken here.
    pub fn new(alloc: Global) -> Result<Moves, NoMemory>
        ensures { IfOk result (λ m. m ≡ []) }
    {
        let nothing = Block {
            process: 0,
            index: 0,
            count: 0,
            holds: 0,
            came: false,
        };
        let blocks = Vec::from_elem(alloc, nothing, MOST)?;
        Ok(Moves { blocks, count: 0 })
    }

    /// Nothing came or went.
    pub fn clear(&mut self)
        ensures { self.new ≡ [] }
    {
        self.count = 0;
    }

    /// One block more, behind the others.
    pub fn add(&mut self, block: Block)
        requires { length self.old < 64 }
        ensures { self.new ≡ self.old ++ block ∷ [] }
    {
        self.blocks[self.count] = block;
        self.count += 1;
    }

    /// All blocks.
    pub fn blocks(&self) -> &[Block]
        ensures blocks { result.now ≡ self.now }
        ensures few { length self.now ≤ 64 }
    {
        &self.blocks.as_slice()[..self.count]
    }
}
