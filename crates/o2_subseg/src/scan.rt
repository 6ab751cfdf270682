// One walk along the chain of free blocks, which tells whether the heap is good and where a search ends.
ghost use Rattle.std.specs.Prelude.{◌≡◌, ◌+◌, ◌/◌, ◌≤◌, length, option_map, IfSome, if◌then◌else◌, Some, None};
ghost use Rattle.o2_world.specs.Heaps.{heap_of, chain_from, is_header, word as word_at};
ghost use Rattle.o2_subseg.specs.Spots.{passes as passes_by, at_first, link_of, spot_in, spot_of, link_at, IsSpot};

use crate::block::Block;
use crate::bytes::word;

/// The number that a heap begins with.
pub(crate) const MARK: u16 = 0x4253;
/// Where the offset of the first free block stands.
pub(crate) const FIRST_LINK: u16 = 4;
/// Where the first block may begin.
pub(crate) const FIRST_OFFSET: u16 = 8;
/// The least size of a heap.
pub(crate) const LEAST_SIZE: u16 = 12;

/// Which block ends a search.
#[derive(Clone, Copy)]
pub(crate) enum Seek {
    /// The first one that has so many bytes or more.
    Length(u32),
    /// The first one at an offset or behind it.
    Offset(u16),
}

/// Where a search in a good heap ended.
#[derive(Clone, Copy)]
pub(crate) struct Spot {
    /// The heap's size.
    pub size: u16,
    /// The block before the one that ended the search, or the last one.
    pub before: Option<Block>,
    /// The block that ended the search.
    pub found: Option<Block>,
}

/// What the word says that links to a block.
#[derive(Clone, Copy)]
pub(crate) enum Link {
    /// There is no further block.
    End,
    /// What it links to is no block behind those before.
    Bad,
    /// The next block.
    To(Block),
}

impl Seek {
    // Whether a block ends the search.
    fn passes(self, block: Block) -> bool
        ensures { result ≡ passes_by self block }
    {
        match self {
            Seek::Length(length) => length <= u32::from(block.length),
            Seek::Offset(offset) => offset <= block.offset,
        }
    }
}

impl Spot {
    /// Where the offset of the block stands that ended the search.
    pub fn link(self) -> u16
        ensures { result ≡ link_of self.before }
    {
        match self.before {
            Some(block) => block.offset,
            None => FIRST_LINK,
        }
    }
}

// What the word at a place says of the next block, which begins at `low` or behind it.
fn link_to(bytes: &[u8], size: u16, low: u32, link: u16) -> Link
    requires inside { link + 2 ≤ size }
    requires within { size ≤ length bytes.now }
    ensures { result ≡ link_at bytes.now size low link }
{
    let offset = word(bytes, link as usize);
    if offset == 0 {
        return Link::End;
    }
    if offset % 4 != 0 || u32::from(offset) < low || u32::from(offset) + 4 > u32::from(size) {
        return Link::Bad;
    }
    let block = Block {
        offset,
        length: word(bytes, offset as usize + 2),
    };
    if block.length % 4 != 0 || block.length < 4 || block.end() > u32::from(size) {
        return Link::Bad;
    }
    Link::To(block)
}

// The size of a heap whose words at 0, 2 and 6 are good.
fn heap_size(bytes: &[u8]) -> Option<u16>
    ensures is { result ≡ (if is_header bytes.now then Some (word_at bytes.now 2) else None) }
    ensures low { IfSome result (λ s. 12 ≤ s) }
    ensures within { IfSome result (λ s. s ≤ length bytes.now) }
{
    if bytes.len() < LEAST_SIZE as usize || word(bytes, 0) != MARK || word(bytes, 6) != 0 {
        return None;
    }
    let size = word(bytes, 2);
    if size % 4 != 0 || size < LEAST_SIZE || size as usize > bytes.len() {
        return None;
    }
    Some(size)
}

// A search that ended at a block; None where the chain behind isn't good, or has this count of blocks or more.
fn end_at(bytes: &[u8], count: u16, spot: Spot, block: Block) -> Option<Spot>
    requires inside { block.offset + 2 ≤ spot.size }
    requires within { spot.size ≤ length bytes.now }
    ensures { result ≡ option_map (λ bs. spot) (chain_from count bytes.now spot.size (block.offset + block.length + 1) block.offset) }
{
    let mut link = block.offset;
    let mut low = block.end() + 1;
    for _passed in 0..count {
        match link_to(bytes, spot.size, low, link) {
            Link::End => return Some(spot),
            Link::Bad => return None,
            Link::To(next) => {
                link = next.offset;
                low = next.end() + 1;
            }
        }
    }
    None
}

// Where a search along the chain ends; None where a block isn't good.
fn walk(bytes: &[u8], size: u16, seek: Seek) -> Option<Spot>
    requires low { 12 ≤ size }
    requires within { size ≤ length bytes.now }
    ensures { result ≡ option_map (λ bs. spot_in seek (at_first size) bs) (chain_from (size / 4) bytes.now size 8 4) }
{
    let mut before: Option<Block> = None;
    let mut link = FIRST_LINK;
    let mut low = u32::from(FIRST_OFFSET);
    for passed in 0..size / 4 {
        match link_to(bytes, size, low, link) {
            Link::End => {
                return Some(Spot {
                    size,
                    before,
                    found: None,
                });
            }
            Link::Bad => return None,
            Link::To(block) => {
                if seek.passes(block) {
                    let spot = Spot {
                        size,
                        before,
                        found: Some(block),
                    };
                    return end_at(bytes, size / 4 - passed - 1, spot, block);
                }
                before = Some(block);
                link = block.offset;
                low = block.end() + 1;
            }
        }
    }
    None
}

/// Where a search ends in the good heap that the bytes have; None where they have none.
pub(crate) fn scan(bytes: &[u8], seek: Seek) -> Option<Spot>
    ensures exact { result ≡ option_map (spot_of seek) (heap_of bytes.now) }
    ensures whole { IfSome result IsSpot }
    ensures within { IfSome result (λ s. s.size ≤ length bytes.now) }
{
    match heap_size(bytes) {
        Some(size) => walk(bytes, size, seek),
        None => None,
    }
}
