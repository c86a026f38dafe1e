// Where the parts of a cache's region stand.
ghost use Rattle.std.specs.Prelude.{◌≡◌, ◌+◌, ◌<◌, ◌≤◌, ◌↔◌, IsNone, IfSome};
ghost use Rattle.uw_words.specs.Shapes.{IsShape, item_head};
ghost use Rattle.uw_words.specs.Walks.{link_of, IsLink};

/// How many fixed words an item has: the bytes of its key stand behind them.
pub const ITEM_HEAD: u64 = 8;

/// The places of a cache's region, by word numbers from 0, and the sizes by which its parts are reckoned.
#[derive(Clone, Copy, Debug, PartialEq, Eq)]
pub struct Shape {
    /// The first word of the header.
    pub head: u64,
    /// The first word of the bitmap of blocks.
    pub bitmap: u64,
    /// The first word of the chains.
    pub chains: u64,
    /// The first word of the items.
    pub items: u64,
    /// The words of one item.
    pub stride: u64,
    /// The first word of the blocks.
    pub blocks: u64,
    /// The first word of the redo record.
    pub intent: u64,
    /// The words of the redo record.
    pub room: u64,
    /// How many items there are.
    pub n_items: u64,
    /// How many blocks there are.
    pub n_blocks: u64,
    /// How many chains there are.
    pub n_chains: u64,
    /// The words of one key.
    pub key_words: u64,
    /// The words of one block.
    pub block_words: u64,
}

impl Shape {
    /// The link of an item: the place of its first word. Takes no memory.
    pub fn link_of(&self, item: u64) -> u64
        requires shape { IsShape self.now }
        requires item { item < self.now.n_items }
        ensures link { result ≡ link_of self.now item }
        ensures within { result + item_head ≤ self.now.blocks }
    {
        self.items + item * self.stride
    }

    /// The item of a link, none for the link 0. Takes no memory.
    pub fn item_of(&self, link: u64) -> Option<u64>
        requires shape { IsShape self.now }
        requires link { IsLink self.now link }
        ensures none { IsNone result ↔ (link ≡ 0) }
        ensures item { IfSome result (λ item. (item < self.now.n_items) × (link ≡ link_of self.now item)) }
    {
        if link == 0 {
            return None;
        }
        Some((link - self.items) / self.stride)
    }
}
