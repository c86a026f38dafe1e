// Where the parts of a cache's region stand.
ghost use Rattle.std.specs.Prelude.{◌≡◌};
ghost use Rattle.uw_model.specs.Entries.{IsCacheConf};
ghost use Rattle.uw_model.specs.Layout.{words_of};
ghost use Rattle.uw_words.specs.Shapes.{IsShape, shape_words};
ghost use Rattle.uw_plan.specs.Regions.{frame_of, shape_of};

use uw_intent::Frame;
use uw_model::{CacheConf, block_words, item_words, key_words, layout_of, plan_room};
use uw_words::Shape;

/// The shape of a cache's region, of as many words as `words_of` says.
pub fn shape_of(conf: &CacheConf) -> Shape
    requires { IsCacheConf conf.now }
    ensures parts { result ≡ shape_of conf.now }
    ensures shape { IsShape result }
    ensures words { shape_words result ≡ words_of conf.now }
{
    let layout = layout_of(conf);
    Shape {
        head: 0,
        bitmap: layout.bitmap,
        chains: layout.chains,
        items: layout.items,
        stride: item_words(conf),
        blocks: layout.blocks,
        intent: layout.intent,
        room: 3 * plan_room(conf),
        n_items: conf.items,
        n_blocks: conf.blocks,
        n_chains: conf.chains,
        key_words: key_words(conf),
        block_words: block_words(conf),
    }
}

/// Where the redo record of a region stands.
pub fn frame_of(shape: &Shape) -> Frame
    ensures { result ≡ frame_of shape.now }
{
    Frame {
        gate: 10,
        used: 11,
        start: shape.intent,
        room: shape.room,
    }
}
