//! What a cache and a shared area are: their entries and bytes, calls and operations as definitions, and the plain forms
//! that answer by them. And the desk, through which a request asks the caches and the areas of a site.
#![tactic(auto)]

pub mod area_laws;
mod area_layout;
pub mod areas;
mod ask_list;
pub mod asks;
mod cache_list;
pub mod calls;
pub mod conf;
pub mod desk;
pub mod entries;
mod keys;
pub mod laws;
mod layout;
mod list_area;
mod list_cache;
mod list_desk;
mod numbers;
pub mod own_desk;
mod placement;
mod sizes;
mod steps;

pub use area_layout::{area_plan_room, area_words, byte_words};
pub use areas::{AreaAnswer, AreaBytes, AreaOp, Width};
pub use ask_list::AskList;
pub use asks::{Ask, AskAnswer, Asked, SpoolAnswer};
pub use cache_list::CacheConfList;
pub use calls::{Answer, Call, MathOp};
pub use conf::CacheConf;
pub use desk::{Desk, DeskFault, make_ask};
pub use entries::Entry;
pub use layout::{
    FIXED_ITEM_WORDS, HEAD_WORDS, Layout, block_words, item_words, key_words, layout_of, plan_room,
    words_of,
};
pub use list_area::ListArea;
pub use list_cache::ListCache;
pub use list_desk::ListDesk;
pub use numbers::{dies_of_number, is_zero_division, result_of};
pub use own_desk::OwnDesk;
pub use placement::is_alive_until;
pub use sizes::{dies_at, is_bad_key, is_too_long, span_of};
