// The words of the region of a shared area.
ghost use Rattle.std.specs.Prelude.{◌≡◌, ◌≤◌};
ghost use Rattle.uw_model.specs.AreaLayout.{area_plan_room, area_words, byte_words};
ghost use Rattle.uw_model.specs.AreaOps.{IsAreaSize};

use crate::layout::HEAD_WORDS;

/// The most words of a value that one write puts into an area, and of what stands beside it.
const MOST_WRITTEN_WORDS: u64 = 8_194;

/// The words of an area's bytes.
pub fn byte_words(size: u64) -> u64
    requires { IsAreaSize size }
    ensures words { result ≡ byte_words size }
    ensures few { result ≤ 2097152 }
{
    size.div_ceil(8)
}

/// How many words an operation on an area may plan.
pub fn area_plan_room(size: u64) -> u64
    requires { IsAreaSize size }
    ensures words { result ≡ area_plan_room size }
    ensures few { result ≤ 8202 }
{
    8 + byte_words(size).min(MOST_WRITTEN_WORDS)
}

/// The words of the region of an area of so many bytes.
pub fn area_words(size: u64) -> u64
    requires { IsAreaSize size }
    ensures words { result ≡ area_words size }
    ensures few { result ≤ 4194304 }
{
    HEAD_WORDS + byte_words(size) + 3 * area_plan_room(size)
}
