// The shared areas of a configuration.
ghost use Rattle.std.specs.Prelude.{◌≡◌, Some, IfSome};
ghost use Rattle.uw_model.specs.AreaOps.{IsAreaSize};
ghost use Rattle.uw_conf.specs.AreaLines.{size_of_area, size_of_pages, size_under, with_area, with_area_size};
ghost use Rattle.uw_conf.specs.ReadingSteps.{Makes};
ghost use Rattle.uw_conf.specs.Sound.{ArePartsOfSite};

use crate::ConfKind;
use crate::refusal::Refusal;
use crate::sizes::{MOST_REGION_BYTES, area_bytes, region_bytes};
use crate::values::number_in;
use uw_base::NumberList;
use uw_base::texts::{cut, is};
use uw_model::{CacheConf, area_words};

const MOST_AREAS: usize = 16;

const PAGE_BYTES: u64 = 4_096;

const MOST_PAGES: u64 = 4_096;

const MOST_AREA_BYTES: u64 = 16_777_216;

// The bytes of so many pages.
fn size_of_pages(text: &[u8]) -> Option<u64>
    ensures size { result ≡ size_of_pages text.now }
    ensures within { IfSome result IsAreaSize }
{
    match number_in(1, MOST_PAGES, text) {
        Some(pages) => Some(pages * PAGE_BYTES),
        None => None,
    }
}

// The size of an area in bytes, under its key.
fn size_under(key: &[u8], text: &[u8]) -> Option<u64>
    ensures size { result ≡ size_under key.now text.now }
    ensures within { IfSome result IsAreaSize }
{
    if is(key, b"pages") {
        return size_of_pages(text);
    }
    if is(key, b"size") {
        return number_in(1, MOST_AREA_BYTES, text);
    }
    None
}

// The size of an area in bytes: so many pages, or `pages=`, or `size=` for bytes.
fn size_of_area(text: &[u8]) -> Option<u64>
    ensures size { result ≡ size_of_area text.now }
    ensures within { IfSome result IsAreaSize }
{
    let (key, value) = cut(text, b'=');
    match value {
        Some(value) => size_under(key, value),
        None => size_of_pages(text),
    }
}

// An area of so many bytes behind the earlier ones, beside the caches so far.
fn add_area(caches: &[CacheConf], areas: &mut NumberList, size: u64) -> Result<(), Refusal>
    requires parts { ArePartsOfSite caches.now areas.old }
    requires size { IsAreaSize size }
    ensures { Makes areas.old areas.new result (with_area_size caches.now areas.old (Some size)) }
{
    let own = area_bytes(areas.as_slice()) + 8 * area_words(size);
    let bytes = region_bytes(caches) + own;
    if MOST_REGION_BYTES < bytes {
        return Err(Refusal::Refused(ConfKind::TooLarge {
            bytes,
            limit: MOST_REGION_BYTES,
        }));
    }
    areas.push(size)?;
    Ok(())
}

/// Puts the area of a line behind the others, or says why the line is refused and changes nothing. The 17th area is a
/// bad value. All regions together, those of the caches so far among them, have their limit.
pub fn add_area_line(
    caches: &[CacheConf],
    areas: &mut NumberList,
    text: &[u8],
) -> Result<(), Refusal>
    requires { ArePartsOfSite caches.now areas.old }
    ensures { Makes areas.old areas.new result (with_area caches.now areas.old text.now) }
{
    if MOST_AREAS <= areas.as_slice().len() {
        return Err(Refusal::Refused(ConfKind::BadValue));
    }
    let Some(size) = size_of_area(text) else {
        return Err(Refusal::Refused(ConfKind::BadValue));
    };
    add_area(caches, areas, size)
}
