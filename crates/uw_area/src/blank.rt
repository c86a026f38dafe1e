// The words of an area of zero bytes.
ghost use Rattle.std.specs.Prelude.{◌≡◌, ◌<◌, length, slice_set, IfOk};
ghost use Rattle.uw_model.specs.AreaOps.{IsAreaSize, blank_area};
ghost use Rattle.uw_area.specs.AreaWords.{AgreesWithArea};

use std::alloc::Global;
use uw_base::Memory;
use uw_model::area_words;
use uw_outside::Immortal;
use uw_words::Ram;

// The number of the layout, which stands in word 0.
const LAYOUT: u64 = 2;

// Stores a word, which no death keeps from being written.
fn put(ram: &mut Ram, at: u64, word: u64)
    requires { at < length ram.old }
    ensures { ram.new ≡ slice_set ram.old at word }
{
    let _ = ram.store(at, word, &mut Immortal::new());
}

// The words of a region whose bytes are zero, with no update counted.
pub(crate) fn blank_words(alloc: Global, size: u64) -> Result<Ram, Memory>
    requires { IsAreaSize size }
    ensures { IfOk result (λ ram. AgreesWithArea size ram (blank_area size)) }
{
    let mut ram = Ram::new(alloc, area_words(size))?;
    put(&mut ram, 0, LAYOUT);
    put(&mut ram, 1, size);
    Ok(ram)
}
