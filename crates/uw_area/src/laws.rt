//! Laws of the region of a shared area. Each is the contract of a function that does nothing.
ghost use Rattle.std.specs.Prelude.{◌≡◌, ℕ, List};
ghost use Rattle.uw_model.specs.AreaOps.{AreaState};
ghost use Rattle.uw_intent.specs.Standing.{IsLocal};
ghost use Rattle.uw_area.specs.AreaWords.{AgreesWithArea};
ghost use Rattle.uw_area.specs.AreaKind.{area_kind};

/// The words of a region agree with one area at most.
pub fn words_agree_with_one_area()
    ensures { (size : ℕ) (words : List ℕ) (area other : AreaState) → AgreesWithArea size words area
        → AgreesWithArea size words other → area ≡ other }
{}

/// Whether the words of a region agree with an area depends on its length, its gate and the words beyond the redo record.
pub fn an_area_depends_on_words_beyond_its_record()
    ensures { (size : ℕ) → IsLocal (area_kind size) }
{}
