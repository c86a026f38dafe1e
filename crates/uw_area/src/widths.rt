// The widths of numbers.
ghost use Rattle.std.specs.Prelude.{◌≡◌, ◌%◌, ◌^◌};
ghost use Rattle.uw_model.specs.AreaOps.{difference_in, sum_in, width_bits, width_bytes};

use uw_model::Width;

// How many bytes a number of a width has.
pub(crate) fn bytes_of(width: Width) -> u64
    ensures { result ≡ width_bytes width }
{
    match width {
        Width::W8 => 1,
        Width::W16 => 2,
        Width::W32 => 4,
        Width::W64 => 8,
    }
}

// What is left of a number in a width.
fn left_in(width: Width, number: u64) -> u64
    ensures { result ≡ number % 2 ^ width_bits width }
{
    match width {
        Width::W8 => number % (1 << 8),
        Width::W16 => number % (1 << 16),
        Width::W32 => number % (1 << 32),
        Width::W64 => number,
    }
}

// The sum of numbers of a width, which wraps.
pub(crate) fn sum_of(width: Width, number: u64, by: u64) -> u64
    ensures { result ≡ sum_in width number by }
{
    left_in(width, number.wrapping_add(by))
}

// The difference of numbers of a width, which wraps.
pub(crate) fn difference_of(width: Width, number: u64, by: u64) -> u64
    ensures { result ≡ difference_in width number by }
{
    left_in(width, number.wrapping_sub(by))
}
