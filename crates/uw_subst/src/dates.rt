// The date of a moment.
ghost use Rattle.std.specs.Prelude.{◌≡◌, ◌+◌, [], MatchOption};
ghost use Rattle.httpdate.specs.Date.{date_text};
ghost use Rattle.uw_subst.specs.Dates.{date_at};

use httpdate::HttpDate;

/// The HTTP date so many seconds after a moment; none from the year 10000 on.
pub fn date_after(moment: u64, seconds: u64) -> Option<HttpDate>
    ensures { MatchOption result (date_at (moment + seconds) ≡ []) (λ date. date_at (moment + seconds) ≡ date_text date) }
{
    HttpDate::from_unix_secs(moment.checked_add(seconds)?).ok()
}
