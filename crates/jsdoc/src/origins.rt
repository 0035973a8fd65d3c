// The first place of a body that reads each quote, by notes over the body.
ghost use Rattle.std.specs.Prelude.{◌≡◌, ◌≤◌, length};
ghost use Rattle.jsdoc.specs.Origins.{openers};

use super::marks::mark_readings;

// Notes at each place of `body` at which the quote of a reading begins 1 + the first place that reads it, and
// at each other 0.
pub fn note_origins(body: &[u8], origins: &mut [u16])
    requires body_len_bound { length body.now ≤ 65535 }
    requires origins_len { length origins.old ≡ length body.now }
    ensures { origins.new ≡ openers body.now }
{
    origins.fill(0);
    mark_readings(
        body,
        origins,
        &|noted, base, _| { if noted == 0 { base as u16 + 1 } else { noted } },
    );
}
