// The scan sum of a comment's body: how many bytes a search from each `{` goes over, all in all.
#![tactic(auto)]

ghost use Rattle.std.specs.Prelude.{◌≡◌, ◌≤◌, ◌<◌, length, drop};
ghost use Rattle.scan.specs.Scan.{scan_length, scan_sum, scanned, longest};
ghost use Rattle.scan.specs.Answers.{Counted, packed};

// The longest body, in bytes.
pub const LONGEST: usize = 32764;

// How far a scan goes over what is left of a body; `behind` is how far it goes from the next byte on.
#[tactic(auto, using(crate::proofs::Steps::lengths))]
fn length_of(rest: &[u8], behind: u64) -> u64
    requires { (0 < length rest.now) × (behind ≡ scan_length (drop 1 rest.now)) }
    ensures { result ≡ scan_length rest.now }
{
    match rest {
        [b'}', ..] | [b'i', b'm', b'p', b'o', b'r', b't', ..] => 0,
        _ => behind + 1,
    }
}

// The scan sum, in one pass from the right: `ahead` is how far a scan goes over the last `counted` bytes.
#[tactic(auto, using(crate::proofs::Bounds::sums))]
fn sum_of(body: &[u8]) -> u64
    requires { length body.now ≤ longest }
    ensures { result ≡ scan_sum body.now }
{
    let mut sum: u64 = 0;
    let mut ahead: u64 = 0;
    for counted in 0..body.len() {
        let i = body.len() - counted - 1;
        if body[i] == b'{' {
            sum += ahead;
        }
        ahead = length_of(&body[i..], ahead);
    }
    sum
}

// The scan sum of a body, or nothing for one that is too long or not star-opened.
#[tactic(auto, using(crate::proofs::Answered::counted, crate::proofs::Answered::too_long, crate::proofs::Answered::not_opened, text::proofs::Words::begins_is))]
pub fn scan_sum(body: &[u8]) -> Option<u64>
    ensures { Counted body.now result }
{
    if body.len() <= LONGEST && body.starts_with(b"*") {
        Some(sum_of(body))
    } else {
        None
    }
}

// The same as one number, the C interface: 0 for nothing, else the sum and 1.
#[tactic(auto, using(crate::proofs::Answered::answered_small))]
pub fn scan_sum_answer(body: &[u8]) -> u64
    ensures { result ≡ packed (scanned body.now) }
{
    scan_sum(body).map_or(0, |sum| sum + 1)
}
