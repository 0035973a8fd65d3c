// The scan sum for C.
#![tactic(auto)]

ghost use Rattle.std.specs.Prelude.{◌≡◌};
ghost use Rattle.scan.specs.Scan.{scanned};
ghost use Rattle.scan.specs.Answers.{packed};

// One number: 0 for nothing, else the sum and 1.
#[unsafe(no_mangle)]
pub extern "C" fn scan_sum_answer(body: &[u8]) -> u64
    ensures { result ≡ packed (scanned body.now) }
{
    scan::scan_sum_answer(body)
}
