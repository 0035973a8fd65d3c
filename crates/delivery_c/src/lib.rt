// The order function for C.
#![tactic(auto)]

ghost use Rattle.std.specs.Prelude.{◌≡◌, length};
ghost use Rattle.delivery.specs.Promise.{LoadOrder, OrderPromised, packed};

// The answer in one number.
#[unsafe(no_mangle)]
pub extern "C" fn delivery_order(delivery: &[u8], work: &mut [u8]) -> u64
    ensures { (o : LoadOrder) × OrderPromised delivery.now (length work.old) o work.new × (result ≡ packed o) }
{
    delivery::delivery_order(delivery, work)
}
