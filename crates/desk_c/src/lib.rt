// The desk's three functions for C.
#![tactic(auto)]

ghost use Rattle.std.specs.Prelude.{◌≡◌, []};
ghost use Rattle.desk.specs.Desk.{hand_in, turn};
ghost use Rattle.desk.specs.Fair.{Fair};
ghost use Rattle.desk.specs.Block.{HandedIn, Turned, handed_in_as, turned_as, Stands, Does, handed_in_number, turned_number};

use desk::NUMBERS;

#[unsafe(no_mangle)]
pub extern "C" fn desk_fresh(block: &mut [u32; NUMBERS])
    ensures { Stands [] block.new × Fair }
{
    desk::desk_fresh(block);
}

#[unsafe(no_mangle)]
pub extern "C" fn desk_hand_in(block: &mut [u32; NUMBERS], depositor: u32, sheet: u32) -> u32
    ensures { (a : HandedIn) × Does (hand_in depositor sheet) block.old (handed_in_as depositor sheet a) block.new
        × (result ≡ handed_in_number a) }
{
    desk::desk_hand_in(block, depositor, sheet)
}

#[unsafe(no_mangle)]
pub extern "C" fn desk_turn(block: &mut [u32; NUMBERS]) -> u64
    ensures { (a : Turned) × Does turn block.old (turned_as a) block.new × (result ≡ turned_number a) }
{
    desk::desk_turn(block)
}
