// Turns for depositors: a desk in a block of numbers that the caller lends. specs/Block.antt says what each number is.
// The block stays plain numbers: it is the C interface.
#![tactic(auto)]

ghost use Rattle.std.specs.Prelude.{◌≡◌, [], ◌*◌, ◌≤◌, ◌<◌, get_or, MatchOption};
ghost use Rattle.laws.specs.code.Told.{Bounded, Leaving};
ghost use Rattle.desk.specs.Desk.{hand_in, turn, queue, first_waiting, with_sheet, without_front};
ghost use Rattle.desk.specs.Fair.{Fair};
ghost use Rattle.desk.specs.Block.{count_in, desk_as, HandedIn, Turned, handed_in_as, turned_as, Stands, Does, handed_in_number, turned_number};

use std::marker::Model;

// The depositors are 0 to 15.
const DEPOSITORS: u32 = 16;

// So many sheets of a depositor can wait, in a ring.
const PLACES: u32 = 8;

// A depositor has so many numbers: the ring, and the next two.
const ROW: usize = 10;

// The place of the front sheet in the ring.
const FRONT: usize = 8;

// How many sheets wait.
const COUNT: usize = 9;

// The depositor at whom the next turn looks first.
const NEXT: usize = 160;

// The numbers of a desk.
pub const NUMBERS: usize = 161;

// Why a hand-in is refused, with document 01's number.
#[derive(Clone, Copy, Debug, PartialEq, Eq, Hash)]
pub enum Refused {
    // The depositor is over 15.
    NoDepositor = 14,
    // Eight sheets of the depositor wait.
    EightWaiting = 15,
}

// What a hand-in is answered.
pub type HandedIn = Result<(), Refused>;

// Whom a turn served, and the sheet that was.
#[derive(Clone, Copy, Debug, PartialEq, Eq, Hash)]
pub struct Served {
    pub depositor: u32,
    pub sheet: u32,
}

// What a turn is answered: none where it is idle.
pub type Turned = Option<Served>;

// A depositor's number, below 16.
#[derive(Clone, Copy)]
struct Depositor {
    number: u32,
}

impl Model for Depositor {
    ghost use Rattle.std.specs.Prelude.{ℕ, ◌<◌};

    ghost Value = { ℕ };

    ghost view = { λ d. d.number };

    ghost invariant = { λ d. d.number < 16 };

    ghost inverse = { λ n. record { number = n } };
}

impl Depositor {
    // The depositor of a number, if there is one.
    fn new(number: u32) -> Option<Depositor>
        ensures { MatchOption result (16 ≤ number) (λ d. (d ≡ number) × (d < 16)) }
    {
        if number < DEPOSITORS {
            return Some(Depositor { number });
        }
        None
    }

    fn number(self) -> u32
        ensures { Bounded (result ≡ self) (result < 16) }
    {
        self.number
    }

    // Where the depositor's numbers begin.
    fn row(self) -> usize
        ensures { Bounded (result ≡ 10 * self) (self < 16) }
    {
        ROW * self.number as usize
    }
}

// How many sheets of a depositor wait.
fn waiting(block: &[u32; NUMBERS], depositor: Depositor) -> u32
    ensures { result ≡ count_in block.now depositor }
{
    block[depositor.row() + COUNT].min(PLACES)
}

// Puts a sheet behind those of a depositor that wait.
fn append(block: &mut [u32; NUMBERS], depositor: Depositor, sheet: u32)
    requires { count_in block.old depositor < 8 }
    ensures { desk_as block.new ≡ with_sheet (desk_as block.old) depositor sheet }
{
    let row = depositor.row();
    let count = waiting(block, depositor);
    let place = (block[row + FRONT] % PLACES + count) % PLACES;
    block[row + place as usize] = sheet;
    block[row + COUNT] = count + 1;
}

// The first depositor, from the next one on, who has a sheet waiting.
fn first_waiting(block: &[u32; NUMBERS]) -> Option<Depositor>
    ensures { result ≡ first_waiting (desk_as block.now) 0 16 }
{
    let next = block[NEXT] % DEPOSITORS;
    for passed in 0..DEPOSITORS {
        let depositor = Depositor {
            number: (next + passed) % DEPOSITORS,
        };
        if 0 < waiting(block, depositor) {
            return Some(depositor);
        }
    }
    None
}

// Takes the front sheet of a depositor, and goes on to the depositor after that one.
fn serve(block: &mut [u32; NUMBERS], depositor: Depositor) -> u32
    requires { 0 < count_in block.old depositor }
    ensures { Leaving (result ≡ get_or (queue (desk_as block.old) depositor) 0 0)
        (desk_as block.new ≡ without_front (desk_as block.old) depositor) }
{
    let row = depositor.row();
    let count = waiting(block, depositor);
    let front = block[row + FRONT] % PLACES;
    let sheet = block[row + front as usize];
    block[row + FRONT] = (front + 1) % PLACES;
    block[row + COUNT] = count - 1;
    block[NEXT] = (depositor.number() + 1) % DEPOSITORS;
    sheet
}

// A fresh desk: nobody waits.
pub fn fresh(block: &mut [u32; NUMBERS])
    ensures { Stands [] block.new × Fair }
{
    *block = [0; NUMBERS];
}

// A depositor hands in a sheet.
pub fn hand_in(block: &mut [u32; NUMBERS], depositor: u32, sheet: u32) -> HandedIn
    ensures { Does (hand_in depositor sheet) block.old (handed_in_as depositor sheet result) block.new }
{
    let Some(known) = Depositor::new(depositor) else {
        return Err(Refused::NoDepositor);
    };
    if waiting(block, known) == PLACES {
        return Err(Refused::EightWaiting);
    }
    append(block, known, sheet);
    Ok(())
}

// A turn: the next depositor who has a sheet waiting is served.
pub fn turn(block: &mut [u32; NUMBERS]) -> Turned
    ensures { Does turn block.old (turned_as result) block.new }
{
    let first = first_waiting(block)?;
    let sheet = serve(block, first);
    Some(Served {
        depositor: first.number(),
        sheet,
    })
}

// The answer to a hand-in in one number, the C interface.
fn pack_hand_in(answer: HandedIn) -> u32
    ensures { result ≡ handed_in_number answer }
{
    match answer {
        Ok(()) => 0,
        Err(refused) => refused as u32,
    }
}

// The answer to a turn in one number, the C interface.
fn pack_turn(answer: Turned) -> u64
    ensures { result ≡ turned_number answer }
{
    match answer {
        None => 4294967296 * 16,
        Some(served) => 4294967296 * u64::from(served.depositor) + u64::from(served.sheet),
    }
}

// The three functions for C.
pub fn desk_fresh(block: &mut [u32; NUMBERS])
    ensures { Stands [] block.new × Fair }
{
    fresh(block);
}

pub fn desk_hand_in(block: &mut [u32; NUMBERS], depositor: u32, sheet: u32) -> u32
    ensures { (a : HandedIn) × Does (hand_in depositor sheet) block.old (handed_in_as depositor sheet a) block.new
        × (result ≡ handed_in_number a) }
{
    pack_hand_in(hand_in(block, depositor, sheet))
}

pub fn desk_turn(block: &mut [u32; NUMBERS]) -> u64
    ensures { (a : Turned) × Does turn block.old (turned_as a) block.new × (result ≡ turned_number a) }
{
    pack_turn(turn(block))
}
