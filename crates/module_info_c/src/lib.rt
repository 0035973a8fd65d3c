// The report function and the two questions beside it, for C.
#![tactic(auto)]

ghost use Rattle.std.specs.Prelude.{◌≡◌, length};
ghost use Rattle.report.specs.Answer.{Outcome, outcome_as};
ghost use Rattle.module_info.specs.Information.{packed};
ghost use Rattle.module_info.specs.Replaced.{NotesRight};
ghost use Rattle.module_info.specs.SourceMap.{MapOutcome, SourceMapRight, map_number, map_places};
ghost use Rattle.module_info.specs.Demands.{Demands};

// The report function: number + 256 × length, and the buffer filled.
#[unsafe(no_mangle)]
pub extern "C" fn module_info_answer(sheet: &[u8], buffer: &mut [u8]) -> u64
    ensures { (o : Outcome) × Demands sheet.now (length buffer.old) o buffer.new
        × (result ≡ packed (outcome_as o buffer.new)) }
{
    module_info::module_info_answer(sheet, buffer)
}

// The same with the notes.
#[unsafe(no_mangle)]
pub extern "C" fn module_info_with_replaced_answer(
    sheet: &[u8],
    buffer: &mut [u8],
    notes: &mut [usize],
) -> u64
    ensures { (o : Outcome) × Demands sheet.now (length buffer.old) o buffer.new
        × NotesRight sheet.now (length notes.old) (outcome_as o buffer.new).number notes.new
        × (result ≡ packed (outcome_as o buffer.new)) }
{
    module_info::module_info_with_replaced_answer(sheet, buffer, notes)
}

// The source map: the number, and six places: from and to in the sheet, line, column, line, column; zeros where nothing is found.
#[unsafe(no_mangle)]
pub extern "C" fn module_info_source_map(sheet: &[u8], places: &mut [u64; 6]) -> u64
    ensures { (answer : MapOutcome) × SourceMapRight sheet.now answer × (result ≡ map_number answer)
        × (places.new ≡ map_places answer) }
{
    module_info::source_map::module_info_source_map(sheet, places)
}
