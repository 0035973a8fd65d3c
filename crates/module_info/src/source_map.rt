// The source map by ECMA-426: the second question that a sheet can be asked.
ghost use Rattle.std.specs.Prelude.{◌≡◌, ◌+◌, ◌<◌, ◌^◌, length};
ghost use Rattle.laws.specs.code.Told.{Bounded};
ghost use Rattle.pragmas.specs.SourceMap.{standard_map};
ghost use Rattle.pragmas.specs.code.Captured.{CaptureIn};
ghost use Rattle.pragmas.specs.code.Views.{captured_as};
ghost use Rattle.module_info.specs.code.Views.{accepted_as};
ghost use Rattle.module_info.specs.code.Located.{place_from};
ghost use Rattle.module_info.specs.SourceMap.{given, MapOutcome, map_of, map_as, TextInside, SourceMapRight, map_number, map_places};

use super::judge::{Accepted, judge};
use pragmas::readings::{Rule, find_last};
use pragmas::taken::Taken;
use sheet::tables::Tables;
use text::position::Position;
use wire::refusals::Refusal;

// From which byte of the sheet to which the specifier stands, and its positions in the source.
#[derive(Clone, Copy)]
pub struct SourceMap {
    pub from: usize,
    pub to: usize,
    pub start: Position,
    pub end: Position,
}

// What is answered: the source map, if there is one, or a refusal.
pub type MapOutcome = Result<Option<SourceMap>, Refusal>;

// Where a reading of the source stands in the sheet, whose source begins at `base`.
#[tactic(auto, using(sheet::proofs::Bodies::placed_body))]
fn locate(base: usize, taken: &Taken) -> SourceMap
    requires { base + length (captured_as taken.now).source < 2 ^ 64 }
    ensures { Bounded
        (result ≡ place_from base (captured_as taken.now))
        (CaptureIn (captured_as taken.now).source (captured_as taken.now).comment (captured_as taken.now).capture) }
{
    let found = taken.capture();
    let body = base + taken.comment().body_span().start;
    let (start, end) = taken.positions();
    SourceMap {
        from: body + found.from,
        to: body + found.to,
        start,
        end,
    }
}

// The source map of an accepted sheet.
fn read_source_map(accepted: &Accepted) -> Option<SourceMap>
    ensures { Bounded
        (map_of (accepted_as accepted.now).bytes result ≡ standard_map (accepted_as accepted.now).sheet)
        (TextInside (accepted_as accepted.now).bytes result) }
{
    let end = accepted.end_comments();
    let taken = find_last(&end, Rule::StandardSourceMap)?;
    Some(locate(accepted.parts().front.source_start, &taken))
}

// The source map of a sheet by ECMA-426, or the first refusal that it meets; of no bytes none.
pub fn source_map(sheet: &[u8]) -> MapOutcome
    ensures { SourceMapRight sheet.now result }
{
    let mut tables = Tables::new();
    let Some(accepted) = judge(sheet, &mut tables)? else {
        return Ok(None);
    };
    Ok(read_source_map(&accepted))
}

// The places of an answer, for C.
fn places_of(answer: MapOutcome) -> [u64; 6]
    ensures { result ≡ map_places answer }
{
    match answer {
        Ok(Some(map)) => [
            map.from as u64,
            map.to as u64,
            map.start.line as u64,
            map.start.column as u64,
            map.end.line as u64,
            map.end.column as u64,
        ],
        Ok(None) | Err(_) => [0; 6],
    }
}

// Its number: a refusal's, 256 where there is a source map, or 0.
fn pack_source_map(answer: MapOutcome) -> u64
    ensures { result ≡ map_number answer }
{
    match answer {
        Ok(Some(_)) => 256,
        Ok(None) => 0,
        Err(refusal) => u64::from(refusal.number()),
    }
}

// The question for C: the number, and six places: from and to in the sheet, line, column, line, column; zeros where nothing is found.
pub fn module_info_source_map(sheet: &[u8], places: &mut [u64; 6]) -> u64
    ensures { (answer : MapOutcome) × SourceMapRight sheet.now answer × (result ≡ map_number answer)
        × (places.new ≡ map_places answer) }
{
    let answer = source_map(sheet);
    *places = places_of(answer);
    pack_source_map(answer)
}
