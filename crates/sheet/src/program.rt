// The program of a sheet.
ghost use Rattle.std.specs.Prelude.{length};
ghost use Rattle.laws.specs.code.Told.{Told};
ghost use Rattle.wire.specs.Optional.{optional};
ghost use Rattle.wire.specs.code.Views.{read_as, Past};
ghost use Rattle.sheet.specs.Fields.{position};
ghost use Rattle.sheet.specs.Program.{program};

use super::fields::{Span, read_position, read_span};
use wire::{Cursor, ReadResult};

#[derive(Clone, Copy)]
pub struct Program {
    pub script: bool,
    pub span: Span,
    pub shebang: bool,
    // Where the first item starts, if there is one.
    pub first: Option<usize>,
}

#[tactic(auto, unfolding(wire::specs::Optional::optional))]
fn read_first_item<'a>(source: &[u8], s: &'a [u8]) -> ReadResult<'a, Option<usize>>
    ensures { Told read_as (optional (position source.now) s.now) (Past (length s.now)) result }
{
    let (has_item, next) = s.flag()?;
    if has_item {
        let (p, next) = read_position(source, next)?;
        Ok((Some(p), next))
    } else {
        Ok((None, next))
    }
}

#[tactic(auto, unfolding(crate::specs::Program::program))]
pub fn read_program<'a>(source: &[u8], s: &'a [u8]) -> ReadResult<'a, Program>
    ensures { Told read_as (program source.now s.now) (Past (length s.now)) result }
{
    let (script, next) = s.flag()?;
    let (span, next) = read_span(source, next)?;
    let (shebang, next) = next.flag()?;
    let (first, next) = read_first_item(source, next)?;
    let program = Program {
        script,
        span,
        shebang,
        first,
    };
    Ok((program, next))
}
