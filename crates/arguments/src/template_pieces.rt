// The pieces of a template, as they stand in the sheet.
ghost use Rattle.std.specs.Prelude.{◌≤◌};
ghost use Rattle.wire.specs.Number.{largest};

// So many holes, and the bytes that begin with the pieces, one more.
#[derive(Clone, Copy)]
pub struct TemplatePieces<'a> {
    pub holes: usize,
    pub bytes: &'a [u8],
    ghost in_range: { holes ≤ largest },
}
