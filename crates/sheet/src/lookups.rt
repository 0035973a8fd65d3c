// The groups and the comments that the readings ask for.
ghost use Rattle.std.specs.Prelude.{◌≡◌, ◌≤◌, length};
ghost use Rattle.sheet.specs.code.Tables.{groups_in};
ghost use Rattle.sheet.specs.Fit.{Ascending};
ghost use Rattle.sheet.specs.Lookups.{group_at, end_group, head_group, HoldsMarks, body_span, body};

use super::comments::{Comment, marks};
use super::fields::Span;
use super::groups::{Group, GroupRow};
use super::names::Side;
use super::program::Program;
use std::marker::Model;

// The groups of comments, in order.
#[derive(Drop)]
pub struct Groups<'a> {
    rows: &'a [GroupRow],
}

impl<'a> Model for Groups<'a> {
    ghost use Rattle.std.specs.Prelude.{List};
    ghost use Rattle.sheet.specs.declared.groups.Group.{Group};

    ghost Value = { List Group };

    ghost use Rattle.sheet.specs.code.Tables.{groups_in};

    ghost view = { λ g. groups_in g.rows.now };

    ghost use Rattle.sheet.specs.Fit.{Ascending};

    ghost invariant = { λ g. Ascending (groups_in g.rows.now) };
}

impl<'a> Groups<'a> {
    pub fn new(rows: &'a [GroupRow]) -> Groups<'a>
        requires { Ascending (groups_in rows.now) }
        ensures { result ≡ groups_in rows.now }
    {
        Groups { rows }
    }

    // The group of a side at a position.
    pub fn find_group(&self, side: Side, position: usize) -> Option<Group>
        ensures { result ≡ group_at self.now side position }
    {
        let place = |row: &GroupRow| (row.side, row.position as usize);
        let rows = self.rows;
        let at = rows.binary_search_by_key(&(side, position), place).ok()?;
        Some(Group::from(rows[at]))
    }

    // The trailing group at the program's end.
    pub fn end_group(&self, program: Program) -> Option<Group>
        ensures { result ≡ end_group program self.now }
    {
        self.find_group(Side::Trailing, program.span.end)
    }

    // The head group.
    #[tactic(auto, unfolding(crate::specs::Lookups::head_group))]
    pub fn head_group(&self, program: Program) -> Option<Group>
        ensures { result ≡ head_group program self.now }
    {
        match program.first {
            Some(item) => self.find_group(Side::Leading, item),
            None if program.shebang => self.end_group(program),
            None => self.find_group(Side::Leading, program.span.start),
        }
    }
}

// Where the body of a comment stands: its span without the marks.
#[tactic(auto, unfolding(crate::specs::Lookups::body_span))]
pub fn body_span(c: Comment) -> Span
    requires { HoldsMarks c }
    ensures { result ≡ body_span c }
{
    let (front, back) = marks(c.kind);
    let start = c.span.start + front.len();
    let end = c.span.end - back.len();
    Span { start, end }
}

#[tactic(auto, unfolding(crate::specs::Lookups::body_span))]
pub fn body(source: &[u8], c: Comment) -> &[u8]
    requires holds_marks { HoldsMarks c }
    requires end_in_bounds { c.span.end ≤ length source.now }
    ensures { result.now ≡ body source.now c }
{
    let span = body_span(c);
    &source[span.start..span.end]
}
