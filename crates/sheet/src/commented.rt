// The comments of a source, in their groups, and the index of its positions.
ghost use Rattle.std.specs.Prelude.{◌≡◌, [], ◌≤◌, ◌<◌, length, map};
ghost use Rattle.laws.specs.Codec.{IfThere};
ghost use Rattle.laws.specs.code.Told.{Bounded};
ghost use Rattle.text.specs.Position.{characters, position_of};
ghost use Rattle.text.specs.code.Index.{positions_in};
ghost use Rattle.sheet.specs.Lookups.{group_at, end_group, head_group, in_group, body, body_span};
ghost use Rattle.sheet.specs.Fit.{Placed, Fit, Reaching, comment_of};
ghost use Rattle.sheet.specs.code.Tables.{comments_in};
ghost use Rattle.sheet.specs.code.Commented.{placed_in};
ghost use Rattle.sheet.specs.code.Lent.{Lends, GroupOf, commented_by};

use super::comments::{Comment, CommentRow};
use super::fields::Span;
use super::groups::{Group, GroupRow};
use super::lookups::{Groups, body, body_span};
use super::names::Side;
use super::program::Program;
use std::marker::Model;
use text::position::{Position, PositionRow, indexed_position, later_position};

// The rows of the comments of a group; none if there is no such group.
fn rows_of(rows: &[CommentRow], found: Option<Group>) -> &[CommentRow]
    requires { IfThere (Reaching (length rows.now)) found }
    ensures { comments_in result.now ≡ in_group (comments_in rows.now) found }
{
    match found {
        Some(g) => &rows[g.first..g.first + g.count],
        None => &[],
    }
}

// A comment of a source.
#[derive(Drop)]
pub struct PlacedComment<'a> {
    comments: &'a Comments<'a>,
    comment: Comment,
}

impl<'a> Model for PlacedComment<'a> {
    ghost use Rattle.sheet.specs.code.Commented.{CommentIn};

    ghost Value = { CommentIn };

    ghost view = { λ c. record { source = c.comments.now.source; comment = c.comment } };

    ghost use Rattle.sheet.specs.Fit.{Placed};

    ghost invariant = { λ c. Placed c.comments.now.source c.comment };
}

impl<'a> PlacedComment<'a> {
    pub fn new(comments: &'a Comments<'a>, comment: Comment) -> PlacedComment<'a>
        requires { Placed comments.now.source comment }
        ensures { result ≡ record { source = comments.now.source; comment = comment } }
    {
        PlacedComment { comments, comment }
    }

    // Those of its source.
    pub fn comments(&self) -> &'a Comments<'a>
        ensures { result.now.source ≡ self.now.source }
    {
        self.comments
    }

    pub fn comment(&self) -> Comment
        ensures { Bounded (result ≡ self.now.comment) (Placed self.now.source result) }
    {
        self.comment
    }

    // The text of its body.
    #[tactic(auto, using(crate::proofs::Marks::holds_marks_lem))]
    pub fn body(&self) -> &'a [u8]
        ensures { result.now ≡ body self.now.source self.now.comment }
    {
        let comments = self.comments;
        body(comments.source(), self.comment)
    }

    // Where its body stands.
    #[tactic(auto, using(crate::proofs::Marks::holds_marks_lem), unfolding(crate::specs::Lookups::body_span))]
    pub fn body_span(&self) -> Span
        ensures { Bounded
            (result ≡ body_span self.now.comment)
            ((result.start ≤ result.end) × (result.end ≤ length self.now.source)) }
    {
        body_span(self.comment)
    }
}

// The comments of a source that are left, in order.
#[derive(Drop)]
pub struct PlacedComments<'a> {
    comments: &'a Comments<'a>,
    rows: &'a [CommentRow],
}

impl<'a> Model for PlacedComments<'a> {
    ghost use Rattle.std.specs.Prelude.{List, All, map};
    ghost use Rattle.sheet.specs.code.Commented.{CommentIn, placed_in};

    ghost Value = { List CommentIn };

    ghost use Rattle.sheet.specs.code.Tables.{comments_in};

    ghost view = { λ it. map (placed_in it.comments.now.source) (comments_in it.rows.now) };

    ghost use Rattle.sheet.specs.Fit.{Placed};

    ghost invariant = { λ it. All (Placed it.comments.now.source) (comments_in it.rows.now) };
}

impl<'a> Iterator for PlacedComments<'a> {
    ghost use Rattle.std.specs.Iterator.{YieldsFirst, item_count};

    type Item = PlacedComment<'a>;

    ghost next_gives = { YieldsFirst (λ rest. rest) };

    ghost remaining = { item_count (λ rest. rest) };

    fn next(&mut self) -> Option<PlacedComment<'a>> {
        let (row, rest) = self.rows.split_first()?;
        self.rows = rest;
        Some(PlacedComment::new(self.comments, Comment::from(*row)))
    }
}

impl<'a> DoubleEndedIterator for PlacedComments<'a> {
    ghost use Rattle.std.specs.Iterator.{YieldsLast};

    ghost next_back_gives = { YieldsLast (λ rest. rest) };

    fn next_back(&mut self) -> Option<PlacedComment<'a>> {
        let (row, rest) = self.rows.split_last()?;
        self.rows = rest;
        Some(PlacedComment::new(self.comments, Comment::from(*row)))
    }
}

// A source, its comments and their groups in tables, and the index of its positions.
#[derive(Drop)]
pub struct Comments<'a> {
    source: &'a [u8],
    rows: &'a [CommentRow],
    groups: Groups<'a>,
    index: &'a [PositionRow],
}

impl<'a> Model for Comments<'a> {
    ghost use Rattle.sheet.specs.code.Commented.{Commented};

    ghost Value = { Commented };

    ghost use Rattle.sheet.specs.code.Lent.{grouped_by, Lends};

    ghost view = { λ c. grouped_by c.source.now c.rows.now c.groups };

    ghost use Rattle.text.specs.code.Index.{positions_in};

    ghost invariant = { λ c. Lends (grouped_by c.source.now c.rows.now c.groups) (positions_in c.index.now) };
}

impl<'a> Comments<'a> {
    pub fn new(
        source: &'a [u8],
        rows: &'a [CommentRow],
        groups: &'a [GroupRow],
        index: &'a [PositionRow],
    ) -> Comments<'a>
        requires { Lends (commented_by source.now rows.now groups.now) (positions_in index.now) }
        ensures { result ≡ commented_by source.now rows.now groups.now }
    {
        Comments {
            source,
            rows,
            groups: Groups::new(groups),
            index,
        }
    }

    pub fn source(&self) -> &'a [u8]
        ensures value { result.now ≡ self.now.source }
        ensures fit { Fit result.now self.now.comments }
    {
        self.source
    }

    pub fn len(&self) -> usize
        ensures { result ≡ length self.now.comments }
    {
        self.rows.len()
    }

    // The comments, each with the source.
    pub fn iter(&self) -> PlacedComments
        ensures { result ≡ map (placed_in self.now.source) self.now.comments }
    {
        PlacedComments {
            comments: self,
            rows: self.rows,
        }
    }

    // The kth comment.
    pub fn at(&self, k: usize) -> PlacedComment
        requires { k < length self.now.comments }
        ensures { result ≡ record { source = self.now.source; comment = comment_of self.now.comments k } }
    {
        let rows = self.rows;
        PlacedComment::new(self, Comment::from(rows[k]))
    }

    // The group of a side at a position.
    pub fn group_at(&self, side: Side, position: usize) -> Option<Group>
        ensures { Bounded (result ≡ group_at self.now.groups side position) (GroupOf self.now result) }
    {
        self.groups.find_group(side, position)
    }

    // The trailing group at the program's end.
    pub fn end_group(&self, program: Program) -> Option<Group>
        ensures { Bounded (result ≡ end_group program self.now.groups) (GroupOf self.now result) }
    {
        self.groups.end_group(program)
    }

    // The head group.
    pub fn head_group(&self, program: Program) -> Option<Group>
        ensures { Bounded (result ≡ head_group program self.now.groups) (GroupOf self.now result) }
    {
        self.groups.head_group(program)
    }

    // The comments of a group, in no groups; none if there is no such group.
    #[tactic(auto, using(crate::proofs::GroupFit::group_lends))]
    pub fn of(&self, found: Option<Group>) -> Comments<'a>
        requires { GroupOf self.now found }
        ensures { result ≡ record { source = self.now.source; comments = in_group self.now.comments found; groups = [] } }
    {
        Comments {
            source: self.source,
            rows: rows_of(self.rows, found),
            groups: Groups::new(&[]),
            index: self.index,
        }
    }

    // The positions at a span's start and at its end.
    #[tactic(auto, using(text::proofs::Positions::indexed))]
    pub fn positions(&self, span: Span) -> (Position, Position)
        requires { (span.start ≤ length self.now.source) × (span.end ≤ length self.now.source) }
        ensures { (result.0 ≡ position_of characters self.now.source span.start)
            × (result.1 ≡ position_of characters self.now.source span.end) }
    {
        let start = indexed_position(self.source, self.index, span.start);
        let end = later_position(self.source, self.index, start, span.start, span.end);
        (start, end)
    }
}
