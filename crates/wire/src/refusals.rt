// Document 01's refusals, each with its number.
ghost use Rattle.std.specs.Prelude.{◌≡◌};
ghost use Rattle.wire.specs.Refusals.{number_of};

#[derive(Clone, Copy, Debug, PartialEq, Eq, Hash)]
pub enum Refusal {
    // The sheet has more than 65,536 bytes.
    SheetLength = 1,
    // A field is cut off, or a number is not shortest or too large.
    CutOff = 2,
    // A byte or flag is outside its stated values, or a node has a tag its place doesn't allow.
    Byte = 3,
    // A count, length or depth is over its limit.
    Limit = 4,
    // A text is not well-formed UTF-8, or WTF-8 where that is named.
    Text = 5,
    // A position is past the source or inside a character, or an end precedes its start.
    Position = 6,
    // A comment or a group of comments is not as document 01 asks.
    Comments = 7,
    // Bytes follow the root node.
    Trailing = 8,
    // The first argument of a walked import or `require` is a template with an uncooked piece.
    Uncooked = 9,
    // The report is longer than the buffer. No reader refuses so.
    Buffer = 10,
    // A delivery is cut off, too long, has trailing bytes, a count outside 1 to 64, or a number or name text that a sheet could not have.
    Delivery = 11,
    // A name occurs twice in a delivery.
    NameTwice = 12,
    // A String's span has fewer than two bytes, or does not begin and end with the same mark, `"` or `'`.
    Quotation = 13,
    // The rules are longer than the second buffer.
    Rules = 16,
}

impl Refusal {
    // Its number.
    pub fn number(self) -> u8
        ensures { result ≡ number_of self }
    {
        self as u8
    }
}
