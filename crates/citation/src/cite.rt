// The citation of a report, read from its front and written line by line.
ghost use Rattle.std.specs.Prelude.{◌≡◌, List, ℕ, ◌+◌, ◌*◌, ◌≤◌, length, get_or, take, drop};
ghost use mathlib.Core.List.{[], ◌∷◌, flat_map};
ghost use Rattle.laws.specs.code.Left.{Free};
ghost use Rattle.laws.specs.Codec.{IfThere, All};
ghost use Rattle.wire.specs.Number.{largest};
ghost use Rattle.wire.specs.Optional.{encode_optional};
ghost use Rattle.report.specs.ModuleInfo.{DependencyDescriptor, TypeScriptReference, JsDocImportInfo, ModuleInfo};
ghost use Rattle.report.specs.Encode.{encode_list, encode_range, encode_specifier, encode_reference, encode_jsdoc, encode_dependency, encode};
ghost use Rattle.report.specs.Valid.{Short, ValidRange, ValidSpecifier, ValidReference, ValidJsDoc, ValidDependency, Valid};
ghost use Rattle.report.specs.Buffer.{Keeps};
ghost use Rattle.citation.specs.Citation.{cite_specifier, cite_optional, cite_argument, cite_reference, cite_jsdoc, cite_dependency};
ghost use Rattle.citation.specs.Citation.{Line, dependency_letter, cite_noted, cite_each};
ghost use Rattle.citation.specs.Citation.{lines, citation, refusal};
ghost use Rattle.citation.specs.code.Cites.{Cites};
ghost use Rattle.citation.specs.code.Ranged.{encode_ranged, ValidRanged};

use super::columns::last_four;
use super::lines::{put_line, put_title};
use report::names::{ArgumentKind, DependencyKind, ReferenceKind};
use report::writer::Writer;
use report_reader::fields::{
    Specifier, TemplatePart, read_flag, read_number, read_range, read_text, skip_attributes,
    skip_list_in, skip_optional_in,
};

// What a report is cited over: its source, and the numbers beside its dependencies. Other items have none.
#[derive(Clone, Copy)]
struct Citing<'a> {
    source: &'a [u8],
    numbers: &'a [usize],
}

// How many lines were written, and the bytes of the report behind what was read of it. The methods of `Citing` that always write one line answer the
// bytes alone.
type Cited<'a> = (usize, &'a [u8]);

// The letter of a dependency, by how many characters were replaced in its text.
fn dependency_letter(number: usize) -> u8
    ensures { result ≡ dependency_letter number }
{
    if number == 0 { b'D' } else { b'd' }
}

// The number beside an item, the second of its two or 0, and the numbers behind them.
fn next_number(numbers: &[usize]) -> (usize, &[usize])
    ensures { (result.0 ≡ get_or numbers.now 1 0) × (result.1.now ≡ drop 2 numbers.now) }
{
    match numbers {
        [_, number, behind @ ..] => (*number, behind),
        _ => (0, &[]),
    }
}

impl Citing<'_> {
    // Cites a text that is given, with the range that is read.
    fn cite_range<'a>(&self, report: &'a [u8], letter: u8, text: &[u8], w: &mut Writer) -> &'a [u8]
        ensures answer { Cites encode_range ValidRange report.now self.now.source.now
            (λ range. record { letter = letter; range = range; text = text.now } ∷ []) w.old w.new (1, result) }
        ensures left { Keeps w.old w.new }
    {
        let (range, next) = read_range(report);
        put_line(self.source, letter, range, text, w);
        next
    }

    // Cites a text and its range.
    #[tactic(auto, unfolding(report::specs::Encode::encode_specifier))]
    fn cite_specifier<'a>(&self, report: &'a [u8], letter: u8, w: &mut Writer) -> &'a [u8]
        ensures answer { Cites encode_specifier ValidSpecifier report.now self.now.source.now
            (cite_specifier letter) w.old w.new (1, result) }
        ensures left { Keeps w.old w.new }
    {
        let (text, next) = read_text(report);
        self.cite_range(next, letter, text, w)
    }

    // Cites a text and its range, if they are there.
    #[tactic(auto, using(report::proofs::Buffers::keeps_same))]
    fn cite_optional<'a>(&self, report: &'a [u8], letter: u8, w: &mut Writer) -> Cited<'a>
        ensures answer { Cites (encode_optional encode_specifier) (IfThere ValidSpecifier) report.now
            self.now.source.now (cite_optional letter) w.old w.new result }
        ensures bounds { result.0 ≤ 1 }
        ensures left { Keeps w.old w.new }
    {
        let (flag, next) = read_flag(report);
        if !flag {
            return (0, next);
        }
        (1, self.cite_specifier(next, letter, w))
    }

    // Cites a dynamic argument with its range, and `?` where it has no single text.
    fn cite_argument<'a>(&self, report: &'a [u8], letter: u8, w: &mut Writer) -> &'a [u8]
        ensures answer { Cites encode_ranged ValidRanged report.now self.now.source.now
            (λ a. cite_argument letter a.0 a.1) w.old w.new (1, result) }
        ensures left { Keeps w.old w.new }
    {
        let (kind, next) = read_number(report);
        match ArgumentKind::from(kind) {
            ArgumentKind::Expr => self.cite_range(next, letter, b"?", w),
            ArgumentKind::String => self.cite_specifier(next, letter, w),
            ArgumentKind::Template => {
                self.cite_range(skip_list_in::<TemplatePart>(next), letter, b"?", w)
            }
        }
    }

    // Cites so many items of a list, each with the number beside it.
    fn cite_items<'a, I: Item>(&self, report: &'a [u8], count: usize, w: &mut Writer) -> Cited<'a>
        requires { count ≤ largest }
        ensures answer { Cites (flat_map I.encode) (λ l. (length l ≡ count) × All I.Valid l) report.now
            self.now.source.now (cite_each I.cited self.now.numbers.now) w.old w.new result }
        ensures bounds { result.0 ≤ 2 * count }
        ensures left { Keeps w.old w.new }
    {
        let mut lines = 0;
        let mut next = report;
        let mut numbers = self.numbers;
        for _ in 0..count {
            let (number, others) = next_number(numbers);
            let (item, behind) = I::cite(self, next, number, w);
            lines += item;
            next = behind;
            numbers = others;
        }
        (lines, next)
    }

    // Cites a list.
    #[tactic(auto, unfolding(report::specs::Encode::encode_list))]
    fn cite_list<'a, I: Item>(&self, report: &'a [u8], w: &mut Writer) -> Cited<'a>
        ensures answer { Cites (encode_list I.encode) (λ l. Short l × All I.Valid l) report.now
            self.now.source.now (cite_each I.cited self.now.numbers.now) w.old w.new result }
        ensures bounds { result.0 ≤ 2 * largest }
        ensures left { Keeps w.old w.new }
    {
        let (count, next) = read_number(report);
        self.cite_items::<I>(next, count, w)
    }

    // Cites what is in a report: D or d and T, R, S, X, Y, J, M.
    #[tactic(auto, using(report::proofs::Buffers::keeps_then))]
    fn cite_lines<'a>(&self, report: &'a [u8], w: &mut Writer) -> Cited<'a>
        ensures answer { Cites encode Valid report.now self.now.source.now
            (lines self.now.numbers.now) w.old w.new result }
        ensures left { Keeps w.old w.new }
    {
        let (_, next) = read_flag(report);
        let (d, next) = self.cite_list::<Dependency>(next, w);
        let (r, next) = self.cite_list::<Reference>(next, w);
        let (s, next) = self.cite_optional(next, b'S', w);
        let (x, next) = self.cite_optional(next, b'X', w);
        let (y, next) = self.cite_optional(next, b'Y', w);
        let (j, next) = self.cite_list::<JsDoc>(next, w);
        let (m, next) = self.cite_optional(next, b'M', w);
        (d + r + s + x + y + j + m, next)
    }
}

// An item of the report's lists, and its lines with the number beside it.
trait Item {
    ghost Value: { Type 0 };

    ghost encode: { Value → List ℕ };

    ghost Valid: { Value → Type 0 };

    ghost cited: { ℕ → Value → List Line };

    fn cite<'a>(citing: &Citing, report: &'a [u8], number: usize, w: &mut Writer) -> Cited<'a>
        ensures answer { Cites encode Valid report.now citing.now.source.now (cited number) w.old w.new result }
        ensures bounds { result.0 ≤ 2 }
        ensures left { Keeps w.old w.new };
}

// A dependency, and T for its types, which stand before it in the report and are read again.
struct Dependency;

impl Item for Dependency {
    ghost Value = { DependencyDescriptor };

    ghost encode = { encode_dependency };

    ghost Valid = { ValidDependency };

    ghost cited = { cite_noted };

    #[tactic(auto, using(report::proofs::Buffers::keeps_then))]
    fn cite<'a>(citing: &Citing, report: &'a [u8], number: usize, w: &mut Writer) -> Cited<'a> {
        let letter = dependency_letter(number);
        let (kind, types) = read_number(report);
        let next = skip_optional_in::<Specifier>(types);
        match DependencyKind::from(kind) {
            DependencyKind::Static(_) => {
                let next = citing.cite_specifier(next, letter, w);
                let (more, _) = citing.cite_optional(types, b'T', w);
                let (_, next) = read_flag(next);
                (1 + more, skip_attributes(next))
            }
            DependencyKind::Dynamic(_) => {
                let next = citing.cite_argument(next, letter, w);
                let (more, _) = citing.cite_optional(types, b'T', w);
                (1 + more, skip_attributes(next))
            }
        }
    }
}

// A reference: R.
struct Reference;

impl Item for Reference {
    ghost Value = { TypeScriptReference };

    ghost encode = { encode_reference };

    ghost Valid = { ValidReference };

    ghost cited = { λ number. cite_reference };

    fn cite<'a>(citing: &Citing, report: &'a [u8], _: usize, w: &mut Writer) -> Cited<'a> {
        let (kind, next) = read_number(report);
        let next = citing.cite_specifier(next, b'R', w);
        match ReferenceKind::from(kind) {
            ReferenceKind::Path => (1, next),
            ReferenceKind::Types => {
                let (_, next) = read_number(next);
                (1, next)
            }
        }
    }
}

// A JSDoc import: J.
struct JsDoc;

impl Item for JsDoc {
    ghost Value = { JsDocImportInfo };

    ghost encode = { encode_jsdoc };

    ghost Valid = { ValidJsDoc };

    ghost cited = { λ number. cite_jsdoc };

    fn cite<'a>(citing: &Citing, report: &'a [u8], _: usize, w: &mut Writer) -> Cited<'a> {
        let (_, next) = read_number(report);
        let next = citing.cite_specifier(next, b'J', w);
        let (_, next) = read_number(next);
        (1, next)
    }
}

// Writes the citation of a report over its source, with the numbers beside its dependencies, and answers its length. A first pass counts the lines;
// what it writes is written over. Behind the citation the buffer is left free, and all of it where the bytes are no report.
pub fn cite_report(report: &[u8], source: &[u8], numbers: &[usize], out: &mut [u8]) -> usize
    requires { 4 * length report.now ≤ length out.old }
    ensures answer { (m : ModuleInfo)
        → Valid m
        → encode m ≡ report.now
        → (result ≡ length (citation source.now numbers.now m))
        × (take result out.new ≡ citation source.now numbers.now m) }
    ensures bounds { result ≤ length out.new }
    ensures left { Free out.old out.new }
{
    let wide = &source[..last_four(source)];
    let citing = Citing {
        source: wide,
        numbers,
    };
    let mut w = Writer::new(out);
    let (lines, _) = citing.cite_lines(report, &mut w);
    w.at = Some(0);
    put_title(b"module ", lines, &mut w);
    citing.cite_lines(report, &mut w);
    w.written()
}

// Writes the citation of a refusal, and answers its length. Behind it the buffer is left free.
pub fn cite_refusal(number: u8, out: &mut [u8]) -> usize
    requires { 12 ≤ length out.old }
    ensures answer { (result ≡ length (refusal number)) × (take result out.new ≡ refusal number) }
    ensures bounds { result ≤ length out.new }
    ensures left { Free out.old out.new }
{
    let mut w = Writer::new(out);
    put_title(b"refused ", usize::from(number), &mut w);
    w.written()
}
