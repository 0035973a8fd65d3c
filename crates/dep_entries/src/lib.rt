// The entries of dependencies in the report.
#![tactic(auto)]

ghost use Rattle.std.specs.Prelude.{◌≡◌, Bool, List, ℕ};
ghost use Rattle.std.specs.Prelude.{None, Some};
ghost use Rattle.laws.specs.Decoded.{ok};
ghost use Rattle.laws.specs.code.Told.{Leaving};
ghost use Rattle.sheet.specs.Tree.{Node, Attributes, Arguments, argument};
ghost use Rattle.sheet.specs.Nodes.{node, arguments, attributes_object};
ghost use Rattle.sheet.specs.Shape.{shape};
ghost use Rattle.sheet_heads.specs.code.Views.{quoted_of};
ghost use Rattle.report.specs.ModuleInfo as info;
ghost use Rattle.report.specs.Range.{InSource};
ghost use Rattle.attributes.specs.Attributes.{type_attributes, static_attributes, dynamic_attributes};
ghost use Rattle.attributes.specs.code.Views.{attributes_as, object_in};
ghost use Rattle.arguments.specs.Argument.{single_text, replaced_in};
ghost use Rattle.arguments.specs.code.Views.{Stands};
ghost use Rattle.dep_entries.specs.Entries.{import_kind, export_kind, equals_kind, dynamic_kind, call_entry, beside};
ghost use Rattle.dep_entries.specs.code.Notes.{noted};
ghost use Rattle.dep_entries.specs.code.Written.{types_of, Adds, KeepsItems, static_of, dynamic_of, module_of, entry_of_call};

use arguments::argument::{DynamicArgument, parse_argument, put_argument};
use attributes::pairs::Pairs;
use attributes::readings::{
    ImportAttributes, parse_dynamic_import_attributes, parse_import_attributes,
    parse_type_attributes,
};
use attributes::writer::put_attributes;
use pragmas::analyze_ts_or_deno_types;
use report::names::{DynamicDependencyKind, StaticDependencyKind};
use report::writer::Writer;
use sheet::commented::Comments;
use sheet::fields::Span;
use sheet::names::ImportPhase;
use sheet_heads::parts::read_argument;
use sheet_heads::quoted::Quoted;
use sheet_heads::texts::is_augmentation;
use sheet_nodes::check::check_node;

// The report so far, and the notes beside it: for each entry where its node starts, and how many characters were replaced in its text.
#[derive(Drop)]
pub struct Items<'a, 'b> {
    pub writer: &'a mut Writer<'b>,
    pub notes: &'a mut [usize],
}

// A static dependency without its attributes: its kind, and the span of its node. Is it for side effects only?
#[derive(Clone, Copy)]
pub struct StaticDependencyDescriptor<'a> {
    pub span: Span,
    pub specifier: Quoted<'a>,
    pub is_side_effect: bool,
    pub kind: StaticDependencyKind,
}

// A dynamic dependency without its attributes: where its node starts, and its argument.
#[derive(Clone, Copy)]
pub struct DynamicDependencyDescriptor<'a> {
    pub kind: DynamicDependencyKind,
    pub start: usize,
    pub argument: DynamicArgument<'a>,
    pub argument_range: Span,
}

// A call that is listed, an import or a require, up to its arguments: its kind, and the span of its node.
#[derive(Clone, Copy)]
pub struct CallHead {
    pub kind: DynamicDependencyKind,
    pub span: Span,
}

// The kinds by what the nodes say.
pub fn import_kind(typed: bool, phase: ImportPhase) -> StaticDependencyKind
    ensures { result ≡ import_kind typed phase }
{
    if typed {
        return StaticDependencyKind::ImportType;
    }
    match phase {
        ImportPhase::Evaluation => StaticDependencyKind::Import,
        ImportPhase::Source => StaticDependencyKind::ImportSource,
        ImportPhase::Defer => StaticDependencyKind::ImportDefer,
    }
}

pub fn export_kind(typed: bool) -> StaticDependencyKind
    ensures { result ≡ export_kind typed }
{
    if typed {
        return StaticDependencyKind::ExportType;
    }
    StaticDependencyKind::Export
}

pub fn equals_kind(typed: bool, export: bool) -> StaticDependencyKind
    ensures { result ≡ equals_kind typed export }
{
    if typed {
        return StaticDependencyKind::ImportType;
    }
    if export {
        return StaticDependencyKind::ExportEquals;
    }
    StaticDependencyKind::ImportEquals
}

pub fn dynamic_kind(phase: ImportPhase) -> DynamicDependencyKind
    ensures { result ≡ dynamic_kind phase }
{
    match phase {
        ImportPhase::Evaluation => DynamicDependencyKind::Import,
        ImportPhase::Source => DynamicDependencyKind::ImportSource,
        ImportPhase::Defer => DynamicDependencyKind::ImportDefer,
    }
}

// Notes a row for the next dependency, where its node starts and its number: the first of the notes says how many numbers follow it. Where there is
// no room for both, nothing is noted.
#[tactic(auto, using(crate::proofs::Noting::note_stored, crate::proofs::Noting::note_left))]
fn note(notes: &mut [usize], start: usize, number: usize)
    ensures { notes.new ≡ noted notes.old start number }
{
    if 0 < notes.len() {
        let count = notes[0];
        let room = notes.len() - 1;
        if count < room && count + 1 < room {
            notes[count + 1] = start;
            notes[count + 2] = number;
            notes[0] = count + 2;
        }
    }
}

impl<'a, 'b> Items<'a, 'b> {
    // The entry of a static dependency, with its attributes.
    #[tactic(auto, using(crate::proofs::Wrote::adds_one, report::proofs::Buffers::parts), unfolding(crate::specs::Entries::static_entry, report::specs::Encode::encode_dependency, report::specs::Encode::encode_static))]
    fn put_static_entry(
        &mut self,
        comments: &Comments,
        dependency: StaticDependencyDescriptor,
        attributes: ImportAttributes,
    )
        requires { InSource comments.now.source dependency.specifier.span }
        ensures { Adds self.old self.new
            (static_of comments.now dependency.entry (attributes_as attributes.entry)) }
    {
        let start = dependency.span.start;
        let specifier = dependency.specifier;
        self.writer.put(u8::from(dependency.kind));
        analyze_ts_or_deno_types(comments, start, self.writer);
        let replaced = self
            .writer
            .put_lossy_specifier(specifier.text, comments, specifier.span);
        note(self.notes, start, replaced);
        self.writer.put_flag(dependency.is_side_effect);
        put_attributes(attributes, self.writer);
    }

    // The entry of an import or an export, with the Object of its attributes at the front of some bytes. The table
    // of pairs is here, and not in the walk, and is never inlined, so that no level of the walk has one on the
    // stack. Where the bytes are no such Object, the buffer and the notes are left free.
    #[inline(never)]
    pub fn put_with_entry(
        &mut self,
        comments: &Comments,
        object: &[u8],
        levels: usize,
        dependency: StaticDependencyDescriptor,
    )
        requires { InSource comments.now.source dependency.specifier.span }
        ensures { Leaving
            ((a : Attributes) (t : List ℕ)
            → attributes_object comments.now.source levels object.now ≡ ok a t
            → Adds self.old self.new (static_of comments.now dependency.entry (static_attributes a)))
            (KeepsItems self.old self.new) }
    {
        let source = comments.source();
        let mut pairs = Pairs::new();
        let attributes = parse_import_attributes(source, Some(object), levels, &mut pairs);
        self.put_static_entry(comments, dependency, attributes);
    }

    // The same of an import type, with the Object of its attributes, if there is one.
    #[inline(never)]
    pub fn put_type_entry(
        &mut self,
        comments: &Comments,
        object: Option<&[u8]>,
        levels: usize,
        dependency: StaticDependencyDescriptor,
    )
        requires { InSource comments.now.source dependency.specifier.span }
        ensures { Leaving
            ((a : Attributes) (t u : List ℕ)
            → object_in (attributes_object comments.now.source levels) object.entry u ≡ ok a t
            → Adds self.old self.new (static_of comments.now dependency.entry (type_attributes a)))
            (KeepsItems self.old self.new) }
    {
        let source = comments.source();
        let mut pairs = Pairs::new();
        let attributes = parse_type_attributes(source, object, levels, &mut pairs);
        self.put_static_entry(comments, dependency, attributes);
    }

    // The entry of a static dependency that has no attributes.
    pub fn put_plain_entry(&mut self, comments: &Comments, dependency: StaticDependencyDescriptor)
        requires { InSource comments.now.source dependency.specifier.span }
        ensures { Adds self.old self.new (static_of comments.now dependency.entry info.none) }
    {
        self.put_static_entry(comments, dependency, ImportAttributes::None);
    }

    // `visit_ts_module_decl`: the entry of a module declaration with a String, if it may be an augmentation.
    #[tactic(auto, using(crate::proofs::Wrote::adds_none), unfolding(crate::specs::Entries::module_entry))]
    pub fn put_module_entry(&mut self, comments: &Comments, span: Span, specifier: Quoted)
        requires { InSource comments.now.source specifier.span }
        ensures { Adds self.old self.new (module_of comments.now span (Some (quoted_of specifier.entry))) }
    {
        if is_augmentation(specifier.text) {
            let dependency = StaticDependencyDescriptor {
                kind: StaticDependencyKind::MaybeTsModuleAugmentation,
                span,
                specifier,
                is_side_effect: false,
            };
            self.put_plain_entry(comments, dependency);
        }
    }

    // The entry of a dynamic dependency, with its attributes. Where the bytes of its argument are no such argument,
    // the buffer and the notes are left free.
    fn put_dynamic_entry(
        &mut self,
        comments: &Comments,
        levels: usize,
        dependency: DynamicDependencyDescriptor,
        attributes: ImportAttributes,
    )
        requires { InSource comments.now.source dependency.argument_range }
        ensures { Leaving
            ((v : info.DynamicArgument) (replacements : ℕ)
            → Stands comments.now.source levels dependency.entry.argument v replacements
            → Adds self.old self.new
            (dynamic_of comments.now dependency.entry v (attributes_as attributes.entry) replacements))
            (KeepsItems self.old self.new) }
    {
        let source = comments.source();
        let start = dependency.start;
        self.writer.put(u8::from(dependency.kind));
        analyze_ts_or_deno_types(comments, start, self.writer);
        let replaced = put_argument(source, levels, dependency.argument, self.writer);
        note(self.notes, start, replaced);
        self.writer.put_span(comments, dependency.argument_range);
        put_attributes(attributes, self.writer);
    }

    // The same with so many arguments behind the first at the front of some bytes. The table of pairs is here as
    // in `put_with_entry`.
    #[inline(never)]
    fn put_options_entry(
        &mut self,
        comments: &Comments,
        s: &[u8],
        more: usize,
        levels: usize,
        dependency: DynamicDependencyDescriptor,
    )
        requires { InSource comments.now.source dependency.argument_range }
        ensures { Leaving
            ((v : info.DynamicArgument) (replacements : ℕ) (xs : Arguments) (t : List ℕ)
            → Stands comments.now.source levels dependency.entry.argument v replacements
            → arguments (node comments.now.source levels) comments.now.source more s.now ≡ ok xs t
            → Adds self.old self.new
            (dynamic_of comments.now dependency.entry v (dynamic_attributes xs) replacements))
            (KeepsItems self.old self.new) }
    {
        let source = comments.source();
        let mut pairs = Pairs::new();
        let attributes = parse_dynamic_import_attributes(source, s, more, levels, &mut pairs);
        self.put_dynamic_entry(comments, levels, dependency, attributes);
    }

    // The entry of a call by its first argument, whose node is at the front of some bytes, with so many arguments behind it. Where the bytes are no
    // such arguments, the buffer and the notes are left free.
    fn put_argument_entry(
        &mut self,
        comments: &Comments,
        s: &[u8],
        more: usize,
        levels: usize,
        call: CallHead,
        range: Span,
    )
        requires { InSource comments.now.source range }
        ensures { Leaving
            ((dots : Bool) (n : Node) (xs : Arguments) (t u : List ℕ)
            → node comments.now.source levels s.now ≡ ok n t
            → arguments (node comments.now.source levels) comments.now.source more t ≡ ok xs u
            → Adds self.old self.new
            (beside call.span.start (replaced_in (single_text (shape n)))
            (call_entry comments.now.source (types_of comments.now) call.kind call.span (argument dots range n xs))))
            (KeepsItems self.old self.new) }
    {
        let source = comments.source();
        let dependency = DynamicDependencyDescriptor {
            kind: call.kind,
            start: call.span.start,
            argument: parse_argument(source, s, levels),
            argument_range: range,
        };
        if more == 0 {
            self.put_dynamic_entry(comments, levels, dependency, ImportAttributes::None);
        } else if let Ok((_, next)) = check_node(source, s, levels) {
            self.put_options_entry(comments, next, more, levels, dependency);
        }
    }

    // The entry of a call, if it is listed, with so many arguments at the front of some bytes; none if there is no argument. Where the bytes are no such
    // arguments, the buffer and the notes are left free.
    pub fn put_call_entry(
        &mut self,
        comments: &Comments,
        s: &[u8],
        count: usize,
        levels: usize,
        call: Option<CallHead>,
    )
        ensures { Leaving
            ((xs : Arguments) (t : List ℕ)
            → arguments (node comments.now.source levels) comments.now.source count s.now ≡ ok xs t
            → Adds self.old self.new (entry_of_call comments.now call xs))
            (KeepsItems self.old self.new) }
    {
        let Some(call) = call else {
            return;
        };
        if 0 < count {
            if let Ok(((_, range), next)) = read_argument(comments.source(), s) {
                self.put_argument_entry(comments, next, count - 1, levels, call, range);
            }
        }
    }
}
