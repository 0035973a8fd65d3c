// `DependencyCollector`: the walk over a tree, by recursion in which the levels left fall. It adds the entries of what a node holds, in the order
// of the sheet, and the node's own.
ghost use Rattle.std.specs.Prelude.{◌≡◌, List, ℕ, Some};
ghost use Rattle.laws.specs.Decoded.{ok};
ghost use Rattle.laws.specs.code.Told.{Leaving};
ghost use Rattle.sheet.specs.Limits.{depth_limit};
ghost use Rattle.sheet.specs.Tree.{Node, import_require};
ghost use Rattle.sheet.specs.Nodes.{node, nodes, argument_item, arguments, property_item, properties, call_rest, attributes_object};
ghost use Rattle.sheet.specs.Walked.{entries};
ghost use Rattle.sheet_heads.specs.code.Rest.{behind, rest};
ghost use Rattle.sheet_heads.specs.code.Views.{quoted_of, head_of, HeadWithin, Spanned};
ghost use Rattle.sheet_heads.specs.declared.node.Head.TheVariants.{Import, ExportFrom, ExportAll, ImportType, Module};
ghost use Rattle.sheet_nodes.specs.code.Reach.{ReachesIn};
ghost use Rattle.report.specs.Range.{InSource};
ghost use Rattle.dep_entries.specs.code.Written.{items_as, KeepsItems};
ghost use Rattle.dep.specs.code.Walk.{Calls, names_require, call_by, callees_of, walked_as, answered, Walks, with_dependencies};
ghost use Rattle.dep.specs.code.Walk.{after_node, after_nodes, after_argument, after_arguments, after_properties, after_property, after_with};
ghost use Rattle.dep.specs.code.Walk.{after_import, after_call};

use dep_entries::{
    CallHead, Items, StaticDependencyDescriptor, dynamic_kind, equals_kind, export_kind,
    import_kind,
};
use report::names::{DynamicDependencyKind, StaticDependencyKind};
use sheet::commented::Comments;
use sheet::fields::Span;
use sheet::limits::DEPTH_LIMIT;
use sheet_heads::node::{ExportHead, Head, ImportHead, RequireHead, read_head};
use sheet_heads::parts::{nodes_of, read_argument, read_attributes, read_pieces, read_property};
use sheet_heads::quoted::Quoted;
use sheet_nodes::check::{check_attributes, check_nodes};
use wire::Cursor;
use wire::refusals::Refusal;

// The dependencies of a tree: their number, which the check of the tree counted, and their entries, as far as it says that these reach. Where
// the bytes are no tree with so many, the report and the notes are left free.
pub fn analyze_program_dependencies(
    comments: &Comments,
    root: &[u8],
    count: usize,
    reach: usize,
    items: &mut Items,
)
    ensures { Leaving
        ((n : Node) (t : List ℕ)
        → node comments.now.source depth_limit root.now ≡ ok n t
        → count ≡ entries n
        → ReachesIn reach n
        → items_as items.new ≡ with_dependencies comments.now (items_as items.old) n)
        (KeepsItems items.old items.new) }
{
    let collector = DependencyCollector { comments };
    items.writer.put_number(count);
    let _ = collector.walk_root(root, reach, items);
}

// The comments of a source, for the types of its entries.
#[derive(Drop)]
pub struct DependencyCollector<'a> {
    pub comments: &'a Comments<'a>,
}

// Each method but the last two walks what stands at the front of some bytes, and answers the bytes behind it, or a refusal.
impl DependencyCollector<'_> {
    // The root: of an Other only the children up to the last that has an entry, so many.
    #[tactic(auto, using(sheet_heads::proofs::ByHead::no_head))]
    fn walk_root<'s>(
        &self,
        root: &'s [u8],
        reach: usize,
        items: &mut Items,
    ) -> Result<&'s [u8], Refusal>
        ensures { Leaving
            ((n : Node) (t : List ℕ)
            → node self.now.comments.now.source depth_limit root.now ≡ ok n t
            → ReachesIn reach n
            → answered (walked_as items.new result) ≡ Some (after_node self.now.comments.now (items_as items.old) n))
            (KeepsItems items.old items.new) }
    {
        let ((_, head), next) = read_head(self.comments.source(), root, DEPTH_LIMIT)?;
        match head {
            Head::Other(_) => self.walk_nodes(next, reach, DEPTH_LIMIT - 1, items),
            _ => self.walk_node(root, DEPTH_LIMIT, items),
        }
    }

    // The entry of an import, and past its attributes.
    #[tactic(auto, unfolding(crate::specs::Collect::noting))]
    fn visit_import_decl<'s>(
        &self,
        s: &'s [u8],
        levels: usize,
        span: Span,
        head: ImportHead<'_>,
        items: &mut Items,
    ) -> Result<&'s [u8], Refusal>
        requires { InSource self.now.comments.now.source head.specifier.span }
        ensures { Walks (after_node self.now.comments.now)
            (rest self.now.comments.now.source levels (span, head_of (Import head.entry)) s.now)
            items.old items.new result }
    {
        let dependency = StaticDependencyDescriptor {
            kind: import_kind(head.type_only, head.phase),
            span,
            specifier: head.specifier,
            is_side_effect: head.side_effect,
        };
        self.walk_import(s, head.has_object, levels, dependency, items)
    }

    // The entry of an export of names from a module, and past its attributes.
    #[tactic(auto, unfolding(crate::specs::Collect::noting))]
    fn visit_named_export<'s>(
        &self,
        s: &'s [u8],
        levels: usize,
        span: Span,
        head: ExportHead<'_>,
        items: &mut Items,
    ) -> Result<&'s [u8], Refusal>
        requires { InSource self.now.comments.now.source head.specifier.span }
        ensures { Walks (after_node self.now.comments.now)
            (rest self.now.comments.now.source levels (span, head_of (ExportFrom head.entry)) s.now)
            items.old items.new result }
    {
        let dependency = StaticDependencyDescriptor {
            kind: export_kind(head.type_only),
            span,
            specifier: head.specifier,
            is_side_effect: false,
        };
        self.walk_import(s, head.has_object, levels, dependency, items)
    }

    // The entry of an export of all names of a module, and past its attributes. As `visit_named_export`, but each promises the entry of
    // another node; what the two share is `walk_import`.
    #[tactic(auto, unfolding(crate::specs::Collect::noting))]
    fn visit_export_all<'s>(
        &self,
        s: &'s [u8],
        levels: usize,
        span: Span,
        head: ExportHead<'_>,
        items: &mut Items,
    ) -> Result<&'s [u8], Refusal>
        requires { InSource self.now.comments.now.source head.specifier.span }
        ensures { Walks (after_node self.now.comments.now)
            (rest self.now.comments.now.source levels (span, head_of (ExportAll head.entry)) s.now)
            items.old items.new result }
    {
        let dependency = StaticDependencyDescriptor {
            kind: export_kind(head.type_only),
            span,
            specifier: head.specifier,
            is_side_effect: false,
        };
        self.walk_import(s, head.has_object, levels, dependency, items)
    }

    // The entry of an import type, with the attributes behind its children; then its children, and what the attributes hold.
    #[tactic(auto, using(dep_entries::proofs::Wrote::entries_append, crate::proofs::Added::entries_cons, crate::proofs::Arms::object_behind), unfolding(sheet::specs::Nodes::type_rest, sheet::specs::Nodes::attributes, crate::specs::Collect::noting))]
    #[cycle(walk)]
    fn visit_ts_import_type<'s>(
        &self,
        s: &'s [u8],
        count: usize,
        levels: usize,
        span: Span,
        specifier: Quoted<'_>,
        items: &mut Items,
    ) -> Result<&'s [u8], Refusal>
        requires { InSource self.now.comments.now.source specifier.span }
        ensures { Walks (after_node self.now.comments.now)
            (rest self.now.comments.now.source levels (span, head_of (ImportType specifier.entry count)) s.now)
            items.old items.new result }
    {
        let dependency = StaticDependencyDescriptor {
            kind: StaticDependencyKind::ImportType,
            span,
            specifier,
            is_side_effect: false,
        };
        let (_, next) = check_nodes(self.comments.source(), s, count, levels)?;
        let (has_object, object) = next.flag()?;
        items.put_type_entry(
            self.comments,
            has_object.then_some(object),
            levels,
            dependency,
        );
        self.walk_nodes(s, count, levels, items)?;
        self.walk_attributes(object, has_object, levels, items)
    }

    // Behind the callee of a call: arguments and further children; then the call's entry, if it is an import or a require.
    #[tactic(auto, using(dep_entries::proofs::Wrote::entries_append), unfolding(sheet::specs::Nodes::call_rest))]
    #[cycle(walk)]
    fn visit_call_expr<'s>(
        &self,
        s: &'s [u8],
        levels: usize,
        call: Option<CallHead>,
        items: &mut Items,
    ) -> Result<&'s [u8], Refusal>
        ensures { Walks (after_call self.now.comments.now call)
            (call_rest (node self.now.comments.now.source levels) self.now.comments.now.source s.now)
            items.old items.new result }
    {
        let (count, args) = s.number()?;
        let next = self.walk_arguments(args, count, levels, items)?;
        let (more, next) = next.number()?;
        let next = self.walk_nodes(next, more, levels, items)?;
        items.put_call_entry(self.comments, args, count, levels, call);
        Ok(next)
    }

    // The entry of an import-equals that names a module.
    #[tactic(auto, using(crate::proofs::Added::adds_kept), unfolding(crate::specs::Collect::noting))]
    fn visit_ts_import_equals_decl<'s>(
        &self,
        s: &'s [u8],
        span: Span,
        head: RequireHead<'_>,
        items: &mut Items,
    ) -> Result<&'s [u8], Refusal>
        requires { InSource self.now.comments.now.source head.specifier.span }
        ensures { Walks (after_node self.now.comments.now)
            (ok (import_require span head.entry.type_only head.entry.export (quoted_of head.entry.specifier)) s.now)
            items.old items.new result }
    {
        let dependency = StaticDependencyDescriptor {
            kind: equals_kind(head.type_only, head.export),
            span,
            specifier: head.specifier,
            is_side_effect: false,
        };
        items.put_plain_entry(self.comments, dependency);
        Ok(s)
    }

    // The entry of a module declaration with a String, if it may be an augmentation; then its children.
    #[tactic(auto, using(crate::proofs::Added::adds_kept, dep_entries::proofs::Wrote::entries_append), unfolding(crate::specs::Collect::noting))]
    #[cycle(walk)]
    fn visit_ts_module_decl<'s>(
        &self,
        s: &'s [u8],
        count: usize,
        levels: usize,
        span: Span,
        specifier: Quoted<'_>,
        items: &mut Items,
    ) -> Result<&'s [u8], Refusal>
        requires { InSource self.now.comments.now.source specifier.span }
        ensures { Walks (after_node self.now.comments.now)
            (rest self.now.comments.now.source levels (span, head_of (Module (Some specifier.entry) count)) s.now)
            items.old items.new result }
    {
        items.put_module_entry(self.comments, span, specifier);
        self.walk_nodes(s, count, levels, items)
    }

    // The node at the front, with so many levels left, its own among them.
    #[tactic(auto, using(sheet_heads::proofs::ByHead::node_by_head))]
    #[cycle(walk)]
    fn walk_node<'s>(
        &self,
        s: &'s [u8],
        levels: usize,
        items: &mut Items,
    ) -> Result<&'s [u8], Refusal>
        ensures { Walks (after_node self.now.comments.now)
            (node self.now.comments.now.source levels s.now)
            items.old items.new result }
    {
        let ((span, head), next) = read_head(self.comments.source(), s, levels)?;
        self.walk_rest(next, levels - 1, span, head, items)
    }

    // What follows a head, with so many levels left below its node.
    #[tactic(auto, using(dep_entries::proofs::Wrote::entries_nil), unfolding(crate::specs::Collect::noting, dep_entries::specs::Entries::module_entry, sheet::specs::Nodes::nodes, sheet::specs::Nodes::many))]
    #[cycle(walk)]
    fn walk_rest<'s>(
        &self,
        s: &'s [u8],
        levels: usize,
        span: Span,
        head: Head<'_>,
        items: &mut Items,
    ) -> Result<&'s [u8], Refusal>
        requires { HeadWithin head × Spanned self.now.comments.now.source head }
        ensures { Walks (after_node self.now.comments.now)
            (rest self.now.comments.now.source levels (span, head_of head.entry) s.now)
            items.old items.new result }
    {
        match head {
            Head::Other(n) | Head::Module(None, n) => self.walk_nodes(s, n, levels, items),
            Head::String(_) | Head::Name(_) | Head::NamedExport(_) | Head::ImportEquals => Ok(s),
            Head::Template(n) => {
                let (_, next) = read_pieces(s, n + 1)?;
                self.walk_nodes(next, n, levels, items)
            }
            Head::Binary(_) => self.walk_nodes(s, 2, levels, items),
            Head::Object(n) => self.walk_properties(s, n, levels, items),
            Head::ImportCall(_) | Head::Call => self.walk_callee(s, levels, span, head, items),
            Head::Import(x) => self.visit_import_decl(s, levels, span, x, items),
            Head::ExportFrom(x) => self.visit_named_export(s, levels, span, x, items),
            Head::ExportAll(x) => self.visit_export_all(s, levels, span, x, items),
            Head::ImportType(x, n) => self.visit_ts_import_type(s, n, levels, span, x, items),
            Head::ImportRequire(x) => self.visit_ts_import_equals_decl(s, span, x, items),
            Head::Module(Some(x), n) => self.visit_ts_module_decl(s, n, levels, span, x, items),
        }
    }

    // So many nodes, one after the other. This loop and those over arguments and properties as one function would take closures, which in a cycle of
    // calls state their own contracts: that is longer than the loops.
    #[tactic(auto, using(crate::proofs::Loops::nodes_turn))]
    #[cycle(walk)]
    fn walk_nodes<'s>(
        &self,
        s: &'s [u8],
        count: usize,
        levels: usize,
        items: &mut Items,
    ) -> Result<&'s [u8], Refusal>
        ensures { Walks (after_nodes self.now.comments.now)
            (nodes (node self.now.comments.now.source levels) count s.now)
            items.old items.new result }
    {
        let mut left = s;
        for _ in 0..count {
            left = self.walk_node(left, levels, items)?;
        }
        Ok(left)
    }

    // An argument: its node.
    #[tactic(auto, using(sheet_heads::proofs::ByHead::argument_by_head, crate::proofs::Added::entries_last), unfolding(crate::specs::Collect::noting))]
    #[cycle(walk)]
    fn walk_argument<'s>(
        &self,
        s: &'s [u8],
        levels: usize,
        items: &mut Items,
    ) -> Result<&'s [u8], Refusal>
        ensures { Walks (after_argument self.now.comments.now)
            (argument_item (node self.now.comments.now.source levels) self.now.comments.now.source s.now)
            items.old items.new result }
    {
        let (_, next) = read_argument(self.comments.source(), s)?;
        self.walk_node(next, levels, items)
    }

    // So many arguments.
    #[tactic(auto, using(crate::proofs::Loops::arguments_turn))]
    #[cycle(walk)]
    fn walk_arguments<'s>(
        &self,
        s: &'s [u8],
        count: usize,
        levels: usize,
        items: &mut Items,
    ) -> Result<&'s [u8], Refusal>
        ensures { Walks (after_arguments self.now.comments.now)
            (arguments (node self.now.comments.now.source levels) self.now.comments.now.source count s.now)
            items.old items.new result }
    {
        let mut left = s;
        for _ in 0..count {
            left = self.walk_argument(left, levels, items)?;
        }
        Ok(left)
    }

    // A property: its key, if that is a node, and its value.
    #[tactic(auto, using(sheet_heads::proofs::ByHead::property_by_head), unfolding(crate::specs::Collect::noting, sheet::specs::Nodes::nodes, sheet::specs::Nodes::many))]
    #[cycle(walk)]
    fn walk_property<'s>(
        &self,
        s: &'s [u8],
        levels: usize,
        items: &mut Items,
    ) -> Result<&'s [u8], Refusal>
        ensures { Walks (after_property self.now.comments.now)
            (property_item (node self.now.comments.now.source levels) s.now)
            items.old items.new result }
    {
        let (property, next) = read_property(s)?;
        self.walk_nodes(next, nodes_of(property), levels, items)
    }

    // So many properties.
    #[tactic(auto, using(crate::proofs::Loops::properties_turn))]
    #[cycle(walk)]
    fn walk_properties<'s>(
        &self,
        s: &'s [u8],
        count: usize,
        levels: usize,
        items: &mut Items,
    ) -> Result<&'s [u8], Refusal>
        ensures { Walks (after_properties self.now.comments.now)
            (properties (node self.now.comments.now.source levels) count s.now)
            items.old items.new result }
    {
        let mut left = s;
        for _ in 0..count {
            left = self.walk_property(left, levels, items)?;
        }
        Ok(left)
    }

    // An Object that holds attributes, if there is one.
    #[tactic(auto, using(crate::proofs::Arms::attributes_behind, dep_entries::proofs::Wrote::entries_nil), unfolding(crate::specs::Collect::noting))]
    #[cycle(walk)]
    fn walk_attributes<'s>(
        &self,
        s: &'s [u8],
        has_object: bool,
        levels: usize,
        items: &mut Items,
    ) -> Result<&'s [u8], Refusal>
        ensures { Walks (after_with self.now.comments.now)
            (behind has_object (attributes_object self.now.comments.now.source levels) s.now)
            items.old items.new result }
    {
        if has_object {
            let ((_, count), next) = read_attributes(self.comments.source(), s, levels)?;
            return self.walk_properties(next, count, levels - 1, items);
        }
        Ok(s)
    }

    // The entry of an import or an export, and past its attributes, in which nothing is walked.
    #[tactic(auto, using(crate::proofs::Added::adds_kept), unfolding(attributes::specs::Attributes::static_attributes))]
    fn walk_import<'s>(
        &self,
        s: &'s [u8],
        has_object: bool,
        levels: usize,
        dependency: StaticDependencyDescriptor<'_>,
        items: &mut Items,
    ) -> Result<&'s [u8], Refusal>
        requires { InSource self.now.comments.now.source dependency.specifier.span }
        ensures { Walks (after_import self.now.comments.now dependency.entry)
            (behind has_object (attributes_object self.now.comments.now.source levels) s.now)
            items.old items.new result }
    {
        if has_object {
            let (_, next) = check_attributes(self.comments.source(), s, has_object, levels)?;
            items.put_with_entry(self.comments, s, levels, dependency);
            return Ok(next);
        }
        items.put_plain_entry(self.comments, dependency);
        Ok(s)
    }

    // A call: its callee, if that is an expression, and what follows it. Both forms of a call come here: what is called at one place is inlined, so that
    // a level of calls has fewer frames on the stack.
    #[tactic(auto, using(dep_entries::proofs::Wrote::entries_nil, crate::proofs::Arms::call_walked), unfolding(crate::specs::Collect::noting, sheet::specs::Nodes::nodes, sheet::specs::Nodes::many))]
    #[cycle(walk)]
    fn walk_callee<'s>(
        &self,
        s: &'s [u8],
        levels: usize,
        span: Span,
        head: Head<'_>,
        items: &mut Items,
    ) -> Result<&'s [u8], Refusal>
        requires { Calls head }
        ensures { Walks (after_node self.now.comments.now)
            (rest self.now.comments.now.source levels (span, head_of head.entry) s.now)
            items.old items.new result }
    {
        let call = self.call_of(s, levels, span, head);
        let next = self.walk_nodes(s, callees(head), levels, items)?;
        self.visit_call_expr(next, levels, call, items)
    }

    // A call up to its arguments, if it is listed, by its head: an import, or a call of the expression at the front.
    fn call_of(&self, s: &[u8], levels: usize, span: Span, head: Head<'_>) -> Option<CallHead>
        ensures { result ≡ call_by self.now.comments.now.source levels span s.now head.entry }
    {
        let kind = match head {
            Head::ImportCall(phase) => dynamic_kind(phase),
            _ if self.is_require(s, levels) => DynamicDependencyKind::Require,
            _ => return None,
        };
        Some(CallHead { kind, span })
    }

    // Is the callee at the front the Name `require`?
    #[tactic(auto, using(crate::proofs::Callee::callee_cut, crate::proofs::Callee::callee_named, crate::proofs::Callee::callee_unnamed))]
    fn is_require(&self, s: &[u8], levels: usize) -> bool
        ensures { result ≡ names_require (node self.now.comments.now.source levels s.now) }
    {
        let Ok(((_, head), _)) = read_head(self.comments.source(), s, levels) else {
            return false;
        };
        match head {
            Head::Name(text) => sheet_heads::texts::is_require(text),
            _ => false,
        }
    }
}

// How many nodes stand for the callee of a call with that head: none for an import.
fn callees(head: Head) -> usize
    ensures { result ≡ callees_of head.entry }
{
    usize::from(!matches!(head, Head::ImportCall(_)))
}
