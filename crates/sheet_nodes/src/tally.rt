// What is found in nodes, and how it adds up.
ghost use Rattle.std.specs.Prelude.{◌≡◌, ◌+◌, ◌^◌, ◌<◌};
ghost use Rattle.sheet_nodes.specs.code.Tallies.{plus, with_argument, import_callee};
ghost use Rattle.sheet_nodes.specs.code.Answers.{leaf_of, with_own, called_by};

use std::ops::Add;

// What is found in a part of a tree: how many dependencies it gives, whether a call in it has an uncooked template for its first argument, and what
// else is asked of such a part (the two in a struct of their own would make each answer a word longer).
#[derive(Clone, Copy, Default)]
pub struct Found<T> {
    pub entries: usize,
    pub uncooked: bool,
    pub also: T,
}

// Of nodes nothing else.
pub type Tally = Found<()>;

// Of a node also: is it the Name `require`, is it a template with an uncooked piece?
#[derive(Clone, Copy)]
pub struct Seen {
    pub require: bool,
    pub template: bool,
}

pub type NodeTally = Found<Seen>;

// Of arguments also: is there one, is the first a template with an uncooked piece?
#[derive(Clone, Copy, Default)]
pub struct FirstSeen {
    pub any: bool,
    pub template: bool,
}

pub type ArgumentTally = Found<FirstSeen>;

// In one part and in another; what else is asked is that of the first.
impl<T: Copy, U: Copy> Add<Found<U>> for Found<T> {
    type Output = Found<T>;

    ghost can_add = { λ t u. t.entries + u.entries < 2 ^ 64 };

    ghost add_gives = { λ t u r. r ≡ plus t u };

    fn add(self, u: Found<U>) -> Found<T> {
        Found {
            entries: self.entries + u.entries,
            uncooked: self.uncooked || u.uncooked,
            also: self.also,
        }
    }
}

// One argument more: its node counts for the template only if there was none before it.
pub fn add_argument(p: ArgumentTally, j: NodeTally) -> ArgumentTally
    requires { p.entries + j.entries < 2 ^ 64 }
    ensures { result ≡ with_argument p j }
{
    Found {
        also: FirstSeen {
            any: true,
            template: p.also.template || !p.also.any && j.also.template,
        },
        ..p + j
    }
}

// A node that holds none that is walked: has it an entry, is it the Name `require`?
pub fn leaf(own: bool, require: bool) -> NodeTally
    ensures { result ≡ leaf_of own require }
{
    Found {
        entries: usize::from(own),
        uncooked: false,
        also: Seen {
            require,
            template: false,
        },
    }
}

// A node that holds nodes: has it an entry of its own, is it a template with an uncooked piece?
pub fn holding(own: bool, template: bool, t: Tally) -> NodeTally
    requires { 1 + t.entries < 2 ^ 64 }
    ensures { result ≡ with_own own template t }
{
    Found {
        also: Seen {
            require: false,
            template,
        },
        ..leaf(own, false) + t
    }
}

// What stands for the callee of an import: it is listed as `require` is.
pub fn import_callee() -> NodeTally
    ensures { result ≡ import_callee }
{
    leaf(false, true)
}

// A call, from what was found in its callee: a listed one with an argument has an entry.
pub fn called(callee: NodeTally, p: ArgumentTally) -> NodeTally
    requires { callee.entries + 1 + p.entries < 2 ^ 64 }
    ensures { result ≡ called_by callee p }
{
    let own = callee.also.require && p.also.any;
    let first = callee.also.require && p.also.template;
    let call = Found {
        entries: usize::from(own),
        uncooked: first,
        also: (),
    };
    Found {
        also: Seen {
            require: false,
            template: false,
        },
        ..callee + p + call
    }
}
