// Graphs of terms.
ghost use Rattle.std.specs.Prelude.{◌≡◌, ◌<◌, [], ◌∷◌, ◌++◌, true, false, Contains, length, IfOk, OnErr, Some, IsSome, IsTrue, slice_get};
ghost use Rattle.civl_tree.specs.rules.Exprs.{is_index};
ghost use Rattle.civl_tree.specs.rules.Sorts.{one_sort, two_sort, pick_sort, get_sort, set_sort, fill_sort, slice_sort, widen_sort, join_sort};
ghost use Rattle.civl_tree.specs.rules.StoreSize.{bits_of};
ghost use Rattle.civl_firing.specs.values.Operators.{one_value, two_value, pick_value, get_value, set_value, fill_value, slice_value, widen_value, join_value};
ghost use Rattle.civl_firing.specs.values.Values.{sort_of_value, is_sort};
ghost use Rattle.civl_firing.specs.values.Weights.{bits_in, one_weight, two_weight, pick_weight, get_weight, set_weight, move_weight};
ghost use Rattle.civl_terms.specs.Graphs.{PartsBelow, node_sort, sorts, sort_at, value_at, InLimits, VariablesFit, IsFree, IsGraph, IsDistinct, listed};
ghost use Rattle.civl_terms.specs.Building.{Lengthens, Grows, Numbers, Answers, Built, constant_at, one_in, two_in, pick_in, get_in, set_in, fill_in, slice_in, widen_in, join_in};
ghost use Rattle.civl_terms.specs.declared.node.Node.TheVariants as node;

use crate::evaluate::{node_value, value_in};
use crate::foldings::Folded;
use crate::node::{Id, Node};
use crate::sorting::{of_fill, of_get, of_join, of_one, of_slice, of_two, of_widen};
use civl_bits::Value;
use civl_firing::values::sort_of;
use civl_tree::{List, Memory, One, Sort, Two};
use indexmap::IndexSet;
use std::alloc::Global;
use std::marker::Model;

/// A graph of terms, which contracts see as the list of its nodes.
#[derive(Drop)]
pub struct Terms {
    nodes: IndexSet<Node>,
    sorts: Vec<Sort>,
}

impl Model for Terms {
    ghost use Rattle.std.specs.Prelude.{List};
    ghost use Rattle.civl_terms.specs.declared.node.Node.{Node};
    ghost use Rattle.civl_terms.specs.Graphs.{HoldsGraph};

    ghost Value = { List Node };

    ghost view = { λ t. t.nodes.keys };

    ghost invariant = { λ t. HoldsGraph t.nodes.keys t.sorts.items };
}

/// The number of a node, and whether it is new.
fn number(nodes: &mut IndexSet<Node>, node: Node) -> Result<(Id, bool), Memory>
    ensures is { IfOk result (λ r. slice_get nodes.new.keys r.0 ≡ Some node) }
    ensures old { IfOk result (λ r. r.1 ≡ false → nodes.new.keys ≡ nodes.old.keys) }
    ensures added { IfOk result (λ r. r.1 ≡ true → nodes.new.keys ≡ nodes.old.keys ++ node ∷ []) }
    ensures found { IfOk result (λ r. Contains nodes.old.keys node → nodes.new.keys ≡ nodes.old.keys) }
    ensures err { OnErr result (nodes.new.keys ≡ nodes.old.keys) }
{
    let _value = Value::Bool(true);
    let (id, added) = nodes.insert_full(node)?;
    Ok((id, added))
}

impl Terms {
    /// The graph without nodes. It takes no memory until something is built.
    pub fn new(alloc: Global) -> Terms
        ensures { result ≡ [] }
    {
        Terms {
            nodes: IndexSet::new(alloc),
            sorts: Vec::new(alloc),
        }
    }

    /// The number of nodes, no two of which are equal.
    pub fn len(&self) -> usize
        ensures is { result ≡ length self.now }
        ensures graph { IsGraph self.now }
        ensures distinct { IsDistinct self.now }
    {
        self.nodes.len()
    }

    /// The node with this number, whose parts have smaller numbers.
    pub fn node(&self, id: Id) -> &Node
        requires { id < length self.now }
        ensures is { slice_get self.now id ≡ Some result.now }
        ensures parts { PartsBelow id result.now }
    {
        self.nodes.get_index(id).unwrap()
    }

    /// The sort of the node with this number, a sort within the language's limits.
    pub fn sort(&self, id: Id) -> Sort
        requires { id < length self.now }
        ensures is { sort_at self.now id ≡ Some result }
        ensures limits { IsTrue (is_sort result) }
    {
        self.sorts[id]
    }

    /// The node's constant, if it is one.
    fn constant_at(&self, id: Id) -> Option<Value>
        requires { id < length self.now }
        ensures { result ≡ constant_at self.now id }
    {
        match self.node(id) {
            Node::Constant(value) => Some(*value),
            _ => None,
        }
    }

    /// The number of a node of this sort, a new one where it wasn't there.
    fn add(&mut self, node: Node, sort: Sort) -> Result<Id, Memory>
        requires parts { PartsBelow (length self.old) node }
        requires sort { node_sort (sorts self.old) node ≡ Some sort }
        requires limits { InLimits node }
        requires variables { VariablesFit self.old node }
        ensures numbers { IfOk result (λ id. Numbers self.old self.new node id) }
        ensures err { OnErr result (self.new ≡ self.old) }
        ensures graph { IsGraph self.old }
    {
        self.sorts.reserve(1)?;
        let (id, added) = number(&mut self.nodes, node)?;
        if added {
            self.sorts.push(sort).unwrap();
        }
        Ok(id)
    }

    /// A constant.
    ///
    /// # Errors
    ///
    /// For want of memory; the graph is then as before.
    pub fn constant(&mut self, value: Value) -> Result<Id, Memory>
        ensures node { IfOk result (λ id. Numbers self.old self.new (node.Constant value) id) }
        ensures built { IfOk result (λ id. Built self.old self.new id (λ env. value) (Some (sort_of_value value)) 0) }
        ensures grows { Grows self.old self.new }
        ensures err { OnErr result (self.new ≡ self.old) }
    {
        let sort = sort_of(&value);
        let id = self.add(Node::Constant(value), sort)?;
        Ok(id)
    }

    /// The variable with this number and this sort, which is the number's sort in the graph.
    ///
    /// # Errors
    ///
    /// For want of memory; the graph is then as before.
    pub fn variable(&mut self, number: u32, sort: Sort) -> Result<Id, Memory>
        requires limits { IsTrue (is_sort sort) }
        requires free { IsFree self.old number sort }
        ensures node { IfOk result (λ id. Numbers self.old self.new (node.Variable number sort) id) }
        ensures built { IfOk result (λ id. Built self.old self.new id (λ env. env number) (Some sort) (bits_of sort)) }
        ensures grows { Lengthens self.old self.new }
        ensures err { OnErr result (self.new ≡ self.old) }
    {
        let id = self.add(Node::Variable(number, sort), sort)?;
        Ok(id)
    }

    /// The node of an operation with these operands, or what it is folded to.
    fn answer(
        &mut self,
        folded: Folded,
        node: Node,
        sort: Sort,
        operands: (Id, Id, Id),
    ) -> Result<Id, Memory>
        requires parts { PartsBelow (length self.old) node }
        requires sort { node_sort (sorts self.old) node ≡ Some sort }
        requires limits { InLimits node }
        requires variables { VariablesFit self.old node }
        ensures answers { IfOk result (λ id. Answers self.old self.new folded node operands.0 operands.1 operands.2 id) }
        ensures err { OnErr result (self.new ≡ self.old) }
        ensures graph { IsGraph self.old }
    {
        let _count = self.len();
        match folded {
            Folded::New => { self.add(node, sort) }
            Folded::Constant(value) => {
                let sort = sort_of(&value);
                self.add(Node::Constant(value), sort)
            }
            Folded::First => Ok(operands.0),
            Folded::Second => Ok(operands.1),
            Folded::Third => Ok(operands.2),
        }
    }

    /// `!`, `~` or `-` of a term.
    ///
    /// # Errors
    ///
    /// For want of memory; the graph is then as before.
    pub fn one(&mut self, op: One, a: Id) -> Result<Id, Memory>
        requires a { a < length self.old }
        requires fits { IsSome (one_sort op (sort_at self.old a)) }
        ensures node { IfOk result (λ id. Answers self.old self.new (one_in self.old op a) (node.One op a) a a a id) }
        ensures built { IfOk result (λ id. Built self.old self.new id
            (λ env. one_value op (value_at env self.old a))
            (one_sort op (sort_at self.old a)) (one_weight op (bits_in (sort_at self.old a)))) }
        ensures grows { Grows self.old self.new }
        ensures err { OnErr result (self.new ≡ self.old) }
    {
        let folded = crate::foldings::one(op, self.constant_at(a));
        let sort = of_one(op, self.sort(a));
        let id = self.answer(folded, Node::One(op, a), sort, (a, a, a))?;
        Ok(id)
    }

    /// An operation with two operands.
    ///
    /// # Errors
    ///
    /// For want of memory; the graph is then as before.
    pub fn two(&mut self, op: Two, a: Id, b: Id) -> Result<Id, Memory>
        requires a { a < length self.old }
        requires b { b < length self.old }
        requires fits { IsSome (two_sort op (sort_at self.old a) (sort_at self.old b)) }
        ensures node { IfOk result (λ id. Answers self.old self.new (two_in self.old op a b) (node.Two op a b) a b b id) }
        ensures built { IfOk result (λ id. Built self.old self.new id
            (λ env. two_value op (value_at env self.old a) (value_at env self.old b))
            (two_sort op (sort_at self.old a) (sort_at self.old b)) (two_weight op (bits_in (sort_at self.old a)))) }
        ensures grows { Grows self.old self.new }
        ensures err { OnErr result (self.new ≡ self.old) }
    {
        let folded = crate::foldings::two(
            op,
            self.sort(a),
            self.constant_at(a),
            self.constant_at(b),
            a == b,
        );
        let sort = of_two(op, self.sort(a), self.sort(b));
        let id = self.answer(folded, Node::Two(op, a, b), sort, (a, b, b))?;
        Ok(id)
    }

    /// `c ? a : b`: a where c, else b.
    ///
    /// # Errors
    ///
    /// For want of memory; the graph is then as before.
    pub fn pick(&mut self, c: Id, a: Id, b: Id) -> Result<Id, Memory>
        requires c { c < length self.old }
        requires a { a < length self.old }
        requires b { b < length self.old }
        requires fits { IsSome (pick_sort (sort_at self.old c) (sort_at self.old a) (sort_at self.old b)) }
        ensures node { IfOk result (λ id. Answers self.old self.new (pick_in self.old c a b) (node.Pick c a b) c a b id) }
        ensures built { IfOk result (λ id. Built self.old self.new id
            (λ env. pick_value (value_at env self.old c) (value_at env self.old a) (value_at env self.old b))
            (pick_sort (sort_at self.old c) (sort_at self.old a) (sort_at self.old b)) (pick_weight (bits_in (sort_at self.old a)))) }
        ensures grows { Grows self.old self.new }
        ensures err { OnErr result (self.new ≡ self.old) }
    {
        let folded = crate::foldings::pick(
            self.constant_at(c),
            self.constant_at(a),
            self.constant_at(b),
            a == c,
            b == c,
            a == b,
        );
        let sort = self.sort(a);
        let id = self.answer(folded, Node::Pick(c, a, b), sort, (c, a, b))?;
        Ok(id)
    }

    /// The cell of a row at an index.
    ///
    /// # Errors
    ///
    /// For want of memory; the graph is then as before.
    pub fn get(&mut self, row: Id, at: Id) -> Result<Id, Memory>
        requires row { row < length self.old }
        requires at { at < length self.old }
        requires fits { IsSome (get_sort (sort_at self.old row) (sort_at self.old at)) }
        ensures node { IfOk result (λ id. Answers self.old self.new (get_in self.old row at) (node.Get row at) row at at id) }
        ensures built { IfOk result (λ id. Built self.old self.new id
            (λ env. get_value (value_at env self.old row) (value_at env self.old at))
            (get_sort (sort_at self.old row) (sort_at self.old at)) (get_weight (bits_in (sort_at self.old row)))) }
        ensures grows { Grows self.old self.new }
        ensures err { OnErr result (self.new ≡ self.old) }
    {
        let folded = crate::foldings::get(self.constant_at(row), self.constant_at(at));
        let sort = of_get(self.sort(row), self.sort(at));
        let id = self.answer(folded, Node::Get(row, at), sort, (row, at, at))?;
        Ok(id)
    }

    /// A row with another cell at an index.
    ///
    /// # Errors
    ///
    /// For want of memory; the graph is then as before.
    pub fn set(&mut self, row: Id, at: Id, cell: Id) -> Result<Id, Memory>
        requires row { row < length self.old }
        requires at { at < length self.old }
        requires cell { cell < length self.old }
        requires fits { IsSome (set_sort (sort_at self.old row) (sort_at self.old at) (sort_at self.old cell)) }
        ensures node { IfOk result (λ id. Answers self.old self.new (set_in self.old row at cell) (node.Set row at cell) row at cell id) }
        ensures built { IfOk result (λ id. Built self.old self.new id
            (λ env. set_value (value_at env self.old row) (value_at env self.old at) (value_at env self.old cell))
            (set_sort (sort_at self.old row) (sort_at self.old at) (sort_at self.old cell)) (set_weight (sort_at self.old row))) }
        ensures grows { Grows self.old self.new }
        ensures err { OnErr result (self.new ≡ self.old) }
    {
        let folded = crate::foldings::set(
            self.constant_at(row),
            self.constant_at(at),
            self.constant_at(cell),
            at == cell,
        );
        let sort = self.sort(row);
        let id = self.answer(folded, Node::Set(row, at, cell), sort, (row, at, cell))?;
        Ok(id)
    }

    /// The row for indices of `index` bits, 1 to 6, whose cells are all this one.
    ///
    /// # Errors
    ///
    /// For want of memory; the graph is then as before.
    pub fn fill(&mut self, index: u32, cell: Id) -> Result<Id, Memory>
        requires cell { cell < length self.old }
        requires index { IsTrue (is_index index) }
        requires fits { IsSome (fill_sort index (sort_at self.old cell)) }
        ensures node { IfOk result (λ id. Answers self.old self.new (fill_in self.old index cell) (node.Fill index cell) cell cell cell id) }
        ensures built { IfOk result (λ id. Built self.old self.new id
            (λ env. fill_value index (value_at env self.old cell))
            (fill_sort index (sort_at self.old cell)) move_weight) }
        ensures grows { Grows self.old self.new }
        ensures err { OnErr result (self.new ≡ self.old) }
    {
        let folded = crate::foldings::fill(index, self.constant_at(cell));
        let sort = of_fill(index, self.sort(cell));
        let id = self.answer(folded, Node::Fill(index, cell), sort, (cell, cell, cell))?;
        Ok(id)
    }

    /// The bits `high` down to `low` of a word.
    ///
    /// # Errors
    ///
    /// For want of memory; the graph is then as before.
    pub fn slice(&mut self, a: Id, high: u32, low: u32) -> Result<Id, Memory>
        requires a { a < length self.old }
        requires fits { IsSome (slice_sort (sort_at self.old a) high low) }
        ensures node { IfOk result (λ id. Answers self.old self.new (slice_in self.old a high low) (node.Slice a high low) a a a id) }
        ensures built { IfOk result (λ id. Built self.old self.new id
            (λ env. slice_value (value_at env self.old a) high low)
            (slice_sort (sort_at self.old a) high low) move_weight) }
        ensures grows { Grows self.old self.new }
        ensures err { OnErr result (self.new ≡ self.old) }
    {
        let folded = crate::foldings::slice(self.constant_at(a), high, low);
        let sort = of_slice(self.sort(a), high, low);
        let id = self.answer(folded, Node::Slice(a, high, low), sort, (a, a, a))?;
        Ok(id)
    }

    /// A word with zeros above, up to a width of at most 32.
    ///
    /// # Errors
    ///
    /// For want of memory; the graph is then as before.
    pub fn widen(&mut self, a: Id, width: u32) -> Result<Id, Memory>
        requires a { a < length self.old }
        requires fits { IsSome (widen_sort (sort_at self.old a) width) }
        ensures node { IfOk result (λ id. Answers self.old self.new (widen_in self.old a width) (node.Widen a width) a a a id) }
        ensures built { IfOk result (λ id. Built self.old self.new id
            (λ env. widen_value (value_at env self.old a) width)
            (widen_sort (sort_at self.old a) width) move_weight) }
        ensures grows { Grows self.old self.new }
        ensures err { OnErr result (self.new ≡ self.old) }
    {
        let folded = crate::foldings::widen(self.constant_at(a), width);
        let sort = of_widen(self.sort(a), width);
        let id = self.answer(folded, Node::Widen(a, width), sort, (a, a, a))?;
        Ok(id)
    }

    /// The bits of the first word above those of the second; their widths sum to at most 32.
    ///
    /// # Errors
    ///
    /// For want of memory; the graph is then as before.
    pub fn join(&mut self, a: Id, b: Id) -> Result<Id, Memory>
        requires a { a < length self.old }
        requires b { b < length self.old }
        requires fits { IsSome (join_sort (sort_at self.old a) (sort_at self.old b)) }
        ensures node { IfOk result (λ id. Answers self.old self.new (join_in self.old a b) (node.Join a b) a b b id) }
        ensures built { IfOk result (λ id. Built self.old self.new id
            (λ env. join_value (value_at env self.old a) (value_at env self.old b))
            (join_sort (sort_at self.old a) (sort_at self.old b)) move_weight) }
        ensures grows { Grows self.old self.new }
        ensures err { OnErr result (self.new ≡ self.old) }
    {
        let folded = crate::foldings::join(self.constant_at(a), self.constant_at(b));
        let sort = of_join(self.sort(a), self.sort(b));
        let id = self.answer(folded, Node::Join(a, b), sort, (a, b, b))?;
        Ok(id)
    }
}

/// The value of a node, where variable k has the value at place k.
///
/// # Errors
///
/// For want of memory.
pub fn value(alloc: Global, terms: &Terms, id: Id, env: &List<Value>) -> Result<Value, Memory>
    requires { id < length terms.now }
    ensures { IfOk result (λ v. v ≡ value_at (listed env.now) terms.now id) }
{
    let _count = terms.len();
    let given = env.as_slice();
    let mut values: Vec<Value> = Vec::new(alloc);
    for at in 0..id + 1 {
        let value = node_value(given, values.as_slice(), terms.node(at));
        values.push(value)?;
    }
    let value = value_in(values.as_slice(), id);
    Ok(value)
}
