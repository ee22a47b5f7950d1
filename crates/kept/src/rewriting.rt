// Raising and substitution over kept terms, by recursion over their parts. A part is found by the lengths that are kept. One without
// variables, which neither changes, is passed over or copied whole; a leaf is done without a call. The slice that is written and the
// node in it go together, with the fact that the node lies in it: a struct of both would hold the caller's reference, and each contract
// would have to say that it holds the same one afterwards. The survey's fact and the argument's choose a term, as no ghost field can.
ghost use Rattle.std.specs.Prelude.{[], ◌∷◌, ◌≢◌, ◌≡◌, ℕ, ◌+◌, ◌*◌, ◌≤◌, ◌<◌, length, true};
ghost use Rattle.std.proofs.lemmas.List.Edits.{sets};
ghost use Rattle.calculus.specs.Term.{Term, raise, size, substitute, var};
ghost use Rattle.calculus.specs.Words.{Worded, longest};
ghost use Rattle.term.specs.Kept.{Lies, kept};
ghost use Rattle.kept.specs.Rewriting.{Argument, FirstVariables, Fits, Subject, Surveyed};
ghost use Rattle.kept.specs.Writing.{Puts};

use crate::copying::copy;
use crate::keeping::{length_at, narrow};
use term::word::{Meaning, classify, shape_of};

// For each node from `from` up to `to` the first variable or name at or behind it, `to` where there is none.
fn find_variables(source: &[u16], from: usize, to: usize, first: &mut [u16; 1024])
    requires { (from ≤ to) × (to ≤ longest) × (2 * to ≤ length source.now) × (length first.old ≡ longest) }
    ensures { FirstVariables source.now from to first.new }
{
    let mut next = narrow(to);
    for node in (from..to).rev() {
        if 16 <= source[2 * node] {
            next = narrow(node);
        }
        first[node] = next;
    }
}

// Raises the leaf at a node under `depth` binders: a variable that is free there. From 2,048 on words are names, which nothing raises.
fn raise_leaf(slice: &mut [u16], node: usize, depth: u16, by: u16)
    requires { ((e : Term) × Subject e slice.old node depth × (size e ≡ 1)) × (by ≤ longest) }
    ensures { (e : Term) → Lies e slice.old node → Worded e → size e ≡ 1 → slice.new ≡ sets slice.old (2 * node) (kept (raise by depth e)) }
{
    let word = slice[2 * node];
    if 16 + depth <= word {
        if word < 2048 {
            slice[2 * node] = word + by;
        }
    }
}

// Raises the free variables of the subterm at a node that has parts, in place: no length changes.
fn raise_parts(slice: &mut [u16], node: usize, depth: u16, by: u16, first: &[u16; 1024])
    requires { ((e : Term) × Subject e slice.old node depth × Surveyed e slice.old node first.now × (1 < size e)) × (by ≤ longest) }
    ensures { (e : Term) → Lies e slice.old node → Worded e → slice.new ≡ sets slice.old (2 * node) (kept (raise by depth e)) }
{
    let shape = shape_of(slice[2 * node]);
    let front = node + 1;
    let length = length_at(slice, front);
    let back = front + length;
    if length == 1 {
        raise_leaf(slice, front, depth, by);
    } else if usize::from(first[front]) < back {
        raise_parts(slice, front, depth, by, first);
    }
    let count = shape.parts;
    if 1 < count {
        let inner = depth + shape.bound;
        let more = length_at(slice, back);
        if more == 1 {
            raise_leaf(slice, back, inner, by);
        } else if usize::from(first[back]) < back + more {
            raise_parts(slice, back, inner, by, first);
        }
    }
}

// The same for a term of `count` nodes that the slice is, where it has variables at all.
fn raise_long(slice: &mut [u16], count: usize, by: u16)
    requires { ((e : Term) × (slice.old ≡ kept e) × Fits e × (count ≡ size e) × (1 < size e)) × (by ≤ longest) }
    ensures { (e : Term) → slice.old ≡ kept e → Worded e → slice.new ≡ kept (raise by 0 e) }
{
    let mut first = [0u16; 1024];
    find_variables(slice, 0, count, &mut first);
    if usize::from(first[0]) < count {
        raise_parts(slice, 0, 0, by, &first);
    }
}

// Raises the free variables of the term that the slice is, in place.
pub fn raise(slice: &mut [u16], by: u16)
    requires { ((e : Term) × (slice.old ≡ kept e) × Fits e) × (by ≤ longest) }
    ensures { (e : Term) → slice.old ≡ kept e → Worded e → slice.new ≡ kept (raise by 0 e) }
{
    let count = length_at(slice, 0);
    if count == 1 {
        raise_leaf(slice, 0, 0, by);
    } else {
        raise_long(slice, count, by);
    }
}

// Writes a leaf.
fn put(word: u16, out: &mut [u16], at: usize) -> Option<usize>
    requires { 2 * at ≤ length out.old }
    ensures { Puts (word ∷ 1 ∷ []) out.old at result out.new }
{
    if out.len() - 2 * at < 2 {
        return None;
    }
    out[2 * at] = word;
    out[2 * at + 1] = 1;
    Some(at + 1)
}

// Writes nodes as they stand.
pub fn copy_nodes(nodes: &[u16], out: &mut [u16], at: usize) -> Option<usize>
    requires { (2 * at ≤ length out.old) × ((n : ℕ) × (length nodes.now ≡ 2 * n)) }
    ensures { Puts nodes.now out.old at result out.new }
{
    let end = copy(nodes, out, 2 * at)?;
    Some(end / 2)
}

// The term that is put in, and whether it is known to be closed. Which term it is each contract says, as a ghost field holds no choice.
#[derive(Clone, Copy)]
struct Operand<'a> {
    nodes: &'a [u16],
    closed: bool,
}

// What stands for the variable `index` under `depth` binders: itself, the argument raised past the binders, or one index less.
fn put_variable(
    index: u16,
    depth: u16,
    argument: &Operand,
    out: &mut [u16],
    at: usize,
) -> Option<usize>
    requires { (2 * at ≤ length out.old) × (index < 2032) × (depth ≤ longest) × ((u : Term) × Argument u argument.now.nodes.now argument.now.closed) }
    ensures { (u : Term) → argument.now.nodes.now ≡ kept u → Worded u → Puts (kept (substitute depth u (var index))) out.old at result out.new }
{
    if index < depth {
        return put(16 + index, out, at);
    }
    if depth < index {
        return put(16 + index - 1, out, at);
    }
    let end = copy_nodes(argument.nodes, out, at)?;
    if argument.closed {
        return Some(end);
    }
    if depth == 0 {
        return Some(end);
    }
    raise(&mut out[2 * at..2 * end], depth);
    Some(end)
}

// A slice in which a term is rewritten, with its variables as `find_variables` finds them.
#[derive(Clone, Copy)]
struct Survey<'a> {
    source: &'a [u16],
    first: &'a [u16; 1024],
}

// Whether the subterm at a node stays as it is: a star, a bound variable, or a part without variables and names.
fn stays(survey: &Survey, node: usize, depth: u16) -> bool
    requires { (e : Term) × Subject e survey.now.source.now node depth × Surveyed e survey.now.source.now node survey.now.first.now }
    ensures { result ≡ true → (e u : Term) → Lies e survey.now.source.now node → Worded e → substitute depth u e ≡ e }
{
    let length = length_at(survey.source, node);
    if length == 1 {
        return survey.source[2 * node] < 16 + depth;
    }
    node + length <= usize::from(survey.first[node])
}

// Writes the subterm at a node as it is.
fn put_same(source: &[u16], node: usize, out: &mut [u16], at: usize) -> Option<usize>
    requires { (2 * at ≤ length out.old) × ((e : Term) × Lies e source.now node) }
    ensures { (e : Term) → Lies e source.now node → Puts (kept e) out.old at result out.new }
{
    let length = length_at(source, node);
    if length == 1 {
        return put(source[2 * node], out, at);
    }
    let end = node + length;
    copy_nodes(&source[2 * node..2 * end], out, at)
}

// Writes the subterm at a node with the argument put in. A part that stays is written here, of which half are leaves; a call writes
// any other. The length of a node is known, and set, when both its parts are written.
fn rewrite(
    survey: &Survey,
    node: usize,
    depth: u16,
    argument: &Operand,
    out: &mut [u16],
    at: usize,
) -> Option<usize>
    requires { (2 * at ≤ length out.old) × (length out.old ≤ 2 * (at + longest)) × ((e : Term) × Subject e survey.now.source.now node depth × Surveyed e survey.now.source.now node survey.now.first.now) × ((u : Term) × Argument u argument.now.nodes.now argument.now.closed) }
    ensures { (e u : Term) → Lies e survey.now.source.now node → Worded e → argument.now.nodes.now ≡ kept u → Worded u → Puts (kept (substitute depth u e)) out.old at result out.new }
{
    let word = survey.source[2 * node];
    if let Meaning::Variable(index) = classify(word) {
        return put_variable(index, depth, argument, out, at);
    }
    let start = put(word, out, at)?;
    let shape = shape_of(word);
    let count = shape.parts;
    if count == 0 {
        return Some(start);
    }
    let front = node + 1;
    let mut end = if stays(survey, front, depth) {
        put_same(survey.source, front, out, start)?
    } else {
        rewrite(survey, front, depth, argument, out, start)?
    };
    if 1 < count {
        let back = front + length_at(survey.source, front);
        let inner = depth + shape.bound;
        end = if stays(survey, back, inner) {
            put_same(survey.source, back, out, end)?
        } else {
            rewrite(survey, back, inner, argument, out, end)?
        };
    }
    out[2 * at + 1] = narrow(end - at);
    Some(end)
}

// Writes the term of more than one node at `body` with the argument put in for its outermost variable.
fn substitute_long(
    source: &[u16],
    body: usize,
    count: usize,
    argument: &Operand,
    out: &mut [u16],
    at: usize,
) -> Option<usize>
    requires { (2 * at ≤ length out.old) × (length out.old ≤ 2 * (at + longest)) × ((e : Term) × Subject e source.now body 0 × (count ≡ size e) × (1 < size e) × (body + size e ≤ longest)) × ((u : Term) × Argument u argument.now.nodes.now argument.now.closed) }
    ensures { (e u : Term) → Lies e source.now body → Worded e → argument.now.nodes.now ≡ kept u → Worded u → Puts (kept (substitute 0 u e)) out.old at result out.new }
{
    let mut first = [0u16; 1024];
    find_variables(source, body, body + count, &mut first);
    let survey = Survey {
        source,
        first: &first,
    };
    rewrite(&survey, body, 0, argument, out, at)
}

// Writes the term at `body` with the argument put in for its outermost variable. Of one node it is put without recursion.
pub fn substitute(
    source: &[u16],
    body: usize,
    argument: &[u16],
    closed: bool,
    out: &mut [u16],
    at: usize,
) -> Option<usize>
    requires { (2 * at ≤ length out.old) × (length out.old ≤ 2 * (at + longest)) × ((e : Term) × Subject e source.now body 0 × (body + size e ≤ longest)) × ((u : Term) × Argument u argument.now closed) }
    ensures { (e u : Term) → Lies e source.now body → Worded e → argument.now ≡ kept u → Worded u → Puts (kept (substitute 0 u e)) out.old at result out.new }
{
    let operand = Operand {
        nodes: argument,
        closed,
    };
    let length = length_at(source, body);
    if length == 1 {
        let word = source[2 * body];
        if let Meaning::Variable(index) = classify(word) {
            return put_variable(index, 0, &operand, out, at);
        }
        return put(word, out, at);
    }
    substitute_long(source, body, length, &operand, out, at)
}
