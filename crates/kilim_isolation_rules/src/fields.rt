//! Reading and storing fields and elements.

ghost use Rattle.std.specs.Prelude.{◌≡◌, IfOk, OnOk, option_copied};
ghost use Rattle.kilim_isolation_rules.specs.Fields as spec;
ghost use Rattle.kilim_isolation_rules.specs.Marks as marks;

use crate::deed::{Broken, none_broken};
use crate::growth::{add, new_region, pop, push};
use crate::marks::is_tree;
use crate::steps::{cut, join};
use kilim_isolation_graph::{Graph, Label, Node, Standing, slot_at, type_at};
use kilim_program::{Field, FieldId, Kind, Program, Ty, VType};
use kilim_units::{NoMemory, Seq};
use std::alloc::Global;

fn is_child(parent: Option<(usize, Label)>, holder: usize, field: FieldId) -> bool
    ensures { result ≡ spec.is_child parent holder field }
{
    match parent {
        None => false,
        Some((known, Label::Field(label))) => known == holder && label.0 == field.0,
        Some((_, Label::Element)) => false,
    }
}

fn known_child(nodes: &[Node], holder: usize, field: FieldId) -> Option<usize>
    ensures { result ≡ spec.known_child nodes.now 0 holder field }
{
    for (number, node) in nodes.iter().enumerate() {
        if is_child(node.parent, holder, field) {
            return Some(number);
        }
    }
    None
}

fn child_by(graph: &Graph, label: Label, holder: usize) -> Option<usize>
    ensures { result ≡ spec.child_by graph.now label holder }
{
    match label {
        Label::Field(field) => known_child(graph.nodes.as_slice(), holder, field),
        Label::Element => None,
    }
}

// A tree is read from a field or an element of what a slot names.
fn read_from(graph: &mut Graph, label: Label, holder: Option<usize>) -> Result<(), NoMemory>
    ensures { OnOk result (graph.new ≡ spec.read_from graph.old label holder) }
{
    let Some(at) = holder else {
        return push(graph, None);
    };
    let node = graph.node(at);
    if node.standing.is_safe() {
        return add(
            graph,
            Node {
                region: node.region,
                standing: Standing::Safe,
                head: false,
                parent: None,
            },
        );
    }
    match child_by(graph, label, at) {
        Some(child) => push(graph, Some(child)),
        None => add(
            graph,
            Node {
                region: node.region,
                standing: Standing::Inner,
                head: false,
                parent: Some((at, label)),
            },
        ),
    }
}

// A field or an element of that kind is read from what a slot names, in place of so many items of the stack.
fn reads(
    alloc: Global,
    kind: Kind,
    takes: usize,
    label: Label,
    holder: Option<usize>,
    graph: &mut Graph,
) -> Result<(), NoMemory>
    ensures { OnOk result (graph.new ≡ spec.reads kind takes label holder graph.old) }
{
    let Ok(()) = pop(alloc, graph, takes) else {
        return Err(NoMemory);
    };
    match kind {
        Kind::Tree => read_from(graph, label, holder),
        Kind::Value | Kind::Private => push(graph, None),
    }
}

// The nodes after the known child by a label left, and the change below its holder.
fn nodes_without_child(
    alloc: Global,
    graph: &Graph,
    label: Label,
    holder: usize,
) -> Result<Seq<Node>, NoMemory>
    ensures { IfOk result (λ nodes. nodes ≡ (spec.without_child graph.now label holder).nodes) }
{
    let nodes = graph.nodes.as_slice();
    let Ok(region) = new_region(nodes) else {
        return Err(NoMemory);
    };
    cut(alloc, nodes, holder, child_by(graph, label, holder), region)
}

// The known child by a label leaves.
fn drop_child(alloc: Global, graph: &mut Graph, label: Label, holder: usize) -> Result<(), NoMemory>
    ensures { OnOk result (graph.new ≡ spec.without_child graph.old label holder) }
{
    let Ok(nodes) = nodes_without_child(alloc, graph, label, holder) else {
        return Err(NoMemory);
    };
    graph.nodes = nodes;
    Ok(())
}

fn hang(
    alloc: Global,
    graph: &mut Graph,
    label: Label,
    holder: usize,
    value: usize,
) -> Result<(), NoMemory>
    ensures { OnOk result (graph.new ≡ spec.joined graph.old label holder value) }
{
    let Ok(nodes) = join(alloc, graph.nodes.as_slice(), holder, value, label) else {
        return Err(NoMemory);
    };
    graph.nodes = nodes;
    Ok(())
}

// What a slot names is stored into a field or an element of what another names.
fn stored(
    alloc: Global,
    graph: &mut Graph,
    label: Label,
    holder: Option<usize>,
    value: Option<usize>,
) -> Result<Broken, NoMemory>
    ensures { IfOk result (λ broken. marks.marked broken graph.new ≡ spec.stored graph.old label holder value) }
{
    let mut broken = none_broken();
    let Some(at) = holder else {
        return Ok(broken);
    };
    let into = graph.node(at);
    broken.safe_changed = into.standing.is_safe();
    let Some(from) = value else {
        let Ok(()) = drop_child(alloc, graph, label, at) else {
            return Err(NoMemory);
        };
        return Ok(broken);
    };
    let node = graph.node(from);
    broken.not_free = !node.standing.is_root();
    broken.cycle = node.standing.is_root() && node.region == into.region;
    let Ok(()) = drop_child(alloc, graph, label, at) else {
        return Err(NoMemory);
    };
    let Ok(()) = hang(alloc, graph, label, at, from) else {
        return Err(NoMemory);
    };
    Ok(broken)
}

// A value of a type is stored into a field or an element of a kind.
fn stores(
    alloc: Global,
    program: &Program,
    kind: Kind,
    ty: VType,
    label: Label,
    holder: Option<usize>,
    value: Option<usize>,
    graph: &mut Graph,
) -> Result<Broken, NoMemory>
    ensures { IfOk result (λ broken. marks.marked broken graph.new ≡ spec.stores program.now kind ty label holder value graph.old) }
{
    match kind {
        Kind::Value => Ok(none_broken()),
        Kind::Tree => stored(alloc, graph, label, holder, value),
        Kind::Private => {
            let mut broken = none_broken();
            broken.mixed = is_tree(program, ty);
            Ok(broken)
        }
    }
}

/// A field is read; one that isn't there changes nothing.
pub fn gets_field(
    alloc: Global,
    program: &Program,
    graph: &mut Graph,
    id: FieldId,
    field: Option<&Field>,
) -> Result<Broken, NoMemory>
    ensures { IfOk result (λ broken. marks.marked broken graph.new ≡ spec.gets_field program.now graph.old id (option_copied field.entry)) }
{
    let Some(field) = field else {
        return Ok(none_broken());
    };
    let holder = slot_at(graph.stack.as_slice(), 0);
    let Ok(()) = reads(
        alloc,
        program.kind(&field.ty),
        1,
        Label::Field(id),
        holder,
        graph,
    ) else {
        return Err(NoMemory);
    };
    Ok(none_broken())
}

/// A field is stored; one that isn't there changes nothing.
pub fn puts_field(
    alloc: Global,
    program: &Program,
    graph: &mut Graph,
    types: &[VType],
    id: FieldId,
    field: Option<&Field>,
) -> Result<Broken, NoMemory>
    ensures { IfOk result (λ broken. marks.marked broken graph.new ≡ spec.puts_field program.now graph.old types.now id (option_copied field.entry)) }
{
    let Some(field) = field else {
        return Ok(none_broken());
    };
    let holder = slot_at(graph.stack.as_slice(), 1);
    let value = slot_at(graph.stack.as_slice(), 0);
    let Ok(()) = pop(alloc, graph, 2) else {
        return Err(NoMemory);
    };
    stores(
        alloc,
        program,
        program.kind(&field.ty),
        type_at(types, 0),
        Label::Field(id),
        holder,
        value,
        graph,
    )
}

fn element_kind(program: &Program, ty: VType) -> Kind
    ensures { result ≡ spec.element_kind program.now ty }
{
    match ty {
        VType::Object(ty) => program.kind(&Ty {
            dims: ty.dims.saturating_sub(1),
            base: ty.base,
        }),
        VType::Top
        | VType::Int
        | VType::Long
        | VType::Null
        | VType::UninitThis
        | VType::Uninit(_) => Kind::Value,
    }
}

/// An element is read.
pub fn gets_element(
    alloc: Global,
    program: &Program,
    graph: &mut Graph,
    types: &[VType],
) -> Result<Broken, NoMemory>
    ensures { IfOk result (λ broken. marks.marked broken graph.new ≡ spec.gets_element program.now graph.old types.now) }
{
    let kind = element_kind(program, type_at(types, 1));
    let holder = slot_at(graph.stack.as_slice(), 1);
    let Ok(()) = reads(alloc, kind, 2, Label::Element, holder, graph) else {
        return Err(NoMemory);
    };
    Ok(none_broken())
}

/// An element is stored.
pub fn puts_element(
    alloc: Global,
    program: &Program,
    graph: &mut Graph,
    types: &[VType],
) -> Result<Broken, NoMemory>
    ensures { IfOk result (λ broken. marks.marked broken graph.new ≡ spec.puts_element program.now graph.old types.now) }
{
    let holder = slot_at(graph.stack.as_slice(), 2);
    let value = slot_at(graph.stack.as_slice(), 0);
    let Ok(()) = pop(alloc, graph, 3) else {
        return Err(NoMemory);
    };
    stores(
        alloc,
        program,
        element_kind(program, type_at(types, 2)),
        type_at(types, 0),
        Label::Element,
        holder,
        value,
        graph,
    )
}
