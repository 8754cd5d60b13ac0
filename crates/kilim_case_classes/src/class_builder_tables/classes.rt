//! The two classes.

ghost use Rattle.std.specs.List.{AllByRecursion};
ghost use Rattle.std.specs.Prelude.{◌≡◌, true};
ghost use Rattle.kilim_class_file.specs.Text.{ClassFits};

use crate::class_builder_tables::lines::push_bytes;
use crate::class_builder_tables::parts::{
    add_constructor, class, constant, frame, member, method_ref, need, push_instr, push_plain,
    source,
};
use crate::links::push_class;
use kilim_case_text::Text;
use kilim_class_builder::ClassBuilder;
use kilim_class_code::opcodes::RawInstr;
use kilim_class_file::ClassFile;
use kilim_class_pool::Entry;
use kilim_program::Qualifier;
use kilim_units::Seq;
use std::alloc::Global;

// Finishes a class: its bytes stand in a line, and it stands behind the others; whether that was possible.
fn finish(text: &mut Text, alloc: Global, builder: ClassBuilder, files: &mut Vec<ClassFile>) -> bool
    ensures { result ≡ true → AllByRecursion ClassFits files.old.items → AllByRecursion ClassFits files.new.items }
{
    match builder.finish(alloc) {
        Ok(file) => {
            push_bytes(text, alloc, &file);
            push_class(files, file)
        }
        Err(_) => false,
    }
}

fn add_node(text: &mut Text, alloc: Global, builder: &mut ClassBuilder) {
    need(text, builder.message(alloc));
    need(text, builder.field(alloc, "next", "LNode;"));
    need(text, builder.field(alloc, "value", "I"));
    add_constructor(text, alloc, builder, "java/lang/Object");
}

/// `Node`, a message with a link and a number.
pub fn node(text: &mut Text, alloc: Global, files: &mut Vec<ClassFile>) -> bool
    ensures { result ≡ true → AllByRecursion ClassFits files.old.items → AllByRecursion ClassFits files.new.items }
{
    match ClassBuilder::new(alloc, "Node", "java/lang/Object") {
        Ok(mut builder) => {
            add_node(text, alloc, &mut builder);
            finish(text, alloc, builder, files)
        }
        Err(_) => false,
    }
}

// `static int value(@Safe Node n) { return n == null ? 0 : n.value; }`, as two returns.
fn add_value(text: &mut Text, alloc: Global, builder: &mut ClassBuilder) {
    let node = class(text, alloc, builder, "Node");
    let (owner, name) = member(text, alloc, builder, "Node", "value", "I");
    let value = constant(text, builder, Entry::Fieldref(owner, name));
    let mut code = Seq::new(alloc);
    push_plain(text, &mut code, &[42]);
    push_instr(text, &mut code, RawInstr::Jump(198, 9));
    push_plain(text, &mut code, &[42]);
    push_instr(text, &mut code, RawInstr::Index(180, value));
    push_plain(text, &mut code, &[172, 3, 172]);
    let frames = frame(text, alloc, 9, 0, node);
    let mut method = source(text, alloc, "value", "(LNode;)I", 9, code, frames);
    if method.qualifiers.push(Some(Qualifier::Safe)).is_err() {
        text.lacks();
    }
    need(text, builder.method(alloc, method));
}

// `static int some(Node[] ns)`: 0 where there is none, else 1.
fn add_some(text: &mut Text, alloc: Global, builder: &mut ClassBuilder) {
    let node = class(text, alloc, builder, "Node");
    let mut code = Seq::new(alloc);
    push_plain(text, &mut code, &[42, 190]);
    push_instr(text, &mut code, RawInstr::Jump(153, 7));
    push_plain(text, &mut code, &[4, 172, 3, 172]);
    let frames = frame(text, alloc, 7, 1, node);
    let method = source(text, alloc, "some", "([LNode;)I", 9, code, frames);
    need(text, builder.method(alloc, method));
}

// `public void execute() throws Pausable { Sys.yield(); }`
fn add_execute(text: &mut Text, alloc: Global, builder: &mut ClassBuilder) {
    let gives_way = method_ref(text, alloc, builder, "kilim/Sys", "yield");
    let mut code = Seq::new(alloc);
    push_instr(text, &mut code, RawInstr::Index(184, gives_way));
    push_plain(text, &mut code, &[177]);
    let mut method = source(text, alloc, "execute", "()V", 1, code, Seq::new(alloc));
    method.pausable = true;
    method.receiver = Some(Qualifier::Cuttable);
    need(text, builder.method(alloc, method));
}

fn add_work(text: &mut Text, alloc: Global, builder: &mut ClassBuilder) {
    add_constructor(text, alloc, builder, "kilim/Task");
    add_value(text, alloc, builder);
    add_some(text, alloc, builder);
    add_execute(text, alloc, builder);
}

/// `Work`, a task that gives way once.
pub fn work(text: &mut Text, alloc: Global, files: &mut Vec<ClassFile>) -> bool
    ensures { result ≡ true → AllByRecursion ClassFits files.old.items → AllByRecursion ClassFits files.new.items }
{
    match ClassBuilder::new(alloc, "Work", "kilim/Task") {
        Ok(mut builder) => {
            add_work(text, alloc, &mut builder);
            finish(text, alloc, builder, files)
        }
        Err(_) => false,
    }
}
