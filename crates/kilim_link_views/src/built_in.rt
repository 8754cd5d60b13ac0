//! The built-in classes.

ghost use Rattle.std.specs.Prelude.{◌≡◌, ◌++◌, ◌∷◌, [], map, option_map, option_to_list, codes, IfOk, OnOk};
ghost use Rattle.std.specs.List.{flat_map, filter_map};
ghost use Rattle.kilim_program.specs.BuiltIn.{built_in_classes_in, is_final_built_in};
ghost use Rattle.kilim_program.specs.Names.{class_name, base_descriptor, descriptor, method_at};
ghost use Rattle.kilim_link_spec.specs.declared.view.Marks.TheVariants.{Stated};
ghost use Rattle.kilim_link_spec.specs.World.{result_descriptor, method_descriptor, declared_built_in, view_of_built_in, built_ins};

use crate::built_ins::{built_in_classes, built_in_fields, built_in_methods};
use kilim_link_spec::{ClassView, DeclaredMethod, Marks};
use kilim_program::lookups::{class_at, method_at};
use kilim_program::{Base, Class, ClassId, Form, Method, MethodId, Program, Ty, built_in_keeps};
use kilim_units::{NoMemory, Seq, Units};
use std::alloc::Global;

// The built-in classes and methods of a form, as a program of their own.
fn built_ins(alloc: Global, form: Form) -> Result<Program, NoMemory>
    ensures { IfOk result (λ program. program ≡ built_ins form) }
{
    built_in_keeps();
    let Ok(classes) = built_in_classes(alloc, form, 0, 0) else {
        return Err(NoMemory);
    };
    let Ok(methods) = built_in_methods(alloc, form, 0) else {
        return Err(NoMemory);
    };
    let Ok(fields) = built_in_fields(alloc, 0) else {
        return Err(NoMemory);
    };
    Ok(Program {
        classes,
        methods,
        fields,
        form,
    })
}

// The name of a class; none past the end.
fn class_name(program: &Program, class: ClassId) -> &[u16]
    ensures { result.now ≡ class_name program.now class }
{
    match class_at(program, class) {
        Some(found) => found.name.as_slice(),
        None => &[],
    }
}

// Appends the descriptor of a base (JVMS 4.3.2).
fn push_base(text: &mut Vec<u16>, program: &Program, base: Base) -> Result<(), NoMemory>
    ensures { OnOk result (text.new.items ≡ text.old.items ++ base_descriptor program.now base) }
{
    let letter = match base {
        Base::Bool => 90,
        Base::Byte => 66,
        Base::Char => 67,
        Base::Short => 83,
        Base::Int => 73,
        Base::Long => 74,
        Base::Class(class) => return push_class(text, class_name(program, class)),
    };
    let Ok(()) = text.push(letter) else {
        return Err(NoMemory);
    };
    Ok(())
}

// Appends the descriptor of a class of that name.
fn push_class(text: &mut Vec<u16>, name: &[u16]) -> Result<(), NoMemory>
    ensures { OnOk result (text.new.items ≡ text.old.items ++ (codes "L" ++ (name.now ++ codes ";"))) }
{
    let Ok(()) = text.push(76) else {
        return Err(NoMemory);
    };
    let Ok(()) = text.extend_from_slice(name) else {
        return Err(NoMemory);
    };
    let Ok(()) = text.push(59) else {
        return Err(NoMemory);
    };
    Ok(())
}

// Appends the descriptor of a type.
fn push_type(text: &mut Vec<u16>, program: &Program, ty: Ty) -> Result<(), NoMemory>
    ensures { OnOk result (text.new.items ≡ text.old.items ++ descriptor program.now ty) }
{
    for _ in 0..ty.dims {
        let Ok(()) = text.push(91) else {
            return Err(NoMemory);
        };
    }
    push_base(text, program, ty.base)
}

// Appends the descriptors of types.
fn push_types(text: &mut Vec<u16>, program: &Program, types: &[Ty]) -> Result<(), NoMemory>
    ensures { OnOk result (text.new.items ≡ text.old.items ++ flat_map (descriptor program.now) types.now) }
{
    for ty in types {
        let Ok(()) = push_type(text, program, *ty) else {
            return Err(NoMemory);
        };
    }
    Ok(())
}

// Appends the descriptor of a result (JVMS 4.3.3).
fn push_result(text: &mut Vec<u16>, program: &Program, gives: Option<Ty>) -> Result<(), NoMemory>
    ensures { OnOk result (text.new.items ≡ text.old.items ++ result_descriptor program.now gives) }
{
    match gives {
        None => {
            let Ok(()) = text.push(86) else {
                return Err(NoMemory);
            };
            Ok(())
        }
        Some(ty) => push_type(text, program, ty),
    }
}

// Appends the descriptor of a method.
fn push_method_descriptor(
    text: &mut Vec<u16>,
    program: &Program,
    method: &Method,
) -> Result<(), NoMemory>
    ensures { OnOk result (text.new.items ≡ text.old.items ++ method_descriptor program.now method.now) }
{
    let Ok(()) = text.push(40) else {
        return Err(NoMemory);
    };
    let Ok(()) = push_types(text, program, method.params.as_slice()) else {
        return Err(NoMemory);
    };
    let Ok(()) = text.push(41) else {
        return Err(NoMemory);
    };
    push_result(text, program, method.result)
}

/// The descriptor of a method of a program (JVMS 4.3.3).
pub fn method_descriptor(
    alloc: Global,
    program: &Program,
    method: &Method,
) -> Result<Units, NoMemory>
    ensures { IfOk result (λ text. text ≡ method_descriptor program.now method.now) }
{
    let mut text = Vec::new(alloc);
    let Ok(()) = push_method_descriptor(&mut text, program, method) else {
        return Err(NoMemory);
    };
    let Ok(text) = Units::from_vec(alloc, text) else {
        return Err(NoMemory);
    };
    Ok(text)
}

// What a built-in method may do with what it is handed.
fn stated(alloc: Global, method: &Method) -> Result<Marks, NoMemory>
    ensures { IfOk result (λ marks. marks ≡ Stated method.now.receiver method.now.qualifiers) }
{
    let Ok(qualifiers) = Vec::from_slice(alloc, method.qualifiers.as_slice()) else {
        return Err(NoMemory);
    };
    Ok(Marks::Stated(method.receiver, Seq::from_vec(qualifiers)))
}

// Appends a built-in method as if it were declared.
fn push_built_in(
    alloc: Global,
    methods: &mut Seq<DeclaredMethod>,
    program: &Program,
    method: &Method,
) -> Result<(), NoMemory>
    ensures { OnOk result (methods.new ≡ methods.old ++ declared_built_in program.now method.now ∷ []) }
{
    let Ok(name) = Units::from_slice(alloc, method.name.as_slice()) else {
        return Err(NoMemory);
    };
    let Ok(descriptor) = method_descriptor(alloc, program, method) else {
        return Err(NoMemory);
    };
    let Ok(marks) = stated(alloc, method) else {
        return Err(NoMemory);
    };
    let Ok(()) = methods.push(DeclaredMethod {
        name,
        descriptor,
        is_static: method.is_static,
        is_private: method.is_private,
        is_abstract: method.is_abstract,
        is_final: false,
        pausable: method.pausable,
        marks,
    }) else {
        return Err(NoMemory);
    };
    Ok(())
}

// Appends the method of a number, where there is one, as if it were declared.
fn push_declared(
    alloc: Global,
    methods: &mut Seq<DeclaredMethod>,
    program: &Program,
    id: MethodId,
) -> Result<(), NoMemory>
    ensures { OnOk result (methods.new ≡ methods.old ++ map (declared_built_in program.now) (option_to_list (method_at program.now id))) }
{
    match method_at(program, id) {
        Some(method) => push_built_in(alloc, methods, program, method),
        None => Ok(()),
    }
}

// The methods of these numbers as if they were declared.
fn declared_methods(
    alloc: Global,
    program: &Program,
    ids: &[MethodId],
) -> Result<Seq<DeclaredMethod>, NoMemory>
    ensures { IfOk result (λ methods. methods ≡ map (declared_built_in program.now) (filter_map (method_at program.now) ids.now)) }
{
    let mut methods = Seq::new(alloc);
    for id in ids {
        let Ok(()) = push_declared(alloc, &mut methods, program, *id) else {
            return Err(NoMemory);
        };
    }
    Ok(methods)
}

// The name of a superclass.
fn superclass_name(
    alloc: Global,
    program: &Program,
    superclass: Option<ClassId>,
) -> Result<Option<Units>, NoMemory>
    ensures { IfOk result (λ name. name ≡ option_map (class_name program.now) superclass) }
{
    match superclass {
        None => Ok(None),
        Some(class) => match Units::from_slice(alloc, class_name(program, class)) {
            Ok(name) => Ok(Some(name)),
            Err(_) => Err(NoMemory),
        },
    }
}

// Whether no class may have it as its superclass.
fn is_final(name: &Units) -> bool
    ensures { result ≡ is_final_built_in name.now }
{
    name.is_text(b"java/lang/String")
        || name.is_text(b"kilim/Mailbox")
        || name.is_text(b"kilim/Sys")
}

// Appends a built-in class as if it were given.
fn push_view(
    alloc: Global,
    views: &mut Seq<ClassView>,
    program: &Program,
    class: &Class,
) -> Result<(), NoMemory>
    ensures { OnOk result (views.new ≡ views.old ++ view_of_built_in program.now class.now ∷ []) }
{
    let Ok(methods) = declared_methods(alloc, program, class.methods.as_slice()) else {
        return Err(NoMemory);
    };
    let Ok(name) = Units::from_slice(alloc, class.name.as_slice()) else {
        return Err(NoMemory);
    };
    let Ok(superclass) = superclass_name(alloc, program, class.superclass) else {
        return Err(NoMemory);
    };
    let Ok(()) = views.push(ClassView {
        name,
        superclass,
        is_marked: class.message,
        is_abstract: class.is_abstract,
        is_final: is_final(&class.name),
        is_built_in: true,
        fields: Seq::new(alloc),
        methods,
    }) else {
        return Err(NoMemory);
    };
    Ok(())
}

// The classes of a program as if they were given.
fn views_of(alloc: Global, program: &Program) -> Result<Seq<ClassView>, NoMemory>
    ensures { IfOk result (λ views. views ≡ map (view_of_built_in program.now) program.now.classes) }
{
    let mut views = Seq::new(alloc);
    for class in program.classes.as_slice() {
        let Ok(()) = push_view(alloc, &mut views, program, class) else {
            return Err(NoMemory);
        };
    }
    Ok(views)
}

/// The built-in classes of a form as if they were given, in their order (own).
pub fn built_in_views(alloc: Global, form: Form) -> Result<Seq<ClassView>, NoMemory>
    ensures { IfOk result (λ views. views ≡ map (view_of_built_in (built_ins form)) (built_in_classes_in form 0 0)) }
{
    let Ok(program) = built_ins(alloc, form) else {
        return Err(NoMemory);
    };
    let views = views_of(alloc, &program);
    drop(program);
    views
}
