//! The way back to a call. All is put before the items behind it.

ghost use Rattle.std.specs.Prelude.{◌≡◌, ◌∷◌, ◌<◌, Some, length, slice_get, OnOk};
ghost use Rattle.kilim_weave_spec.specs.Woven as form;
ghost use Rattle.kilim_weave_pieces.specs.Meant.{meant};
ghost use Rattle.kilim_weave_pieces.specs.Items.{items_of};
ghost use Rattle.kilim_weave_pieces.specs.Places.{at_in};
ghost use Rattle.kilim_program.specs.declared.instr.Instr.TheVariants.{Goto};

use crate::item::Items;
use crate::parts::{add, dummy_of, vtype};
use crate::plan::Plan;
use kilim_program::{Instr, Method, Ty};
use kilim_units::NoMemory;

fn type_of(types: &[Ty], at: usize) -> Ty
    requires { at < length types.now }
    ensures { slice_get types.now at ≡ Some result }
{
    types[at]
}

// A value for each parameter.
fn dummies(params: &[Ty], items: &mut Items) -> Result<(), NoMemory>
    ensures { OnOk result (items_of items.new ≡ form.dummies params.now (items_of items.old)) }
{
    let mut left = params.len();
    while left > 0 {
        left -= 1;
        let ty = type_of(params, left);
        let value = vtype(ty);
        let dummy = dummy_of(value);
        add(items, dummy, 1)?;
    }
    Ok(())
}

/// The arguments' stand-ins, and the way back to the call.
pub fn go_back(plan: &Plan, callee: &Method, place: u32, items: &mut Items) -> Result<(), NoMemory>
    ensures { OnOk result (items_of items.new ≡ form.dummies callee.now.params (form.added (Goto (at_in plan.now.places.now place)) 3 ∷ (items_of items.old))) }
{
    let to = plan.places.at(place)?;
    add(items, Instr::Goto(to), 3)?;
    dummies(callee.params.as_slice(), items)
}
