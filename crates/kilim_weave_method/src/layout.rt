//! Laying items out.

ghost use Rattle.std.specs.Prelude.{◌≡◌, ◌∷◌, ◌++◌, ◌+◌, List, [], IfOk, OnOk};
ghost use Rattle.kilim_weave_spec.specs.Woven as form;
ghost use Rattle.kilim_weave_pieces.specs.Items.{item_of, items_of, size_of};
ghost use Rattle.kilim_weave_method.specs.Laid.{Follows, IsLaid};

use crate::size::place_behind;
use kilim_program::{Frame, Instr};
use kilim_units::{NoMemory, Seq};
use kilim_weave_code::{Item, Items, Size};
use std::alloc::Global;
use std::marker::Model;

/// Code that is laid out.
#[derive(Drop)]
pub struct Laid {
    /// The instructions with their places.
    pub code: Seq<(u32, Instr)>,
    /// The declared frames with their places.
    pub frames: Seq<(u32, Frame)>,
    /// Which instructions count.
    pub counted: Seq<bool>,
    /// The place behind the code.
    pub end: u32,
}

impl Model for Laid {
    ghost use Rattle.kilim_weave_method.specs.Laid as parts;

    ghost Value = { parts.Output };

    ghost view = { λ s. record { code = s.code; frames = s.frames; counted = s.counted; end = s.end } };
}

fn stand(laid: &mut Laid, frame: Option<Frame>) -> Result<(), NoMemory>
    ensures { OnOk result (laid.new ≡ record laid.old { frames = laid.old.frames ++ form.with_frame laid.old.end frame [] }) }
{
    match frame {
        None => Ok(()),
        Some(frame) => {
            let at = laid.end;
            laid.frames.push((at, frame))?;
            Ok(())
        }
    }
}

fn add(laid: &mut Laid, instr: Instr, size: Size, counted: bool) -> Result<(), NoMemory>
    ensures { OnOk result (laid.new ≡ record { code = laid.old.code ++ (laid.old.end, instr) ∷ []; frames = laid.old.frames; counted = laid.old.counted ++ counted ∷ []; end = laid.old.end + size_of size laid.old.end }) }
{
    let at = laid.end;
    let Ok(()) = laid.code.push((at, instr)) else {
        return Err(NoMemory);
    };
    let Ok(()) = laid.counted.push(counted) else {
        return Err(NoMemory);
    };
    let Ok(end) = place_behind(at, size) else {
        return Err(NoMemory);
    };
    laid.end = end;
    Ok(())
}

fn put(laid: &mut Laid, item: Item) -> Result<(), NoMemory>
    ensures { OnOk result ((rest : List form.Item) → Follows laid.old (item_of item ∷ rest) laid.new rest) }
{
    match item {
        Item::Stands(_, frame) => stand(laid, frame),
        Item::Adds(instr, size, counted) => add(laid, instr, size, counted),
    }
}

fn nothing(alloc: Global) -> Laid
    ensures { result ≡ record { code = []; frames = []; counted = []; end = 0 } }
{
    Laid {
        code: Seq::new(alloc),
        frames: Seq::new(alloc),
        counted: Seq::new(alloc),
        end: 0,
    }
}

/// The items one behind the other, from place 0 on (JVMS 4.7.3): the instructions with their places, the declared frames with theirs,
/// which instructions count, and the place behind the last. Want of memory is the one other answer.
pub fn lay(alloc: Global, items: Items) -> Result<Laid, NoMemory>
    ensures { IfOk result (λ laid. IsLaid (items_of items) laid) }
{
    let mut left = items;
    let mut laid = nothing(alloc);
    while let Some(item) = left.take() {
        let Ok(()) = put(&mut laid, item) else {
            return Err(NoMemory);
        };
    }
    Ok(laid)
}
