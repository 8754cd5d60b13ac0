//! The table of instructions.

ghost use Rattle.std.specs.Prelude.{◌≡◌};
ghost use Rattle.kilim_class_code.specs.opcodes.Table.{form_in, form_of, unlisted};

use crate::opcodes::fault::OpFault;

/// The layout of what stands behind an instruction's number.
#[derive(Clone, Copy, PartialEq, Eq)]
pub enum OpForm {
    /// Nothing.
    Plain,
    /// A signed byte.
    Byte,
    /// A signed number of two bytes.
    Short,
    /// The slot of a local, one byte.
    Local,
    /// A pool index of one byte.
    Constant,
    /// A pool index of two bytes.
    Index,
    /// The slot of a local and a signed byte.
    Iinc,
    /// A signed distance of two bytes.
    Jump,
    /// A signed distance of four bytes.
    WideJump,
    /// The code of an element type, one byte.
    NewArray,
    /// Padding, a default, a low and a high, and a distance for each number from low to high.
    TableSwitch,
    /// Padding, a default, a count, and so many matches, each with a distance.
    LookupSwitch,
    /// The number of an instruction on locals, and its operands twice as wide.
    Wide,
}

// The layouts of the numbers from one to another.
const FORMS: [(u8, u8, OpForm); 40] = [
    (0, 10, OpForm::Plain),
    (16, 16, OpForm::Byte),
    (17, 17, OpForm::Short),
    (18, 18, OpForm::Constant),
    (19, 20, OpForm::Index),
    (21, 22, OpForm::Local),
    (25, 25, OpForm::Local),
    (26, 33, OpForm::Plain),
    (42, 47, OpForm::Plain),
    (50, 53, OpForm::Plain),
    (54, 55, OpForm::Local),
    (58, 58, OpForm::Local),
    (59, 66, OpForm::Plain),
    (75, 80, OpForm::Plain),
    (83, 97, OpForm::Plain),
    (100, 101, OpForm::Plain),
    (104, 105, OpForm::Plain),
    (108, 109, OpForm::Plain),
    (112, 113, OpForm::Plain),
    (116, 117, OpForm::Plain),
    (120, 131, OpForm::Plain),
    (132, 132, OpForm::Iinc),
    (133, 133, OpForm::Plain),
    (136, 136, OpForm::Plain),
    (145, 148, OpForm::Plain),
    (153, 167, OpForm::Jump),
    (170, 170, OpForm::TableSwitch),
    (171, 171, OpForm::LookupSwitch),
    (172, 173, OpForm::Plain),
    (176, 177, OpForm::Plain),
    (178, 178, OpForm::Index),
    (180, 184, OpForm::Index),
    (187, 187, OpForm::Index),
    (188, 188, OpForm::NewArray),
    (189, 189, OpForm::Index),
    (190, 191, OpForm::Plain),
    (192, 193, OpForm::Index),
    (196, 196, OpForm::Wide),
    (198, 199, OpForm::Jump),
    (200, 200, OpForm::WideJump),
];

fn form_in(rows: &[(u8, u8, OpForm)], op: u8) -> Option<OpForm>
    ensures { result ≡ form_in rows.now op }
{
    for row in rows {
        if row.0 <= op && op <= row.1 {
            return Some(row.2);
        }
    }
    None
}

/// The layout of the instruction with this number (JVMS 6.5), `None` exactly for a number that this project's
/// table doesn't list: left out up to 201, and unknown from 202 on.
pub fn form(op: u8) -> Option<OpForm>
    ensures { result ≡ form_of op }
{
    form_in(&FORMS, op)
}

// Of a number that isn't listed.
pub fn unlisted(op: u8) -> OpFault
    ensures { result ≡ unlisted op }
{
    if op < 202 {
        OpFault::LeftOut(op)
    } else {
        OpFault::Unknown(op)
    }
}
