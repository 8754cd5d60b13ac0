//! Instructions at places of code (JVMS 6.5).

// Opcodes that are asked for.
const ALOAD: u8 = 25;

const ALOAD_0: u8 = 42;

const ALOAD_3: u8 = 45;

const ASTORE: u8 = 58;

const ASTORE_0: u8 = 75;

const ASTORE_3: u8 = 78;

const AASTORE: u8 = 83;

const IINC: u8 = 132;

const TABLESWITCH: u8 = 170;

const LOOKUPSWITCH: u8 = 171;

const GETFIELD: u8 = 180;

const PUTFIELD: u8 = 181;

const INVOKEVIRTUAL: u8 = 182;

const INVOKEINTERFACE: u8 = 185;

const WIDE: u8 = 196;

/// What an instruction does with names, as far as it matters where an object went.
#[derive(Clone, Copy)]
pub enum Act {
    /// It loads the object of a slot.
    Load(u16),
    /// It stores another object into a slot.
    Store(u16),
    /// It reads a field of the object that was loaded last.
    Reads,
    /// It calls a method, or stores an object into another one.
    Gives,
    Other,
}

/// The byte at a place; 0 where there is none.
pub fn byte_at(code: &[u8], at: usize) -> u8 {
    match code.get(at) {
        Some(byte) => *byte,
        None => 0,
    }
}

/// The two bytes at a place, as a number.
pub fn pair_at(code: &[u8], at: usize) -> u16 {
    u16::from_be_bytes([byte_at(code, at), byte_at(code, at.saturating_add(1))])
}

fn four_at(code: &[u8], at: usize) -> u32 {
    u32::from(pair_at(code, at)) * 65536 + u32::from(pair_at(code, at.saturating_add(2)))
}

// What a wide instruction does.
fn wide_act(code: &[u8], at: usize) -> Act {
    let slot = pair_at(code, at.saturating_add(2));
    match byte_at(code, at.saturating_add(1)) {
        ALOAD => Act::Load(slot),
        ASTORE => Act::Store(slot),
        _ => Act::Other,
    }
}

/// What the instruction at a place does.
pub fn act_at(code: &[u8], at: usize) -> Act {
    let opcode = byte_at(code, at);
    if ALOAD_0 <= opcode && opcode <= ALOAD_3 {
        return Act::Load(u16::from(opcode - ALOAD_0));
    }
    if ASTORE_0 <= opcode && opcode <= ASTORE_3 {
        return Act::Store(u16::from(opcode - ASTORE_0));
    }
    if INVOKEVIRTUAL <= opcode && opcode <= INVOKEINTERFACE {
        return Act::Gives;
    }
    match opcode {
        ALOAD => Act::Load(u16::from(byte_at(code, at.saturating_add(1)))),
        ASTORE => Act::Store(u16::from(byte_at(code, at.saturating_add(1)))),
        WIDE => wide_act(code, at),
        GETFIELD => Act::Reads,
        PUTFIELD | AASTORE => Act::Gives,
        _ => Act::Other,
    }
}

// The length of an instruction of a fixed length, by its opcode.
fn fixed(opcode: u8) -> usize {
    match opcode {
        16 | 18 | 188 => 2,
        21..=25 | 54..=58 | 169 => 2,
        17 | 19 | 20 | 132 | 187 | 189 | 192 | 193 | 198 | 199 => 3,
        153..=168 | 178..=184 => 3,
        197 => 4,
        185 | 186 | 200 | 201 => 5,
        _ => 1,
    }
}

// A switch begins with up to three bytes, so that what follows stands at a place that four divides.
fn behind_padding(at: usize) -> usize {
    at.saturating_add(4) / 4 * 4
}

fn table_length(code: &[u8], at: usize) -> usize {
    let from = behind_padding(at);
    let low = four_at(code, from.saturating_add(4));
    let high = four_at(code, from.saturating_add(8));
    let rows = high.wrapping_sub(low) as usize;
    from.saturating_sub(at)
        .saturating_add(rows.saturating_mul(4))
        .saturating_add(16)
}

fn lookup_length(code: &[u8], at: usize) -> usize {
    let from = behind_padding(at);
    let rows = four_at(code, from.saturating_add(4)) as usize;
    from.saturating_sub(at)
        .saturating_add(rows.saturating_mul(8))
        .saturating_add(8)
}

/// How many bytes the instruction at a place takes, at least one.
pub fn length_at(code: &[u8], at: usize) -> usize {
    match byte_at(code, at) {
        TABLESWITCH => table_length(code, at),
        LOOKUPSWITCH => lookup_length(code, at),
        WIDE => {
            if byte_at(code, at.saturating_add(1)) == IINC {
                6
            } else {
                4
            }
        }
        opcode => fixed(opcode),
    }
}
